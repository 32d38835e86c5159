//! Runs of steps, given one after another.
ghost use Rattle.std.specs.Prelude.{◌≡◌, ◌^◌, ◌<◌, ◌∷◌, [], IfSome, IsNone, List, length};
ghost use Rattle.qpu_machine.specs.declared.journal.Run.{Run};

use crate::journal::{Journal, Run};
use std::marker::Model;

/// What gives runs of steps one after another. Contracts see those that are left.
pub trait Runs {
    ghost left: { Self → List Run };

    /// Tells that those that are left can be counted.
    fn counts(&self)
        ensures { length (left self.now) < 2 ^ 64 };

    /// The next run; none where none is left.
    fn next(&mut self) -> Option<Run>
        ensures some { IfSome result (λ run. left self.old ≡ run ∷ left self.new) }
        ensures none { IsNone result → left self.old ≡ [] };
}

/// The runs of a journal, in order. Contracts see those that are left.
#[derive(Drop)]
pub struct JournalRuns<'a> {
    runs: &'a [Run],
}

impl<'a> Model for JournalRuns<'a> {
    ghost use Rattle.std.specs.Prelude.{List};
    ghost use Rattle.qpu_machine.specs.declared.journal.Run.{Run};

    ghost Value = { List Run };

    ghost view = { λ given. given.runs.now };
}

impl<'a> Runs for JournalRuns<'a> {
    ghost left = { λ runs. runs };

    fn counts(&self) {
        let _ = self.runs.len();
    }

    fn next(&mut self) -> Option<Run> {
        match self.runs {
            [] => None,
            [first, rest @ ..] => {
                self.runs = rest;
                Some(*first)
            }
        }
    }
}

impl Journal {
    /// Its runs, one after another.
    pub fn iter(&self) -> JournalRuns<'_>
        ensures { result ≡ self.now }
    {
        JournalRuns { runs: self.runs() }
    }
}
