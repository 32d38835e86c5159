//! What a machine did, as runs of one actor's steps.
ghost use Rattle.std.specs.Prelude.{◌≡◌, ◌+◌, ◌^◌, ◌<◌, ◌≤◌, [], IsOk, OnOk, OnErr};
ghost use Rattle.qpu_machine.specs.Journal.{IsMerged, pushed, last_count};

use crate::actor::Actor;
use crate::run_list::RunList;
use qpu_word::NoMemory;
use std::alloc::Global;
use std::marker::Model;

/// Steps of one actor, one after another.
#[derive(Clone, Copy, Debug, PartialEq, Eq)]
pub struct Run {
    /// The actor.
    pub actor: Actor,
    /// How many steps, at least 1.
    pub count: u64,
}

/// The steps of a machine, as runs: neighbouring runs are of different actors, and each has at
/// least one step. Contracts see the list of runs.
#[derive(Debug, Drop)]
pub struct Journal {
    pub(crate) list: RunList,
}

impl Model for Journal {
    ghost use Rattle.std.specs.Prelude.{List};
    ghost use Rattle.qpu_machine.specs.declared.journal.Run.{Run};

    ghost Value = { List Run };

    ghost view = { λ journal. journal.list.runs };
}

impl Journal {
    /// A journal of no steps. It takes no memory yet.
    pub fn new(alloc: Global) -> Journal
        ensures { result ≡ [] }
    {
        Journal {
            list: RunList::new(alloc),
        }
    }

    /// The runs, in order.
    pub fn runs(&self) -> &[Run]
        ensures runs { result.now ≡ self.now }
        ensures merged { IsMerged self.now }
    {
        self.list.runs()
    }

    /// Adds more steps of an actor, at least 1. The last run counts on where it is the actor's,
    /// which takes no memory; else there is one more run. The one error is want of memory; then
    /// nothing changes.
    pub fn push(&mut self, actor: Actor, count: u64) -> Result<(), NoMemory>
        requires some { 1 ≤ count }
        requires fits { last_count self.old actor + count < 2 ^ 64 }
        ensures ok { OnOk result (self.new ≡ pushed self.old actor count) }
        ensures counts_on { 0 < last_count self.old actor → IsOk result }
        ensures err { OnErr result (self.new ≡ self.old) }
    {
        self.list.push(actor, count)
    }
}
