//! The items of a record, one after another.

ghost use Rattle.std.specs.Prelude.{◌≡◌, ◌^◌, ◌+◌, ◌<◌, ◌∷◌, [], IfSome, IsNone, None, Some};
ghost use Rattle.qpu_record.specs.Left.{HasItems, IsApart, above, runs_left, with_item};

use crate::item::item_at;
use crate::reading::is_end;
use qpu_machine::{Run, Runs};
use qpu_text::first_line;
use std::marker::Model;

/// The items of a record, neighbours of one actor put together. They are read when they are asked
/// for, so they take no memory. Contracts see the runs that are left.
#[derive(Drop)]
pub struct Items<'a> {
    // The run to which the next items may belong.
    begun: Option<Run>,
    // What stands behind that, and the number of the line with which it begins.
    text: &'a str,
    number: u32,
}

impl<'a> Model for Items<'a> {
    ghost use Rattle.std.specs.Prelude.{List};
    ghost use Rattle.qpu_machine.specs.declared.journal.Run.{Run};
    ghost use Rattle.qpu_record.specs.Left.{HasItems, runs_left};

    ghost Value = { List Run };

    ghost view = { λ items. runs_left items.number items.begun items.text.now };

    ghost invariant = { λ items. HasItems items.number items.begun items.text.now };
}

impl<'a> Items<'a> {
    /// The items from a line of this number on.
    pub(crate) fn of(number: u32, text: &'a str) -> Items<'a>
        requires { HasItems number None text.now }
        ensures { result ≡ runs_left number None text.now }
    {
        Items {
            begun: None,
            text,
            number,
        }
    }

    /// The same items again, from where these stand.
    pub fn again(&self) -> Items<'a>
        ensures { result ≡ self.now }
    {
        Items {
            begun: self.begun,
            text: self.text,
            number: self.number,
        }
    }
}

/// The run that is begun together with an item; none where the item begins another run.
fn joined(begun: Option<Run>, item: Run) -> Option<Run>
    requires { IfSome begun (λ run. run.count + item.count < 2 ^ 64) }
    ensures some { IfSome result (λ run. with_item begun item ≡ run ∷ []) }
    ensures none { IsNone result → IsApart begun item }
{
    let Some(run) = begun else {
        return Some(item);
    };
    if run.actor != item.actor {
        return None;
    }
    Some(Run {
        actor: run.actor,
        count: run.count + item.count,
    })
}

impl<'a> Runs for Items<'a> {
    ghost left = { λ runs. runs };

    fn counts(&self) {
        let _ = self.text.len();
    }

    fn next(&mut self) -> Option<Run> {
        loop {
            let line = first_line(self.text);
            if is_end(line.front) {
                let given = self.begun;
                self.begun = None;
                return given;
            }
            let Ok(item) = item_at(self.number, line.front) else {
                unreachable!()
            };
            self.text = line.rest;
            self.number += 1;
            let Some(run) = joined(self.begun, item) else {
                let given = self.begun;
                self.begun = Some(item);
                return given;
            };
            self.begun = Some(run);
        }
    }
}
