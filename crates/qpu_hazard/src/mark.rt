//! Marks: where control stands, with the value of a part.
ghost use Rattle.std.specs.Prelude.{◌≡◌, ◌<◌, ◌≤◌, length, IfSome, IsTrue};
ghost use Rattle.qpu_hazard.specs.Parts.{IsFitMark, opening_mark, links_mark};

use qpu_flow::{Flow, Slots};
use qpu_word::code::LOOK_UPS;

/// Where control stands after some word, with the value of a part of the rules.
#[derive(Clone, Copy, Debug, PartialEq, Eq, Hash)]
pub(crate) struct Mark {
    /// Whether control stands before all link points; of the words before only the value is told then.
    pub(crate) links: bool,
    /// The place of the last word; none before any.
    pub(crate) last: Option<u32>,
    /// The slots in progress.
    pub(crate) slots: Option<Slots>,
    /// The value of the part.
    pub(crate) value: u32,
}

/// The mark before any word.
pub(crate) fn opening_mark() -> Mark
    ensures { result ≡ opening_mark }
{
    Mark {
        links: false,
        last: None,
        slots: None,
        value: 0,
    }
}

/// The mark before all link points.
pub(crate) fn links_mark(value: u32) -> Mark
    ensures { result ≡ links_mark value }
{
    Mark {
        links: true,
        last: None,
        slots: None,
        value,
    }
}

/// Whether a place, if there is one, is a word of the program.
fn is_there(flow: &Flow, place: Option<u32>) -> bool
    ensures { IsTrue result → IfSome place (λ a. a < length flow.now) }
{
    match place {
        None => true,
        Some(at) => at < flow.len(),
    }
}

/// Whether slots, if there are any, were begun by a word of the program.
fn are_begun(flow: &Flow, slots: Option<Slots>) -> bool
    ensures { IsTrue result → IfSome slots (λ s. s.place < length flow.now) }
{
    match slots {
        None => true,
        Some(slots) => slots.place < flow.len(),
    }
}

impl Mark {
    /// Whether the places of a mark are words of the program and its value is small.
    pub(crate) fn is_fit(&self, flow: &Flow) -> bool
        ensures { IsTrue result → IsFitMark flow.now self.now }
    {
        self.value <= LOOK_UPS && is_there(flow, self.last) && are_begun(flow, self.slots)
    }
}
