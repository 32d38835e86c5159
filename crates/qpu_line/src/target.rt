//! Targets of writes: an address, with its file where that matters.
ghost use Rattle.std.specs.Prelude.{◌≡◌, ◌==◌};
ghost use Rattle.qpu_word.specs.Canonical.{file_matters};
ghost use Rattle.qpu_line.specs.Targets.{target_at_address, address_of, in_file_a, in_file_b, is_row_a, exchange_of};

use qpu_word::code::ROWS;
use qpu_word::{Place, file_matters};

/// The target of a write address of file A or B.
#[tactic(auto, unfolding(crate::specs::Targets::target_at_address))]
pub(crate) fn target_of(in_b: bool, address: u32) -> Place
    ensures { result ≡ target_at_address in_b address }
{
    if file_matters(address) {
        if in_b {
            Place::FileB(address)
        } else {
            Place::FileA(address)
        }
    } else {
        Place::Both(address)
    }
}

/// The write address of a target.
pub fn address_of(to: Place) -> u32
    ensures { result ≡ address_of to }
{
    match to {
        Place::Both(address) | Place::FileA(address) | Place::FileB(address) => address,
    }
}

/// Whether a target is a row of file A.
pub fn is_row_a(to: Place) -> bool
    ensures { result ≡ is_row_a to }
{
    match to {
        Place::FileA(address) => address < ROWS,
        Place::Both(_) | Place::FileB(_) => false,
    }
}

/// 1 where the units' files are exchanged, by the targets of the add and the mul unit.
pub(crate) fn exchange_of(add: Place, mul: Place) -> u32
    ensures { result ≡ exchange_of add mul }
{
    match (add, mul) {
        (Place::FileB(_), _) | (_, Place::FileA(_)) => 1,
        _ => 0,
    }
}
