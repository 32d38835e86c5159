//! Numbers of a record.

ghost use Rattle.std.specs.Prelude.{◌≡◌, ◌+◌, ◌≤◌, IfSome};
ghost use Rattle.qpu_record.specs.declared.parts.TheConstants.{MOST_TEXT};
ghost use Rattle.qpu_record.specs.Numbers.{is_number, number_of};

use crate::parts::MOST_TEXT;
use qpu_text::{DECIMAL, all_digits, value_within};

/// The number that decimal digits without leading zeros write. The one next to `most` stands for all
/// that are larger. None where these are no such digits.
#[tactic(auto, unfolding(crate::specs::Numbers::number_of))]
pub(crate) fn number_of(most: u32, digits: &[u8]) -> Option<u32>
    requires { most ≤ MOST_TEXT }
    ensures is { result ≡ number_of most digits.now }
    ensures most { IfSome result (λ number. number ≤ most + 1) }
{
    if !is_number(digits) {
        return None;
    }
    match value_within(u64::from(most), DECIMAL, digits) {
        None => Some(most + 1),
        Some(value) => Some(value as u32),
    }
}

fn is_number(digits: &[u8]) -> bool
    ensures { result ≡ is_number digits.now }
{
    match digits {
        [] => false,
        [first, others @ ..] => {
            (*first == b'0' && others.is_empty())
                || (matches!(*first, b'1'..=b'9') && all_digits(others))
        }
    }
}
