//! The numbers that words write.

ghost use Rattle.std.specs.Prelude.{◌≡◌, ◌++◌, ◌∷◌, [], OnOk, IfOk, option_map};
ghost use Rattle.qpu_job.specs.Words.{number_of, line_numbers, texts_of};

use qpu_text::{is_number, number_within};
use qpu_word::NoMemory;
use std::alloc::Global;

/// The largest number of a job.
const MOST_NUMBER: u64 = u32::MAX as u64;

/// The number that a word writes: decimal digits, or `0x` and hexadecimal digits. None where the
/// word writes none, or one of 2^32 or more.
#[tactic(auto, unfolding(crate::specs::Words::number_of))]
pub(crate) fn number_of(word: &[u8]) -> Option<u32>
    ensures { result ≡ number_of word.now }
{
    if !is_number(word) {
        return None;
    }
    let value = number_within(MOST_NUMBER, word)?;
    Some(value as u32)
}

/// The numbers that words write; none where a word writes none.
pub(crate) fn line_numbers(alloc: Global, words: &[&[u8]]) -> Result<Option<Vec<u32>>, NoMemory>
    ensures { IfOk result (λ numbers. option_map (λ numbers. numbers.items) numbers ≡ line_numbers (texts_of words.now)) }
{
    let mut numbers = Vec::new(alloc);
    for word in words {
        match number_of(word) {
            None => return Ok(None),
            Some(number) => put_number(&mut numbers, number)?,
        }
    }
    Ok(Some(numbers))
}

fn put_number(numbers: &mut Vec<u32>, number: u32) -> Result<(), NoMemory>
    ensures { OnOk result (numbers.new.items ≡ numbers.old.items ++ number ∷ []) }
{
    match numbers.push(number) {
        Ok(()) => Ok(()),
        Err(_) => Err(NoMemory),
    }
}
