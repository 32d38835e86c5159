//! Items of a record's schedule.

ghost use Rattle.std.specs.Prelude.{◌≡◌, ◌≤◌, IfOk, option_map, position};
ghost use Rattle.qpu_record.specs.declared.item.TheConstants.{MOST_COUNT};
ghost use Rattle.qpu_record.specs.Items.{is_space, number_told, first_number, two_numbers, three_numbers, lettered, item_of, is_actor, is_in_range, item_at};

use crate::fault::RecordFault;
use crate::number::number_of;
use qpu_machine::{Actor, Run};

/// The largest number of a processor.
pub(crate) const MOST_PROCESSOR: u32 = 11;

/// The largest number of a TMU unit.
pub(crate) const MOST_UNIT: u32 = 1;

/// The most steps of an item.
pub(crate) const MOST_COUNT: u32 = 1_000_000;

/// The item of a line. It fails where the line is none, or where one of its numbers is out of its
/// range.
#[tactic(auto, unfolding(crate::specs::Items::item_at))]
pub(crate) fn item_at(number: u32, line: &[u8]) -> Result<Run, RecordFault>
    ensures is { result ≡ item_at number line.now }
    ensures some { IfOk result (λ run. 1 ≤ run.count) }
    ensures few { IfOk result (λ run. run.count ≤ MOST_COUNT) }
{
    match item_of(line) {
        None => Err(RecordFault::Line(number)),
        Some(run) => {
            if is_in_range(run) {
                return Ok(run);
            }
            Err(RecordFault::Number(number))
        }
    }
}

fn is_in_range(run: Run) -> bool
    ensures { result ≡ is_in_range run }
{
    is_actor(run.actor) && run.count >= 1 && run.count <= u64::from(MOST_COUNT)
}

fn is_actor(actor: Actor) -> bool
    ensures { result ≡ is_actor actor }
{
    match actor {
        Actor::Exec(q) => q <= MOST_PROCESSOR,
        Actor::Load(q) => q <= MOST_PROCESSOR,
        Actor::Store(q) => q <= MOST_PROCESSOR,
        Actor::Fetch(q, unit) => q <= MOST_PROCESSOR && unit <= MOST_UNIT,
    }
}

/// The item that a line is, whatever the ranges of its numbers. None where it is no item.
#[tactic(auto, unfolding(crate::specs::Items::item_of))]
fn item_of(line: &[u8]) -> Option<Run>
    ensures { result ≡ item_of line.now }
{
    match line {
        [letter, b' ', numbers @ ..] => lettered(*letter, numbers),
        _ => None,
    }
}

/// The item of a letter and what stands behind the space behind it.
#[tactic(auto, unfolding(crate::specs::Items::lettered))]
fn lettered(letter: u8, numbers: &[u8]) -> Option<Run>
    ensures { result ≡ lettered letter numbers.now }
{
    match letter {
        b'q' => {
            let (q, count) = two_numbers(numbers)?;
            Some(run_of(Actor::Exec(q), count))
        }
        b'l' => {
            let (q, count) = two_numbers(numbers)?;
            Some(run_of(Actor::Load(q), count))
        }
        b's' => {
            let (q, count) = two_numbers(numbers)?;
            Some(run_of(Actor::Store(q), count))
        }
        b't' => {
            let (q, unit, count) = three_numbers(numbers)?;
            Some(run_of(Actor::Fetch(q, unit), count))
        }
        _ => None,
    }
}

fn run_of(actor: Actor, count: u32) -> Run
    ensures { result ≡ record { actor = actor; count = count } }
{
    Run {
        actor,
        count: u64::from(count),
    }
}

#[tactic(auto, unfolding(crate::specs::Items::three_numbers))]
fn three_numbers(text: &[u8]) -> Option<(u32, u32, u32)>
    ensures { result ≡ three_numbers text.now }
{
    let (first, rest) = first_number(text)?;
    let (second, third) = two_numbers(rest)?;
    Some((first, second, third))
}

#[tactic(auto, unfolding(crate::specs::Items::two_numbers))]
fn two_numbers(text: &[u8]) -> Option<(u32, u32)>
    ensures { result ≡ two_numbers text.now }
{
    let (first, rest) = first_number(text)?;
    let second = number_of(MOST_COUNT, rest)?;
    Some((first, second))
}

/// The number before the first space, and what stands behind that.
#[tactic(auto, unfolding(crate::specs::Items::first_number))]
fn first_number(text: &[u8]) -> Option<(u32, &[u8])>
    ensures { option_map number_told result ≡ first_number text.now }
{
    match space_in(text) {
        None => None,
        Some(at) => {
            let number = number_of(MOST_COUNT, &text[..at])?;
            Some((number, &text[at + 1..]))
        }
    }
}

fn space_in(text: &[u8]) -> Option<usize>
    ensures { result ≡ position is_space text.now }
{
    text.iter().position(|byte| *byte == b' ')
}
