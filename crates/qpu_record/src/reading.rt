//! Reading a record.

ghost use Rattle.std.specs.Prelude.{◌≡◌, ◌+◌, ◌≤◌, [], length, IfOk};
ghost use Rattle.qpu_record.specs.declared.parts.TheConstants.{MOST_TEXT};
ghost use Rattle.qpu_record.specs.Heading.{seen};
ghost use Rattle.qpu_record.specs.Reading.{is_end, schedule_of, record_of};
ghost use Rattle.qpu_record.specs.Told.{EndsAs, parts_of, schedule_told};

use crate::fault::RecordFault;
use crate::heading::heading_of;
use crate::item::item_at;
use crate::items::Items;
use crate::parts::{MOST_TEXT, RecordParts};
use qpu_text::first_line;

/// The items of a record, and what stands behind it.
#[derive(Drop)]
pub(crate) struct Found<'a> {
    /// The items, neighbours of one actor put together.
    pub(crate) items: Items<'a>,
    /// What stands behind the record.
    pub(crate) rest: &'a str,
    /// The number of the line with which that begins, from 1.
    pub(crate) rest_line: u32,
}

/// What stands behind a record.
#[derive(Clone, Copy, Debug)]
pub(crate) struct Ended<'a> {
    /// The text.
    pub(crate) rest: &'a str,
    /// The number of the line with which it begins, from 1.
    pub(crate) rest_line: u32,
}

/// What the record at the front of a text of at most `MOST_TEXT` bytes has, as parts of that text, or
/// the fault of the first failing line. It takes no memory.
#[tactic(auto, unfolding(crate::specs::Reading::record_of))]
pub fn read_record(text: &str) -> Result<RecordParts<'_>, RecordFault>
    requires { length text.now ≤ MOST_TEXT }
    ensures answer { seen parts_of result ≡ record_of text.now }
    ensures sizes { IfOk result (λ parts. length parts.job.now + length parts.rest.now ≤ length text.now) }
    ensures lines { IfOk result (λ parts. parts.rest_line + length parts.rest.now ≤ MOST_TEXT + 1) }
{
    let heading = heading_of(text)?;
    let found = read_items(heading.number, heading.rest)?;
    Ok(RecordParts {
        version: heading.version,
        job: heading.job,
        items: found.items,
        rest: found.rest,
        rest_line: found.rest_line,
    })
}

/// The items from a line of this number on, up to the line `endrecord`.
fn read_items(first: u32, text: &str) -> Result<Found<'_>, RecordFault>
    requires { first + length text.now ≤ MOST_TEXT }
    ensures is { seen schedule_told result ≡ schedule_of first [] [] text.now }
    ensures sizes { IfOk result (λ found. length found.rest.now ≤ length text.now) }
    ensures lines { IfOk result (λ found. found.rest_line + length found.rest.now ≤ MOST_TEXT + 1) }
{
    let ended = end_of_items(first, text)?;
    Ok(Found {
        items: Items::of(first, text),
        rest: ended.rest,
        rest_line: ended.rest_line,
    })
}

/// What stands behind the items from a line of this number on, where all of these are items.
fn end_of_items(first: u32, text: &str) -> Result<Ended<'_>, RecordFault>
    requires { first + length text.now ≤ MOST_TEXT }
    ensures is { EndsAs result (schedule_of first [] [] text.now) }
    ensures sizes { IfOk result (λ ended. length ended.rest.now ≤ length text.now) }
    ensures lines { IfOk result (λ ended. ended.rest_line + length ended.rest.now ≤ MOST_TEXT + 1) }
{
    let mut rest = text;
    let mut number = first;
    loop {
        let line = first_line(rest);
        if is_end(line.front) {
            return Ok(Ended {
                rest: line.rest,
                rest_line: number + 1,
            });
        }
        let _ = item_at(number, line.front)?;
        if !line.ended {
            return Err(RecordFault::Line(number));
        }
        rest = line.rest;
        number += 1;
    }
}

pub(crate) fn is_end(line: &[u8]) -> bool
    ensures { result ≡ is_end line.now }
{
    line == b"endrecord".as_slice()
}
