//! What stands before the items of a record: its version, its job, and the line that follows.

ghost use Rattle.std.specs.Prelude.{◌≡◌, ◌+◌, ◌≤◌, ◌<◌, true, length, take, drop, IfOk, IfSome, option_map};
ghost use Rattle.qpu_record.specs.declared.parts.TheConstants.{MOST_TEXT};
ghost use Rattle.qpu_record.specs.Record.{ends_line};
ghost use Rattle.qpu_record.specs.Heading.{version_of, opening, opened_told, size_line, sized_told, job_part, part_told, schedule_line, heading_of, told, text_told, seen, begins_lf};

use crate::fault::RecordFault;
use crate::number::number_of;
use crate::parts::Version;
use crate::writing::ends_line;
use qpu_text::{first_line, is_lf, line_feeds};

/// The line with which a record's job begins.
const JOB_LINE: u32 = 3;

/// What stands before the items.
#[derive(Clone, Copy, Debug)]
pub(crate) struct Heading<'a> {
    /// The record's version.
    pub(crate) version: Version,
    /// The job.
    pub(crate) job: &'a str,
    /// What stands behind it.
    pub(crate) rest: &'a str,
    /// The number of the line with which that begins, from 1.
    pub(crate) number: u32,
}

/// A job, and what stands behind it.
#[derive(Clone, Copy, Debug)]
struct JobPart<'a> {
    /// The job.
    job: &'a str,
    /// What stands behind it.
    rest: &'a str,
    /// The number of the line with which that begins, from 1.
    number: u32,
}

/// All that stands before the items. Its rest begins with the first of these.
#[tactic(auto, unfolding(crate::specs::Heading::heading_of))]
pub(crate) fn heading_of(text: &str) -> Result<Heading<'_>, RecordFault>
    requires { length text.now ≤ MOST_TEXT }
    ensures is { seen told result ≡ heading_of text.now }
    ensures sizes { IfOk result (λ heading. length heading.job.now + length heading.rest.now ≤ length text.now) }
    ensures lines { IfOk result (λ heading. heading.number + length heading.rest.now ≤ length text.now) }
{
    let (version, text) = opening(text)?;
    let Some((size, text)) = size_line(text) else {
        return Err(RecordFault::Line(JOB_LINE - 1));
    };
    let part = job_part(size, text)?;
    let rest = schedule_line(part.number, part.rest)?;
    Ok(Heading {
        version,
        job: part.job,
        rest,
        number: part.number + 1,
    })
}

/// The version that line 1, `qpurecord 1` or `qpurecord 2`, tells, and what stands behind this line.
#[tactic(auto, unfolding(crate::specs::Heading::opening))]
fn opening(text: &str) -> Result<(Version, &str), RecordFault>
    ensures is { seen opened_told result ≡ opening text.now }
    ensures shorter { IfOk result (λ opened. length opened.1.now + 12 ≤ length text.now) }
{
    let line = first_line(text);
    if !line.front.starts_with(b"qpurecord ") {
        return Err(RecordFault::Line(1));
    }
    let version = version_of(line.front)?;
    if !line.ended {
        return Err(RecordFault::Line(1));
    }
    Ok((version, line.rest))
}

/// The version that line 1 without its line end tells.
fn version_of(line: &[u8]) -> Result<Version, RecordFault>
    ensures { result ≡ version_of line.now }
{
    if line == b"qpurecord 1".as_slice() {
        return Ok(Version::First);
    }
    if line == b"qpurecord 2".as_slice() {
        return Ok(Version::Second);
    }
    Err(RecordFault::Version)
}

/// The size that line 2, `job N`, tells, and what stands behind this line, at least so many bytes.
#[tactic(auto, unfolding(crate::specs::Heading::size_line))]
fn size_line(text: &str) -> Option<(usize, &str)>
    requires { length text.now ≤ MOST_TEXT }
    ensures is { option_map sized_told result ≡ size_line text.now }
    ensures fits { IfSome result (λ sized. sized.0 ≤ length sized.1.now) }
    ensures shorter { IfSome result (λ sized. length sized.1.now < length text.now) }
{
    let line = first_line(text);
    if !line.ended || !line.front.starts_with(b"job ") {
        return None;
    }
    let most = line.rest.len() as u32;
    let size = number_of(most, &line.front[4..])?;
    if size > most {
        return None;
    }
    Some((size as usize, line.rest))
}

/// The job of a size, with the line feed that it lacks at its end.
#[tactic(auto, unfolding(crate::specs::Heading::job_part))]
fn job_part(size: usize, text: &str) -> Result<JobPart<'_>, RecordFault>
    requires fits { size ≤ length text.now }
    requires most { length text.now ≤ MOST_TEXT }
    ensures is { seen part_told result ≡ job_part size text.now }
    ensures sizes { IfOk result (λ part. length part.job.now + length part.rest.now ≤ length text.now) }
    ensures lines { IfOk result (λ part. part.number + length part.rest.now ≤ length text.now + 3) }
{
    let bytes = text.as_bytes();
    let number = JOB_LINE + line_feeds(&bytes[..size]) as u32;
    if ends_line(&bytes[..size]) {
        let (job, rest) = text.split_at(size);
        return Ok(JobPart { job, rest, number });
    }
    if !begins_line_feed(&bytes[size..]) {
        return Err(RecordFault::Line(number));
    }
    let (job, rest) = text.split_at(size);
    Ok(JobPart {
        job,
        rest: behind_line_feed(rest),
        number: number + 1,
    })
}

/// What stands behind a line feed.
fn behind_line_feed(text: &str) -> &str
    requires { begins_lf text.now ≡ true }
    ensures { result.now ≡ drop 1 text.now }
{
    let (_, rest) = text.split_at(1);
    rest
}

fn begins_line_feed(text: &[u8]) -> bool
    ensures { result ≡ begins_lf text.now }
{
    match text {
        [] => false,
        [first, ..] => is_lf(*first),
    }
}

/// What stands behind the line `schedule`.
#[tactic(auto, unfolding(crate::specs::Heading::schedule_line))]
fn schedule_line(number: u32, text: &str) -> Result<&str, RecordFault>
    ensures is { seen text_told result ≡ schedule_line number text.now }
    ensures shorter { IfOk result (λ rest. length rest.now < length text.now) }
{
    let line = first_line(text);
    if line.ended && line.front == b"schedule".as_slice() {
        return Ok(line.rest);
    }
    Err(RecordFault::Line(number))
}
