//! How these rows ask the program: words and bytes in, a status and a text out.
use qpu_io::{MemSink, MemSource, Source};
use qpu_tool::{Status, plain};
use std::alloc::{AllocError, Global};

/// Bytes that every output of these rows fits in.
const ROOM: usize = 16384;

/// The words of the run without workers.
pub const RUN: [&str; 3] = ["run", "-w", "0"];

/// The word of the assembler.
pub const ASM: [&str; 1] = ["asm"];

/// The word of the disassembler.
pub const DIS: [&str; 1] = ["dis"];

/// The word of the checker.
pub const CHECK: [&str; 1] = ["check"];

/// The word of a replay.
pub const REPLAY: [&str; 1] = ["replay"];

/// A job that is run, and what it gives.
#[derive(Clone, Copy)]
pub struct Row {
    /// The job's text, with its last LF.
    pub job: &'static str,
    /// How many bytes it has, in decimal.
    pub size: &'static str,
    /// How the run answers.
    pub status: Status,
    /// What stands in the output after the job's text.
    pub rest: &'static str,
}

/// What a call answered, and what its sink then held.
#[derive(Drop)]
pub struct Answer {
    pub status: Status,
    pub text: Vec<u8>,
}

/// The words as texts that are owned.
fn owned(alloc: Global, words: &[&str]) -> Result<Vec<String>, AllocError> {
    let mut all = Vec::new(alloc);
    for word in words {
        all.push(String::from_str(alloc, word)?)?;
    }
    Ok(all)
}

/// Carries the words out on a source, with writes that fail at these calls.
fn answered_from(
    alloc: Global,
    words: &[&str],
    source: &mut MemSource,
    failing_writes: &[u64],
) -> Result<Answer, AllocError> {
    let mut sink = MemSink::new(alloc, Vec::from_slice(alloc, failing_writes)?);
    if sink.reserve(ROOM).is_err() {
        return Err(AllocError);
    }
    let words = owned(alloc, words)?;
    let status = plain(alloc, &words, source, &mut sink);
    Ok(Answer {
        status,
        text: Vec::from_slice(alloc, sink.bytes())?,
    })
}

/// Carries the words out on the bytes, with reads and writes that fail at these calls.
pub fn answered(
    alloc: Global,
    words: &[&str],
    bytes: &[u8],
    failing_reads: &[u64],
    failing_writes: &[u64],
) -> Result<Answer, AllocError> {
    let bytes = Vec::from_slice(alloc, bytes)?;
    let mut source = MemSource::new(alloc, bytes, Vec::from_slice(alloc, failing_reads)?);
    answered_from(alloc, words, &mut source, failing_writes)
}

/// Carries the words out on a source whose first read fails; none where they made that read, since
/// the next one then doesn't fail.
pub fn answered_unread(alloc: Global, words: &[&str]) -> Result<Option<Answer>, AllocError> {
    let mut source = MemSource::new(alloc, Vec::new(alloc), Vec::from_slice(alloc, &[0])?);
    let answer = answered_from(alloc, words, &mut source, &[])?;
    match source.read(&mut [0; 1]) {
        Ok(_) => Ok(None),
        Err(_) => Ok(Some(answer)),
    }
}

/// The whole output of a row: its job's record up to the schedule, and the rest.
pub fn whole(alloc: Global, row: &Row) -> Result<Vec<u8>, AllocError> {
    let mut text = Vec::from_slice(alloc, b"qpurecord 2\njob ")?;
    text.extend_from_slice(row.size.as_bytes())?;
    text.extend_from_slice(b"\n")?;
    text.extend_from_slice(row.job.as_bytes())?;
    text.extend_from_slice(row.rest.as_bytes())?;
    Ok(text)
}
