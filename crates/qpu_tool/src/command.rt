//! The commands that wait for nobody, from the words and the bytes to the answer.
ghost use Rattle.std.specs.Prelude.{map, string_bytes};
ghost use Rattle.qpu_tool.specs.Answers.{CallOutcome};
ghost use Rattle.qpu_tool.specs.Causes.{Causes};

use crate::answer::Answer;
use crate::answering::answer;
use crate::printing::give;
use crate::refusal::Refusal;
use crate::status::Status;
use crate::words::command_of;
use qpu_io::{ReadAllError, Sink, Source, read_all};
use std::alloc::Global;

/// Bytes of the longest input, of every command but `replay`.
pub const MOST_INPUT: u64 = 8_388_608;

/// Bytes of the longest input of `replay`.
pub const MOST_RECORD: u64 = 268_435_456;

/// Carries out the words on the source's bytes.
fn carried_out<S: Source, K: Sink>(
    alloc: Global,
    words: &[String],
    source: &mut S,
    sink: &mut K,
) -> Status
    ensures { CallOutcome (map string_bytes words.now) (S.shown source.old) (S.shown source.new) (K.shown sink.old) (K.shown sink.new) result }
{
    match command_of(words) {
        None => give(&Answer::Refused(Refusal::Usage), sink),
        Some(command) => match read_all(alloc, source, command.limit()) {
            Ok(bytes) => match answer(alloc, command, &bytes) {
                Ok(answer) => give(&answer, sink),
                Err(_) => Status::NoMemory,
            },
            Err(ReadAllError::Source) => give(&Answer::Refused(Refusal::ReadFault), sink),
            Err(ReadAllError::TooLong) => give(&Answer::Refused(Refusal::TooLong), sink),
            Err(ReadAllError::Memory) => Status::NoMemory,
        },
    }
}

/// Carries out a command that waits for nobody, on an input of at most 8,388,608 bytes, of `replay`
/// 268,435,456. `run -w 0` reads a whole job, runs it in the serial order until nothing can move, and
/// writes its record and its report. `replay` reads a record, with its report behind it or without, runs
/// its job in exactly the order of its schedule, and writes the report. `asm` reads a whole assembly text, and writes a line for each of its words: `0x` and
/// sixteen lower-case hexadecimal digits. `dis` reads such lines, and writes the canonical line of each
/// word, or `.word` and its number where the word isn't canonical. `check` assembles a text, and writes
/// how many words it has where no path of them breaks a hazard rule. Where the input is refused, the
/// one line of the refusal that is due is written. After the first write no memory is taken. The exit
/// status is `Status::code` of the answer.
pub fn plain<S: Source, K: Sink>(
    alloc: Global,
    words: &[String],
    source: &mut S,
    sink: &mut K,
) -> Status
    ensures outcome { CallOutcome (map string_bytes words.now) (S.shown source.old) (S.shown source.new) (K.shown sink.old) (K.shown sink.new) result }
    ensures causes { Causes (map string_bytes words.now) (S.shown source.old) (S.shown source.new) (K.shown sink.old) (K.shown sink.new) result }
{
    carried_out(alloc, words, source, sink)
}
