//! The writing of answers, the one place in which a sink is written to.
ghost use Rattle.std.specs.Prelude.{◌≡◌};
ghost use Rattle.qpu_io.specs.Output.{Prints};
ghost use Rattle.qpu_tool.specs.Answer.{text_of, IsGiven};

use crate::answer::Answer;
use crate::status::Status;
use qpu_io::{Sink, SinkFailed};

/// Writes the text of an answer. The one error is the sink's: then a front of the text was written. It
/// takes no memory.
pub(crate) fn print<K: Sink>(answer: &Answer<'_>, sink: &mut K) -> Result<(), SinkFailed>
    ensures { Prints (K.shown sink.old) (K.shown sink.new) (text_of answer.now) result }
{
    match answer {
        Answer::Words(words) => words.put_words(sink),
        Answer::Lines(words) => words.put_lines(sink),
        Answer::Counted(count) => count.put(sink),
        Answer::Ran(run) => run.put(sink),
        Answer::Report(machine) => machine.put(sink),
        Answer::Refused(refusal) => refusal.put(sink),
    }
}

/// Gives an answer: writes its text, and says its status.
pub(crate) fn give<K: Sink>(answer: &Answer<'_>, sink: &mut K) -> Status
    ensures { IsGiven answer.now (K.shown sink.old) (K.shown sink.new) result }
{
    match print(answer, sink) {
        Ok(()) => answer.status(),
        Err(_) => Status::WriteFault,
    }
}
