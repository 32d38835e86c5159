//! From a command and its input to its answer.
ghost use Rattle.std.specs.Prelude.{◌≤◌, IfOk, length};
ghost use Rattle.qpu_tool.specs.Commands.{limit_of};
ghost use Rattle.qpu_tool.specs.Answers.{AnswerTo};

use crate::answer::Answer;
use crate::ascii::{first_high, text_of};
use crate::refusal::Refusal;
use crate::words::Command;
use qpu_word::NoMemory;
use std::alloc::Global;

/// The answer of a command to a whole input. It is judged, and nothing of it is written yet.
pub(crate) fn answer(alloc: Global, command: Command, bytes: &[u8]) -> Result<Answer<'_>, NoMemory>
    requires { length bytes.now ≤ limit_of command }
    ensures { IfOk result (AnswerTo command bytes.now) }
{
    match first_high(bytes) {
        Some(at) => Ok(Answer::Refused(Refusal::NotAscii(at))),
        None => command.answer(alloc, text_of(bytes)),
    }
}
