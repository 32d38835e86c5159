//! What a command answers, as a value.
ghost use Rattle.std.specs.Prelude.{◌≡◌};
ghost use Rattle.qpu_tool.specs.Answer.{status_of};

use crate::code::Code;
use crate::counted::Counted;
use crate::ended::{EndedMachine, EndedRun};
use crate::refusal::Refusal;
use crate::status::Status;

/// The answer to the words of a command and its input (this project's own).
#[derive(Debug, Drop)]
pub enum Answer<'a> {
    /// The words of assembly text.
    Words(Code),
    /// The lines of words.
    Lines(Code),
    /// How many words a program has, and what is said of it.
    Counted(Counted),
    /// A run that came to its end: its record, and the report of its machine.
    Ran(EndedRun<'a>),
    /// The report of a machine in which nothing can move.
    Report(EndedMachine),
    /// Why there is no other answer.
    Refused(Refusal),
}

impl Answer<'_> {
    /// The status.
    pub(crate) fn status(&self) -> Status
        ensures { result ≡ status_of self.now }
    {
        match self {
            Answer::Ran(run) => run.status(),
            Answer::Report(machine) => machine.status(),
            Answer::Refused(refusal) => refusal.status(),
            _ => Status::Done,
        }
    }
}
