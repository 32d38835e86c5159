//! The answer to the text of a job.
ghost use Rattle.std.specs.Prelude.{◌≤◌, IfOk, length};
ghost use Rattle.qpu_tool.specs.declared.command.TheConstants.{MOST_INPUT};
ghost use Rattle.qpu_tool.specs.Opening.{OpensJob};
ghost use Rattle.qpu_tool.specs.Running.{RunAnswer};

use crate::answer::Answer;
use crate::ended::{EndedMachine, EndedRun};
use crate::opening::opened;
use qpu_machine::{Journal, Machine};
use qpu_word::NoMemory;
use std::alloc::Global;

/// Runs the machine of a job.
fn run(alloc: Global, text: &str, machine: Machine) -> Result<Answer<'_>, NoMemory>
    requires { OpensJob text.now machine.state }
    ensures { IfOk result (RunAnswer text.now) }
{
    let mut machine = machine;
    let mut journal = Journal::new(alloc);
    match machine.run_serial(&mut journal) {
        Ok(ending) => Ok(Answer::Ran(EndedRun::new(
            text,
            journal,
            EndedMachine::new(machine, ending),
        ))),
        Err(_) => Err(NoMemory),
    }
}

/// Makes the machine of a job, and runs it.
pub(crate) fn run_text(alloc: Global, text: &str) -> Result<Answer<'_>, NoMemory>
    requires { length text.now ≤ MOST_INPUT }
    ensures { IfOk result (RunAnswer text.now) }
{
    match opened(alloc, text)? {
        Ok(machine) => run(alloc, text, machine),
        Err(refusal) => Ok(Answer::Refused(refusal)),
    }
}
