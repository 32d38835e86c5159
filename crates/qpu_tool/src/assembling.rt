//! The answer to assembly text.
ghost use Rattle.std.specs.Prelude.{◌≤◌, IfOk, length};
ghost use Rattle.qpu_tool.specs.declared.command.TheConstants.{MOST_INPUT};
ghost use Rattle.qpu_tool.specs.Assembling.{AsmAnswer};

use crate::answer::Answer;
use crate::code::Code;
use crate::refusing::misspelled;
use qpu_asm::assemble;
use qpu_word::NoMemory;
use std::alloc::Global;

/// The words of a text, or its first fault.
pub(crate) fn assemble_text(alloc: Global, text: &str) -> Result<Answer<'static>, NoMemory>
    requires { length text.now ≤ MOST_INPUT }
    ensures { IfOk result (AsmAnswer text.now) }
{
    match assemble(alloc, text) {
        Ok(words) => Ok(Answer::Words(Code::new(words))),
        Err(fault) => misspelled(fault),
    }
}
