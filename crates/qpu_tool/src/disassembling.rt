//! The answer to lines with words.
ghost use Rattle.std.specs.Prelude.{◌≤◌, IfOk, length};
ghost use Rattle.qpu_tool.specs.declared.command.TheConstants.{MOST_INPUT};
ghost use Rattle.qpu_tool.specs.Disassembling.{DisAnswer};

use crate::answer::Answer;
use crate::code::Code;
use crate::refusing::misspelled;
use qpu_asm::words_of;
use qpu_word::NoMemory;
use std::alloc::Global;

/// The lines of the words of a text, or the first line that is no word.
pub(crate) fn disassemble_text(alloc: Global, text: &str) -> Result<Answer<'static>, NoMemory>
    requires { length text.now ≤ MOST_INPUT }
    ensures { IfOk result (DisAnswer text.now) }
{
    match words_of(alloc, text) {
        Ok(words) => Ok(Answer::Lines(Code::new(words))),
        Err(fault) => misspelled(fault),
    }
}
