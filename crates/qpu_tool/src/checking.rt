//! The checker's answer to assembly text.
ghost use Rattle.std.specs.Prelude.{◌≢◌, ◌≤◌, IfErr, IfOk, OnOk, length};
ghost use Rattle.qpu_word.specs.Words.{numbers_of};
ghost use Rattle.qpu_expr.specs.declared.limits.TheConstants.{MOST_WORDS};
ghost use Rattle.qpu_asm.specs.Assembly.{AreWords};
ghost use Rattle.qpu_flow.specs.Code.{AllInProfile};
ghost use Rattle.qpu_hazard.specs.Refusal.{NoneRefusable};
ghost use Rattle.qpu_hazard.specs.Faults.{IsCheckFault};
ghost use Rattle.qpu_tool.specs.declared.command.TheConstants.{MOST_INPUT};
ghost use Rattle.qpu_tool.specs.Checking.{CheckAnswer};

use crate::answer::Answer;
use crate::counted::Counted;
use crate::refusing::{hazardous, misspelled};
use qpu_asm::assemble;
use qpu_hazard::{CheckFault, check};
use qpu_word::{NoMemory, Word};
use std::alloc::Global;

/// Judges words over all paths, and keeps nothing of them.
#[tactic(auto, unfolding(qpu_word::specs::Words::numbers_of))]
fn judged(alloc: Global, words: &[Word]) -> Result<(), CheckFault>
    requires { length words.now ≤ MOST_WORDS }
    ensures inside { OnOk result (AllInProfile (numbers_of words.now)) }
    ensures clean { OnOk result (NoneRefusable (numbers_of words.now)) }
    ensures first { IfErr result (IsCheckFault (numbers_of words.now)) }
{
    match check(alloc, words) {
        Ok(_) => Ok(()),
        Err(fault) => Err(fault),
    }
}

/// What the words of a text come to.
fn check_words(alloc: Global, text: &str, words: &[Word]) -> Result<Answer<'static>, NoMemory>
    requires few { length words.now ≤ MOST_WORDS }
    requires are { AreWords text.now words.now }
    ensures { IfOk result (CheckAnswer text.now) }
{
    match judged(alloc, words) {
        Ok(()) => Ok(Answer::Counted(Counted::new("accepted", words.len()))),
        Err(fault) => hazardous(fault),
    }
}

/// Assembles a text, and judges its words.
pub(crate) fn check_text(alloc: Global, text: &str) -> Result<Answer<'static>, NoMemory>
    requires { length text.now ≤ MOST_INPUT }
    ensures { IfOk result (CheckAnswer text.now) }
{
    match assemble(alloc, text) {
        Ok(words) => check_words(alloc, text, &words),
        Err(fault) => misspelled(fault),
    }
}
