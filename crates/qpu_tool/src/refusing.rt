//! The answers that tell a fault; want of memory is none.
ghost use Rattle.std.specs.Prelude.{◌≡◌, ◌≢◌, IfOk, None};
ghost use Rattle.qpu_token.specs.declared.fault.AsmKind.TheVariants as kind;
ghost use Rattle.qpu_tool.specs.declared.answer.Answer.TheVariants.{Refused};
ghost use Rattle.qpu_tool.specs.declared.refusal.Refusal.TheVariants.{Asm, Hazard};

use crate::answer::Answer;
use crate::refusal::Refusal;
use qpu_hazard::CheckFault;
use qpu_token::{AsmFault, AsmKind};
use qpu_word::NoMemory;

/// Of a text.
pub(crate) fn misspelled(fault: AsmFault) -> Result<Answer<'static>, NoMemory>
    ensures { IfOk result (λ answer. (answer ≡ Refused (Asm fault)) × (fault.kind ≢ kind.Memory)) }
{
    match fault.kind {
        AsmKind::Memory => Err(NoMemory),
        _ => Ok(Answer::Refused(Refusal::Asm(fault))),
    }
}

/// Of the words of a program without a name.
pub(crate) fn hazardous(fault: CheckFault) -> Result<Answer<'static>, NoMemory>
    ensures { IfOk result (λ answer. (answer ≡ Refused (Hazard None fault)) × (fault ≢ CheckFault.Memory)) }
{
    match fault {
        CheckFault::Memory => Err(NoMemory),
        _ => Ok(Answer::Refused(Refusal::Hazard(None, fault))),
    }
}
