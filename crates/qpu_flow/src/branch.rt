//! What a branch's fields say of its ways.
ghost use Rattle.std.specs.Prelude.{◌≡◌, ◌<◌};
ghost use Rattle.qpu_flow.specs.Control.{is_always, is_register_branch, plain_target, target_from};
ghost use Rattle.qpu_flow.specs.Steps.{branched};

use crate::control::{Progress, Target};
use qpu_word::Fields;
use qpu_word::code::{BRANCH_ALWAYS, BRANCH_SLOTS, INSTRUCTION_BYTES};

/// Whether a branch's condition is always.
pub(crate) fn is_always(f: &Fields) -> bool
    ensures { result ≡ is_always f.now }
{
    f.cond_br == BRANCH_ALWAYS
}

/// Whether a branch adds a row of file A to its target.
pub(crate) fn is_register(f: &Fields) -> bool
    ensures { result ≡ is_register_branch f.now }
{
    f.reg == 1
}

/// The target of a branch at a place that adds no row, in bytes.
#[tactic(auto, unfolding(crate::specs::Control::plain_target))]
pub(crate) fn plain_target(at: u32, f: &Fields) -> u32
    requires { at < 4096 }
    ensures { result ≡ plain_target at f.now }
{
    let base = if f.rel == 1 {
        INSTRUCTION_BYTES * (at + 1 + BRANCH_SLOTS)
    } else {
        0
    };
    let sum = u64::from(f.immediate) + u64::from(base);
    (sum % (1 << 32)) as u32
}

/// Where a taken branch at a place goes.
fn target_from(at: u32, f: &Fields) -> Target
    requires { at < 4096 }
    ensures { result ≡ target_from at f.now }
{
    if is_register(f) {
        Target::AnyLink
    } else {
        Target::Byte(plain_target(at, f))
    }
}

/// What is in progress after a branch.
pub(crate) fn branched(at: u32, f: &Fields, taken: bool) -> Progress
    requires { at < 4096 }
    ensures { result ≡ branched at f.now taken }
{
    if is_always(f) || taken {
        Progress::To(BRANCH_SLOTS, target_from(at, f))
    } else {
        Progress::Straight
    }
}
