//! Whether a processor is worth sending away. No promise rests on what is answered here.
ghost use Rattle.std.specs.Prelude.{◌<◌};

use qpu_hazard::Checked;
use qpu_local::Halt;
use qpu_machine::{Machine, program_at};
use qpu_word::{Program, code};

/// How many words are looked at: a processor is copied in the time of some ten words.
const NEAR: u32 = 64;

/// Whether a shared word stands among the next words from a place on, before any branch.
fn is_shared_near(program: &Checked, place: u32) -> bool {
    for at in place..program.len().min(place.saturating_add(NEAR)) {
        let word = program.decoded(at);
        if !word.local {
            return true;
        }
        if word.fields.sig == code::SIGNAL_BRANCH {
            return false;
        }
    }
    false
}

/// Whether processor q, below 12, is running and may have many local words before its next shared one.
pub(crate) fn may_run_long(machine: &Machine, q: u32) -> bool
    requires { q < 12 }
{
    machine.keeps();
    let Some(processor) = machine.processor(q) else {
        return false;
    };
    if processor.halt() != Halt::Going || processor.executed() >= machine.limit() {
        return false;
    }
    let program = program_at(machine.programs(), machine.program_of(q));
    !is_shared_near(program, processor.place())
}
