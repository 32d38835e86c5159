//! Local steps of one processor away from its machine.
ghost use Rattle.std.specs.Prelude.{◌≡◌, ◌≤◌, false};
ghost use Rattle.qpu_machine.specs.Kept.{IsKeptAlone};
ghost use Rattle.qpu_machine.specs.Local.{LocalSteps, TookLocal, is_local_next};

use crate::stepping::{do_local, is_running};
use qpu_hazard::Checked;
use qpu_local::Processor;
use qpu_word::Program;

/// Does the local word at the place of a processor, where it has a local step under a limit. Else
/// nothing changes.
fn step_alone(processor: &mut Processor, program: &Checked, limit: u32) -> bool
    requires limit { limit ≤ 1000000 }
    requires kept { IsKeptAlone program.now processor.old }
    ensures { TookLocal result program.now limit processor.old processor.new }
{
    if !is_running(processor, limit) {
        return false;
    }
    let _words = program.words();
    let word = program.decoded(processor.place());
    if !word.local {
        return false;
    }
    do_local(processor, program, word);
    true
}

/// Runs a processor's local words until its next word is shared or it no longer runs: it has ended,
/// faulted, or executed the limit. Gives the number of steps; a faulting one counts. The limit is
/// at most 1,000,000, and the processor, where it goes on, stands on a path of the program.
pub fn stretch(processor: &mut Processor, program: &Checked, limit: u32) -> u64
    requires limit { limit ≤ 1000000 }
    requires kept { IsKeptAlone program.now processor.old }
    ensures steps { LocalSteps program.now limit processor.old result processor.new }
    ensures stops { is_local_next program.now limit processor.new ≡ false }
    ensures few { result ≤ limit }
{
    let _words = program.words();
    for steps in 0..limit as u64 {
        if !step_alone(processor, program, limit) {
            return steps;
        }
    }
    limit as u64
}
