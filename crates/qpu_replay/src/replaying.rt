//! Taking the steps that runs spell.
ghost use Rattle.std.specs.Prelude.{◌≡◌, ◌^◌, ◌<◌, IfErr, IfSome, IsNone, OnOk, Result, length, replicate};
ghost use Rattle.qpu_machine.specs.declared.conclusion.Ending.{Ending};
ghost use Rattle.qpu_machine.specs.AtRest.{IsAtRest, RanOutAtLimit};
ghost use Rattle.qpu_machine.specs.Gains.{IsRun};
ghost use Rattle.qpu_machine.specs.Journal.{steps_of};
ghost use Rattle.qpu_machine.specs.Machine.{MachineState};
ghost use Rattle.qpu_machine.specs.Opening.{IsRunFromOpening};
ghost use Rattle.qpu_machine.specs.Schedule.{After};
ghost use Rattle.qpu_replay.specs.declared.fault.ReplayFault.{ReplayFault};
ghost use Rattle.qpu_replay.specs.Replay.{IsFault, Replays, StopsIn, steps_taken};

use crate::fault::ReplayFault;
use qpu_machine::{Ending, Machine, Run, Runs};

/// Takes the steps of a run, in order, up to the first that isn't enabled, and gives that one's
/// number, counted from 1; none where all were taken.
pub(crate) fn take_run(machine: &mut Machine, run: &Run) -> Option<u64>
    ensures all { IsNone result → After machine.old.state (replicate run.now.count run.now.actor) machine.new.state }
    ensures stops { IfSome result (λ step. StopsIn After step run.now machine.old.state machine.new.state) }
    ensures starts { machine.new.starts ≡ machine.old.starts }
{
    for taken in 0..run.count {
        if !machine.step(run.actor) {
            return Some(taken + 1);
        }
    }
    None
}

/// Takes the steps of runs, in order, up to the first that isn't enabled.
fn take_all<R: Runs>(machine: &mut Machine, runs: &mut R) -> Result<(), ReplayFault>
    requires { length (R.left runs.old) < 2 ^ 64 }
    ensures ok { OnOk result (After machine.old.state (steps_of (R.left runs.old)) machine.new.state) }
    ensures err { IfErr result (λ fault. IsFault After fault machine.old.state (R.left runs.old) machine.new.state) }
    ensures starts { machine.new.starts ≡ machine.old.starts }
{
    let mut item = 0;
    while let Some(run) = runs.next() {
        item += 1;
        if let Some(step) = take_run(machine, &run) {
            return Err(ReplayFault::NotEnabled { item, step });
        }
    }
    Ok(())
}

/// Takes the steps that runs spell, and says how the machine has come out. The answer is Ok
/// exactly where they are a complete permitted schedule: each is enabled where it stands, and the
/// machine is final after the last. `NotEnabled` tells the first step that isn't enabled; the machine
/// is then the one before that step. `NotFinished` tells that all were taken and that something can
/// still move; the machine is then the one after the last step. It takes no memory.
///
/// Whatever the answer, the steps that were taken are no more than the machine had left, and the words
/// that they execute go on the paths of their programs and break no rule. Where the machine was one
/// before any step, they have at most the limit of instructions for each processor and 81 steps for
/// each of these in all, and each trace is a path of its program that breaks no rule. Where the answer
/// is Ok no move is pending, each running processor awaits the mutex or a semaphore, and a processor
/// ran out exactly where it neither ended nor faulted and has executed the limit.
pub fn replay<R: Runs + Drop>(machine: &mut Machine, runs: R) -> Result<Ending, ReplayFault>
    ensures answer { Replays result machine.old.state (R.left runs) machine.new.state }
    ensures alone { (answer : Result Ending ReplayFault) (m : MachineState) → Replays answer machine.old.state (R.left runs) m → (answer ≡ result) × (m ≡ machine.new.state) }
    ensures run { IsRun machine.old.state (steps_taken result (R.left runs)) machine.new.state }
    ensures opening { IsRunFromOpening machine.old.state (steps_taken result (R.left runs)) }
    ensures rests { OnOk result (IsAtRest machine.new.state) }
    ensures ran_out { OnOk result (RanOutAtLimit machine.new.state) }
    ensures starts { machine.new.starts ≡ machine.old.starts }
{
    machine.keeps();
    runs.counts();
    let mut runs = runs;
    take_all(machine, &mut runs)?;
    match machine.ending() {
        Some(ending) => Ok(ending),
        None => Err(ReplayFault::NotFinished),
    }
}
