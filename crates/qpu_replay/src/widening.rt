//! Single steps in place of whole transfers.
ghost use Rattle.std.specs.Prelude.{◌≡◌, ◌^◌, ◌<◌, ◌≤◌, ◌∷◌, [], IfErr, IfOk, IfSome, IsNone, List, None, OnOk, Result, length, replicate};
ghost use Rattle.qpu_machine.specs.declared.actor.Actor.{Actor};
ghost use Rattle.qpu_machine.specs.declared.journal.Run.{Run};
ghost use Rattle.qpu_machine.specs.Gains.{Gained};
ghost use Rattle.qpu_machine.specs.Journal.{steps_of};
ghost use Rattle.qpu_machine.specs.Machine.{after_step};
ghost use Rattle.qpu_replay.specs.declared.fault.WidenFault.{WidenFault};
ghost use Rattle.qpu_replay.specs.Widened.{AfterWhole, FailsBy, SaysSame, WholeStep, Widens, WidensTo, rows_still, rows_to_move};
ghost use Rattle.qpu_replay.specs.Widening.{FailsIn, IsSpelled};

use crate::fault::{ReplayFault, WidenFault};
use crate::replaying::take_run;
use qpu_dma::Transfer;
use qpu_machine::{Actor, Journal, Machine, Run, Runs};
use std::alloc::Global;

/// The rows of a transfer that are still to move; 1 where none is pending.
fn rows_to_move(transfer: Option<Transfer>) -> u64
    ensures is { result ≡ rows_to_move transfer }
    ensures some { 1 ≤ result }
{
    match transfer {
        None => 1,
        Some(transfer) => u64::from(transfer.rows() - transfer.moved()),
    }
}

/// How many steps of an actor one step of it stands for, where a transfer is moved whole.
fn rows_still(machine: &Machine, actor: Actor) -> u64
    ensures is { result ≡ rows_still machine.now.state actor }
    ensures some { 1 ≤ result }
{
    match actor {
        Actor::Exec(_) => 1,
        Actor::Load(q) => rows_to_move(machine.shared().load_at(q)),
        Actor::Store(q) => rows_to_move(machine.shared().store_at(q)),
        Actor::Fetch(_, _) => 1,
    }
}

/// Takes the steps that one step of an actor stands for, and tells how many; none where it has no
/// step.
fn take_whole(machine: &mut Machine, actor: Actor) -> Option<u64>
    ensures rows { IfSome result (λ rows. rows ≡ rows_still machine.old.state actor) }
    ensures some { IfSome result (λ rows. 1 ≤ rows) }
    ensures taken { IfSome result (λ rows. WholeStep machine.old.state actor machine.new.state) }
    ensures none { IsNone result → after_step machine.old.state actor ≡ None }
{
    let count = rows_still(machine, actor);
    match take_run(machine, &Run { actor, count }) {
        None => Some(count),
        Some(_) => None,
    }
}

/// Takes the steps that those of a run stand for, in order, up to the first that has none, and adds
/// them to a journal. The run has a number, counted from 1.
fn widen_run(
    machine: &mut Machine,
    run: &Run,
    item: u64,
    wide: &mut Journal,
) -> Result<(), WidenFault>
    requires { IsSpelled wide.old machine.old.state }
    ensures ok { OnOk result (Gained wide.old wide.new (λ t. Widens machine.old.state (replicate run.now.count run.now.actor) t machine.new.state)) }
    ensures err { IfErr result (λ fault. FailsIn fault item machine.old.state run.now) }
{
    for taken in 0..run.count {
        let Some(rows) = take_whole(machine, run.actor) else {
            return Err(WidenFault::Replay(ReplayFault::NotEnabled {
                item,
                step: taken + 1,
            }));
        };
        wide.push(run.actor, rows)?;
    }
    Ok(())
}

/// Takes the steps that those of runs stand for, in order, up to the first that has none, and adds
/// them to a journal.
fn widen_all<R: Runs>(
    machine: &mut Machine,
    runs: &mut R,
    wide: &mut Journal,
) -> Result<(), WidenFault>
    requires spelled { IsSpelled wide.old machine.old.state }
    requires counts { length (R.left runs.old) < 2 ^ 64 }
    ensures ok { OnOk result (Gained wide.old wide.new (λ t. Widens machine.old.state (steps_of (R.left runs.old)) t machine.new.state)) }
    ensures err { IfErr result (λ fault. FailsBy AfterWhole fault machine.old.state (R.left runs.old)) }
{
    let mut item = 0;
    while let Some(run) = runs.next() {
        item += 1;
        widen_run(machine, &run, item, wide)?;
    }
    Ok(())
}

/// The single steps that runs stand for in which each step of a load or store moves its whole
/// transfer: each of these is replaced by as many as it has rows still to move where it stands, and
/// stays as it is where none is pending. The answer is Ok exactly where they are a complete
/// permitted schedule of the machine: each is enabled where it stands, and the machine is final after
/// the last. `NotEnabled` tells the first step of the runs, by its run and its number in there,
/// of which the first single step isn't enabled. `NotFinished` tells that all were taken, and that
/// something can still move. The machine stays as it is: the steps are taken by a copy. Want of
/// memory is free.
pub fn widen<R: Runs + Drop>(
    alloc: Global,
    machine: &Machine,
    runs: R,
) -> Result<Journal, WidenFault>
    ensures answer { WidensTo result machine.now.state (R.left runs) }
    ensures alone { (answer : Result (List Run) WidenFault) → WidensTo answer machine.now.state (R.left runs) → SaysSame answer result }
{
    machine.keeps();
    runs.counts();
    let mut copy = machine.copy(alloc)?;
    let mut runs = runs;
    let mut wide = Journal::new(alloc);
    widen_all(&mut copy, &mut runs, &mut wide)?;
    match copy.ending() {
        Some(_) => Ok(wide),
        None => Err(WidenFault::Replay(ReplayFault::NotFinished)),
    }
}
