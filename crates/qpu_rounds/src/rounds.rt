//! The serial order, round by round.
ghost use Rattle.std.specs.Prelude.{◌≡◌, ◌≤◌, ◌<◌, ◌+◌, ◌^◌, ◌⊎◌, ℕ, None, IfOk, OnOk, OnErr, slice_index_or};
ghost use Rattle.qpu_machine.specs.Schedule.{After};
ghost use Rattle.qpu_machine.specs.Ending.{IsFinal, ending_of};
ghost use Rattle.qpu_machine.specs.AtRest.{IsAtRest, RanOutAtLimit};
ghost use Rattle.qpu_machine.specs.Journal.{steps_in};
ghost use Rattle.qpu_machine.specs.Serial.{Turned, Stretch, Round, SerialSchedule};
ghost use Rattle.qpu_machine.specs.Bound.{steps_left};
ghost use Rattle.qpu_machine.specs.Gains.{Gained, IsRun};
ghost use Rattle.qpu_machine.specs.Opening.{IsRunFromOpening};
ghost use Rattle.qpu_rounds.specs.Away.{IsBackAt};

use crate::away::Away;
use crate::sending::stretch_all;
use qpu_machine::{Ending, Journal, Machine};
use qpu_word::NoMemory;
use std::thread::Threads;

/// The local words of processor q in its turn: those that were run away from the machine are put back,
/// and others run.
fn put_or_run(
    machine: &mut Machine,
    q: u32,
    away: &Option<Away>,
    journal: &mut Journal,
) -> Result<(), NoMemory>
    requires back { IsBackAt machine.old.state q away.now }
    requires room { steps_in journal.old + steps_left machine.old.state < 2 ^ 64 }
    ensures ok { OnOk result (Gained journal.old journal.new (λ s. Stretch q machine.old.state s machine.new.state)) }
    ensures err { OnErr result (Gained journal.old journal.new (λ s. After machine.old.state s machine.new.state)) }
    ensures room { steps_in journal.new + steps_left machine.new.state ≤ steps_in journal.old + steps_left machine.old.state }
    ensures starts { machine.new.starts ≡ machine.old.starts }
{
    match away {
        Some(away) => machine.put_stretch(q, &away.processor, away.steps, journal),
        None => machine.run_local(q, journal),
    }
}

/// What processor q does in a round.
fn turn(
    machine: &mut Machine,
    q: u32,
    away: &Option<Away>,
    journal: &mut Journal,
) -> Result<(), NoMemory>
    requires back { IsBackAt machine.old.state q away.now }
    requires room { steps_in journal.old + steps_left machine.old.state < 2 ^ 64 }
    ensures ok { OnOk result (Gained journal.old journal.new (λ s. Turned q machine.old.state s machine.new.state)) }
    ensures err { OnErr result (Gained journal.old journal.new (λ s. After machine.old.state s machine.new.state)) }
    ensures room { steps_in journal.new + steps_left machine.new.state ≤ steps_in journal.old + steps_left machine.old.state }
    ensures starts { machine.new.starts ≡ machine.old.starts }
{
    put_or_run(machine, q, away, journal)?;
    machine.run_tries(q, journal)
}

/// Each processor in turn, with what was run away from the machine.
fn turns(
    machine: &mut Machine,
    away: &[Option<Away>; 12],
    journal: &mut Journal,
) -> Result<(), NoMemory>
    requires back { (q : ℕ) → q < 12 → IsBackAt machine.old.state q (slice_index_or away.now q None) }
    requires room { steps_in journal.old + steps_left machine.old.state < 2 ^ 64 }
    ensures ok { OnOk result (Gained journal.old journal.new (λ s. Round 0 machine.old.state s machine.new.state)) }
    ensures err { OnErr result (Gained journal.old journal.new (λ s. After machine.old.state s machine.new.state)) }
    ensures room { steps_in journal.new + steps_left machine.new.state ≤ steps_in journal.old + steps_left machine.old.state }
    ensures moves { OnOk result (IsFinal machine.old.state ⊎ (steps_left machine.new.state < steps_left machine.old.state)) }
    ensures starts { machine.new.starts ≡ machine.old.starts }
{
    machine.keeps();
    for q in 0..12u32 {
        turn(machine, q, &away[q as usize], journal)?;
    }
    Ok(())
}

/// One round. Where the machine isn't final it takes a step.
fn round<R: Threads + Sync>(
    rt: &R,
    machine: &mut Machine,
    workers: u32,
    away: &mut [Option<Away>; 12],
    journal: &mut Journal,
) -> Result<(), NoMemory>
    requires room { steps_in journal.old + steps_left machine.old.state < 2 ^ 64 }
    ensures ok { OnOk result (Gained journal.old journal.new (λ s. Round 0 machine.old.state s machine.new.state)) }
    ensures err { OnErr result (Gained journal.old journal.new (λ s. After machine.old.state s machine.new.state)) }
    ensures room { steps_in journal.new + steps_left machine.new.state ≤ steps_in journal.old + steps_left machine.old.state }
    ensures moves { OnOk result (IsFinal machine.old.state ⊎ (steps_left machine.new.state < steps_left machine.old.state)) }
    ensures starts { machine.new.starts ≡ machine.old.starts }
{
    stretch_all(rt, machine, workers, away);
    turns(machine, away, journal)
}

/// Runs in the serial order until nothing can move, with local words run by so many workers at once at
/// most, 1 to 12, and says how the machine has come out. The machine and the steps are those of
/// `run_serial`, for every number of workers. The counts of the journal sum to less than 2^63. No move
/// is then pending, each running processor awaits the mutex or a semaphore, and a processor ran out
/// exactly where it neither ended nor faulted and has executed the limit. The one error is want of
/// memory; the machine is then the one after the steps that the journal has gained.
///
/// Whatever the answer, the steps that the journal has gained are permitted and no more than the
/// machine had left, and the words that they execute go on the paths of their programs and break
/// no rule. Where the machine was one before any step, they have at most the limit of instructions
/// for each processor and 81 steps for each of these in all, and each trace is a path of its
/// program that breaks no rule.
pub fn run_rounds<R: Threads + Sync>(
    rt: &R,
    machine: &mut Machine,
    workers: u32,
    journal: &mut Journal,
) -> Result<Ending, NoMemory>
    requires workers { (1 ≤ workers) × (workers ≤ 12) }
    requires journal { steps_in journal.old < 2 ^ 63 }
    ensures serial { OnOk result (Gained journal.old journal.new (λ s. SerialSchedule machine.old.state s machine.new.state × IsRun machine.old.state s machine.new.state)) }
    ensures stands { OnOk result (IsFinal machine.new.state) }
    ensures rests { OnOk result (IsAtRest machine.new.state) }
    ensures ran_out { OnOk result (RanOutAtLimit machine.new.state) }
    ensures ending { IfOk result (λ ending. ending ≡ ending_of machine.new.state) }
    ensures refused { OnErr result (Gained journal.old journal.new (λ s. IsRun machine.old.state s machine.new.state)) }
    ensures opening { Gained journal.old journal.new (λ s. IsRunFromOpening machine.old.state s) }
    ensures starts { machine.new.starts ≡ machine.old.starts }
{
    machine.keeps();
    let mut away = [None; 12];
    loop {
        if let Some(ending) = machine.ending() {
            return Ok(ending);
        }
        round(rt, machine, workers, &mut away, journal)?;
    }
}
