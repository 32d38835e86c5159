//! The serial order.
ghost use Rattle.std.specs.Prelude.{◌≡◌, ◌≤◌, ◌<◌, ◌+◌, ◌^◌, ◌⊎◌, replicate, IfOk, OnOk, OnErr};
ghost use Rattle.qpu_machine.specs.declared.actor.Actor.TheVariants.{Exec};
ghost use Rattle.qpu_machine.specs.Schedule.{After};
ghost use Rattle.qpu_machine.specs.Ending.{IsFinal, ending_of};
ghost use Rattle.qpu_machine.specs.AtRest.{IsAtRest, RanOutAtLimit};
ghost use Rattle.qpu_machine.specs.Journal.{steps_in};
ghost use Rattle.qpu_machine.specs.Serial.{Tried, InTurn, Turned, tries_of, Stretch, Round, SerialSchedule};
ghost use Rattle.qpu_machine.specs.Bound.{steps_left};
ghost use Rattle.qpu_machine.specs.Gains.{Gained, IsRun};
ghost use Rattle.qpu_machine.specs.Opening.{IsRunFromOpening};

use crate::actor::Actor;
use crate::conclusion::Ending;
use crate::journal::Journal;
use crate::machine::{Machine, PROCESSORS};
use crate::stepping::program_at;
use crate::stretching::stretch;
use qpu_word::{NoMemory, code};

/// What a processor tries after its local words.
fn tries(q: u32) -> [Actor; 5]
    ensures { result ≡ tries_of q }
{
    [
        Actor::Exec(q),
        Actor::Load(q),
        Actor::Store(q),
        Actor::Fetch(q, 0),
        Actor::Fetch(q, 1),
    ]
}

impl Machine {
    /// Takes the local words of processor q, and gives how many steps these are.
    fn stretch_own(&mut self, q: u32) -> u64
        ensures stretch { Stretch q self.old.state (replicate result (Exec q)) self.new.state }
        ensures starts { self.new.starts ≡ self.old.starts }
    {
        self.keeps();
        if q >= code::PROCESSORS {
            return 0;
        }
        let Some(processor) = &mut self.processors[q as usize] else {
            return 0;
        };
        let program = program_at(&self.programs, self.program_of[q as usize]);
        stretch(processor, program, self.limit)
    }

    /// Takes the local words of processor q: a whole stretch. The one error is want of memory; the
    /// machine is then the one after the steps that the journal has gained. The counts of the journal and
    /// the steps that the machine has left sum to less than 2^64.
    pub fn run_local(&mut self, q: u32, journal: &mut Journal) -> Result<(), NoMemory>
        requires { steps_in journal.old + steps_left self.old.state < 2 ^ 64 }
        ensures ok { OnOk result (Gained journal.old journal.new (λ s. Stretch q self.old.state s self.new.state)) }
        ensures err { OnErr result (Gained journal.old journal.new (λ s. After self.old.state s self.new.state)) }
        ensures room { steps_in journal.new + steps_left self.new.state ≤ steps_in journal.old + steps_left self.old.state }
        ensures starts { self.new.starts ≡ self.old.starts }
    {
        self.keeps();
        journal.list.make_room()?;
        let steps = self.stretch_own(q);
        if steps == 0 {
            return Ok(());
        }
        journal.list.add(Actor::Exec(q), steps);
        Ok(())
    }

    /// Takes one step of an actor, where it has one.
    fn try_step(&mut self, actor: Actor, journal: &mut Journal) -> Result<(), NoMemory>
        requires { steps_in journal.old + steps_left self.old.state < 2 ^ 64 }
        ensures ok { OnOk result (Gained journal.old journal.new (λ s. Tried actor self.old.state s self.new.state)) }
        ensures err { OnErr result (Gained journal.old journal.new (λ s. After self.old.state s self.new.state)) }
        ensures room { steps_in journal.new + steps_left self.new.state ≤ steps_in journal.old + steps_left self.old.state }
        ensures starts { self.new.starts ≡ self.old.starts }
    {
        self.keeps();
        journal.list.make_room()?;
        if !self.step(actor) {
            return Ok(());
        }
        journal.list.add(actor, 1);
        Ok(())
    }

    /// Takes one step of each thing that processor q tries after its local words, where it has one: its
    /// next shared word, a row of its load, one of its store, and a look-up of each of its units. The one
    /// error is want of memory; the machine is then the one after the steps that the journal has gained.
    /// The counts of the journal and the steps that the machine has left sum to less than 2^64.
    pub fn run_tries(&mut self, q: u32, journal: &mut Journal) -> Result<(), NoMemory>
        requires { steps_in journal.old + steps_left self.old.state < 2 ^ 64 }
        ensures ok { OnOk result (Gained journal.old journal.new (λ s. InTurn (tries_of q) self.old.state s self.new.state)) }
        ensures err { OnErr result (Gained journal.old journal.new (λ s. After self.old.state s self.new.state)) }
        ensures room { steps_in journal.new + steps_left self.new.state ≤ steps_in journal.old + steps_left self.old.state }
        ensures starts { self.new.starts ≡ self.old.starts }
    {
        let actors = tries(q);
        for actor in &actors {
            self.try_step(*actor, journal)?;
        }
        Ok(())
    }

    /// What processor q does in a round.
    fn turn(&mut self, q: u32, journal: &mut Journal) -> Result<(), NoMemory>
        requires { steps_in journal.old + steps_left self.old.state < 2 ^ 64 }
        ensures ok { OnOk result (Gained journal.old journal.new (λ s. Turned q self.old.state s self.new.state)) }
        ensures err { OnErr result (Gained journal.old journal.new (λ s. After self.old.state s self.new.state)) }
        ensures room { steps_in journal.new + steps_left self.new.state ≤ steps_in journal.old + steps_left self.old.state }
        ensures starts { self.new.starts ≡ self.old.starts }
    {
        self.run_local(q, journal)?;
        self.run_tries(q, journal)
    }

    /// One round: each processor in turn. Where the machine isn't final it takes a step.
    fn round(&mut self, journal: &mut Journal) -> Result<(), NoMemory>
        requires { steps_in journal.old + steps_left self.old.state < 2 ^ 64 }
        ensures ok { OnOk result (Gained journal.old journal.new (λ s. Round 0 self.old.state s self.new.state)) }
        ensures err { OnErr result (Gained journal.old journal.new (λ s. After self.old.state s self.new.state)) }
        ensures room { steps_in journal.new + steps_left self.new.state ≤ steps_in journal.old + steps_left self.old.state }
        ensures moves { OnOk result (IsFinal self.old.state ⊎ (steps_left self.new.state < steps_left self.old.state)) }
        ensures starts { self.new.starts ≡ self.old.starts }
    {
        self.keeps();
        for q in 0..PROCESSORS as u32 {
            self.turn(q, journal)?;
        }
        Ok(())
    }

    /// Runs in the serial order until nothing can move, and says how the machine has come out. The
    /// counts of the journal sum to less than 2^63. No move is then pending, each running processor
    /// awaits the mutex or a semaphore, and a processor ran out exactly where it neither ended nor
    /// faulted and has executed the limit. The one error is want of memory; the room for a run is
    /// taken before its steps, so the machine is then the one after the steps that the journal has
    /// gained.
    ///
    /// Whatever the answer, the steps that the journal has gained are permitted and no more than the
    /// machine had left, and the words that they execute go on the paths of their programs and break
    /// no rule. Where the machine was one before any step, they have at most the limit of instructions
    /// for each processor and 81 steps for each of these in all, and each trace is a path of its
    /// program that breaks no rule.
    pub fn run_serial(&mut self, journal: &mut Journal) -> Result<Ending, NoMemory>
        requires { steps_in journal.old < 2 ^ 63 }
        ensures serial { OnOk result (Gained journal.old journal.new (λ s. SerialSchedule self.old.state s self.new.state × IsRun self.old.state s self.new.state)) }
        ensures stands { OnOk result (IsFinal self.new.state) }
        ensures rests { OnOk result (IsAtRest self.new.state) }
        ensures ran_out { OnOk result (RanOutAtLimit self.new.state) }
        ensures ending { IfOk result (λ ending. ending ≡ ending_of self.new.state) }
        ensures refused { OnErr result (Gained journal.old journal.new (λ s. IsRun self.old.state s self.new.state)) }
        ensures opening { Gained journal.old journal.new (λ s. IsRunFromOpening self.old.state s) }
        ensures starts { self.new.starts ≡ self.old.starts }
    {
        self.keeps();
        loop {
            if let Some(ending) = self.ending() {
                return Ok(ending);
            }
            self.round(journal)?;
        }
    }
}

#[cfg(test)]
mod tests;
