//! A processor that took local steps away from its machine is put back.
ghost use Rattle.std.specs.Prelude.{◌≡◌, ◌≤◌, ◌<◌, ◌+◌, ◌^◌, replicate, false, OnOk, OnErr};
ghost use Rattle.qpu_machine.specs.declared.actor.Actor.TheVariants.{Exec};
ghost use Rattle.qpu_machine.specs.Machine.{with_both, words_of};
ghost use Rattle.qpu_machine.specs.Schedule.{After};
ghost use Rattle.qpu_machine.specs.Serial.{Stretch};
ghost use Rattle.qpu_machine.specs.Local.{IsOwnAfter, IsStretched, is_local_next};
ghost use Rattle.qpu_machine.specs.Journal.{steps_in};
ghost use Rattle.qpu_machine.specs.Bound.{steps_left};
ghost use Rattle.qpu_machine.specs.Gains.{Gained};

use crate::actor::Actor;
use crate::journal::Journal;
use crate::machine::Machine;
use qpu_local::Processor;
use qpu_word::NoMemory;

impl Machine {
    /// Puts back processor q after so many local steps of its own: q was started, and this is what
    /// those steps leave of it. The machine is then the one after that many steps of q, and nothing
    /// else changes. Where no local step is left, they are a whole stretch.
    pub fn put_back(&mut self, q: u32, processor: Processor, steps: u64)
        requires { IsOwnAfter self.old.state q processor steps }
        ensures after { After self.old.state (replicate steps (Exec q)) self.new.state }
        ensures stretch { is_local_next (words_of self.old.state q) self.old.state.limit processor ≡ false → Stretch q self.old.state (replicate steps (Exec q)) self.new.state }
        ensures state { self.new.state ≡ with_both self.old.state q processor self.old.state.shared }
        ensures starts { self.new.starts ≡ self.old.starts }
    {
        let _taken = steps;
        self.processors[q as usize] = Some(processor);
    }

    /// Puts back processor q after a whole stretch of its own, of so many steps, which are its local
    /// words in its turn. The one error is want of memory; the machine is then the one after the steps
    /// that the journal has gained. The counts of the journal and the steps that the machine has left
    /// sum to less than 2^64.
    pub fn put_stretch(
        &mut self,
        q: u32,
        processor: &Processor,
        steps: u64,
        journal: &mut Journal,
    ) -> Result<(), NoMemory>
        requires stretched { IsStretched self.old.state q processor.now steps }
        requires room { steps_in journal.old + steps_left self.old.state < 2 ^ 64 }
        ensures ok { OnOk result (Gained journal.old journal.new (λ s. Stretch q self.old.state s self.new.state)) }
        ensures err { OnErr result (Gained journal.old journal.new (λ s. After self.old.state s self.new.state)) }
        ensures room { steps_in journal.new + steps_left self.new.state ≤ steps_in journal.old + steps_left self.old.state }
        ensures starts { self.new.starts ≡ self.old.starts }
    {
        self.keeps();
        if steps == 0 {
            return Ok(());
        }
        journal.push(Actor::Exec(q), steps)?;
        self.put_back(q, *processor, steps);
        Ok(())
    }
}
