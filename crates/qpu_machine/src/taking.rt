//! Steps of the machine.
ghost use Rattle.std.specs.Prelude.{◌≡◌, ◌<◌, true, None, Some, IfSome, IsNone, is_some, slice_index};
ghost use Rattle.qpu_word.specs.Words.{fields_of};
ghost use Rattle.qpu_shared.specs.Instruction.{first_cause, is_running};
ghost use Rattle.qpu_machine.specs.Awaited.{awaited};
ghost use Rattle.qpu_machine.specs.declared.actor.Actor.TheVariants.{Exec, Load, Store, Fetch};
ghost use Rattle.qpu_machine.specs.Machine.{processor_of, words_of, after_step};
ghost use Rattle.qpu_machine.specs.Took.{Took};

use crate::actor::Actor;
use crate::machine::Machine;
use crate::stepping::{is_running, program_at, take_word};
use qpu_local::Processor;
use qpu_shared::Cause;
use qpu_word::code;

impl Machine {
    /// Processor q, where it is running: it goes on, and has executed less than the limit.
    #[tactic(auto, unfolding(crate::specs::Machine::after_step, qpu_shared::specs::Instruction::instruction))]
    fn running(&self, q: u32) -> Option<&Processor>
        ensures there { IfSome result (λ p. processor_of self.now.state q ≡ Some p.now) }
        ensures runs { IfSome result (λ p. is_running self.now.state.limit p.now ≡ true) }
        ensures low { IfSome result (λ p. q < 12) }
        ensures none { IsNone result → after_step self.now.state (Exec q) ≡ None }
        ensures nothing { IsNone result → awaited self.now.state q ≡ None }
    {
        let processor = match self.processors.get(q as usize) {
            Some(Some(processor)) => processor,
            _ => return None,
        };
        if !is_running(processor, self.limit) {
            return None;
        }
        Some(processor)
    }

    /// One instruction of processor q, where it has one.
    fn step_exec(&mut self, q: u32) -> bool
        ensures { Took result (after_step self.old.state (Exec q)) self.old self.new }
    {
        self.keeps();
        if q >= code::PROCESSORS {
            return false;
        }
        let Some(processor) = &mut self.processors[q as usize] else {
            return false;
        };
        if !is_running(processor, self.limit) {
            return false;
        }
        let program = program_at(&self.programs, self.program_of[q as usize]);
        take_word(processor, program, &mut self.shared, q)
    }

    /// The move of the next row of processor q's pending load, where there is one.
    #[tactic(auto, unfolding(crate::specs::Machine::after_step))]
    fn step_load(&mut self, q: u32) -> bool
        ensures { Took result (after_step self.old.state (Load q)) self.old self.new }
    {
        self.shared.move_load(q)
    }

    /// The move of the next row of processor q's pending store, where there is one.
    #[tactic(auto, unfolding(crate::specs::Machine::after_step))]
    fn step_store(&mut self, q: u32) -> bool
        ensures { Took result (after_step self.old.state (Store q)) self.old self.new }
    {
        self.shared.move_store(q)
    }

    /// A look-up move of TMU unit u of processor q, where there is one.
    #[tactic(auto, unfolding(crate::specs::Machine::after_step))]
    fn step_fetch(&mut self, q: u32, u: u32) -> bool
        ensures { Took result (after_step self.old.state (Fetch q u)) self.old self.new }
    {
        self.shared.fetch(q, u)
    }

    /// Takes one step of an actor. False exactly where it has none; then nothing changes.
    pub fn step(&mut self, actor: Actor) -> bool
        ensures { Took result (after_step self.old.state actor) self.old self.new }
    {
        match actor {
            Actor::Exec(q) => self.step_exec(q),
            Actor::Load(q) => self.step_load(q),
            Actor::Store(q) => self.step_store(q),
            Actor::Fetch(q, u) => self.step_fetch(q, u),
        }
    }

    /// Why processor q, which is running, awaits at its next word: the first cause that holds.
    fn cause_at(&self, q: u32, processor: &Processor) -> Option<Cause>
        requires low { q < 12 }
        requires there { processor_of self.now.state q ≡ Some processor.now }
        requires runs { is_running self.now.state.limit processor.now ≡ true }
        ensures cause { result ≡ first_cause (fields_of (slice_index (words_of self.now.state q) processor.now.place)) q self.now.state.shared }
        ensures number { processor.now.q ≡ q }
    {
        let program = program_at(&self.programs, self.program_of[q as usize]);
        let _words = program.words();
        let word = program.decoded(processor.place());
        self.shared.first_cause(&word.fields, q)
    }

    /// Why processor q awaits at its next word: the first cause that holds. None exactly where it
    /// wasn't started, isn't running, or its word has a step.
    pub fn awaits(&self, q: u32) -> Option<Cause>
        ensures { result ≡ awaited self.now.state q }
    {
        let Some(processor) = self.running(q) else {
            return None;
        };
        self.cause_at(q, processor)
    }

    /// Whether processor q has an instruction to take: it is running, and its word doesn't await.
    fn has_instruction(&self, q: u32) -> bool
        ensures { result ≡ is_some (after_step self.now.state (Exec q)) }
    {
        let Some(processor) = self.running(q) else {
            return false;
        };
        self.cause_at(q, processor).is_none()
    }

    /// Whether an actor has a step.
    #[tactic(auto, unfolding(crate::specs::Machine::after_step))]
    pub fn enabled(&self, actor: Actor) -> bool
        ensures { result ≡ is_some (after_step self.now.state actor) }
    {
        match actor {
            Actor::Exec(q) => self.has_instruction(q),
            Actor::Load(q) => self.shared.load_pending(q),
            Actor::Store(q) => self.shared.store_pending(q),
            Actor::Fetch(q, u) => self.shared.fetch_pending(q, u),
        }
    }
}
