//! How a machine in which nothing can move has come out.
ghost use Rattle.std.specs.Prelude.{◌≡◌, true, IfSome, IfNone, OnSome};
ghost use Rattle.std.specs.List.{list_any};
ghost use Rattle.std.specs.Bool.{OnTrue, OnFalse};
ghost use Rattle.qpu_machine.specs.declared.actor.Actor.{Actor};
ghost use Rattle.qpu_machine.specs.Machine.{is_enabled};
ghost use Rattle.qpu_machine.specs.Still.{has_step};
ghost use Rattle.qpu_machine.specs.Ending.{IsFinal, has_faulted, runs, has_run_out, ending_of};

use crate::actor::Actor;
use crate::conclusion::Ending;
use crate::machine::Machine;
use crate::stepping::is_running;
use qpu_local::{Halt, Processor};

/// Whether a processor was started and faulted.
fn has_faulted(processor: &Option<Processor>) -> bool
    ensures { result ≡ has_faulted processor.now }
{
    match processor {
        Some(processor) => matches!(processor.halt(), Halt::Faulted(_, _)),
        None => false,
    }
}

/// Whether a processor was started and is running: it goes on, and has executed less than the
/// limit.
fn runs(limit: u32, processor: &Option<Processor>) -> bool
    ensures { result ≡ runs limit processor.now }
{
    match processor {
        Some(processor) => is_running(processor, limit),
        None => false,
    }
}

/// Whether a processor was started and ran out: it goes on, and has executed the limit.
fn has_run_out(limit: u32, processor: &Option<Processor>) -> bool
    ensures { result ≡ has_run_out limit processor.now }
{
    match processor {
        Some(processor) => processor.halt() == Halt::Going && processor.executed() >= limit,
        None => false,
    }
}

impl Machine {
    /// Whether an actor of processor q has a step.
    #[tactic(auto, unfolding(crate::specs::Still::has_step))]
    fn has_step(&self, q: u32) -> bool
        ensures { result ≡ has_step self.now.state q }
    {
        self.enabled(Actor::Exec(q))
            || self.enabled(Actor::Load(q))
            || self.enabled(Actor::Store(q))
            || self.enabled(Actor::Fetch(q, 0))
            || self.enabled(Actor::Fetch(q, 1))
    }

    /// Whether an actor of some processor has a step. Where none has, the machine is final.
    fn has_any_step(&self) -> bool
        ensures moves { OnTrue result ((actor : Actor) × (is_enabled self.now.state actor ≡ true)) }
        ensures still { OnFalse result (IsFinal self.now.state) }
    {
        let processors = &self.processors;
        for q in 0..processors.len() as u32 {
            if self.has_step(q) {
                return true;
            }
        }
        false
    }

    /// Whether some processor faulted.
    fn has_fault(&self) -> bool
        ensures { result ≡ list_any has_faulted self.now.state.processors }
    {
        self.processors.iter().any(|p| has_faulted(p))
    }

    /// Whether some processor is running.
    fn has_running(&self) -> bool
        ensures { result ≡ list_any (runs self.now.state.limit) self.now.state.processors }
    {
        let limit = self.limit;
        self.processors.iter().any(|p| runs(limit, p))
    }

    /// Whether some processor ran out.
    fn some_ran_out(&self) -> bool
        ensures { result ≡ list_any (has_run_out self.now.state.limit) self.now.state.processors }
    {
        let limit = self.limit;
        self.processors.iter().any(|p| has_run_out(limit, p))
    }

    /// The ending of a final machine.
    #[tactic(auto, unfolding(crate::specs::Ending::ending_of))]
    fn final_ending(&self) -> Ending
        ensures { result ≡ ending_of self.now.state }
    {
        if self.has_fault() {
            return Ending::Faulted;
        }
        if self.has_running() {
            return Ending::Stuck;
        }
        if self.some_ran_out() {
            return Ending::RanOut;
        }
        Ending::Done
    }

    /// How the machine has come out; none exactly where some actor has a step.
    pub fn ending(&self) -> Option<Ending>
        ensures still { OnSome result (IsFinal self.now.state) }
        ensures ending { IfSome result (λ ending. ending ≡ ending_of self.now.state) }
        ensures moves { IfNone result ((actor : Actor) × (is_enabled self.now.state actor ≡ true)) }
    {
        if self.has_any_step() {
            return None;
        }
        Some(self.final_ending())
    }
}
