//! A machine before any step, what it was started with, and an equal one.
ghost use Rattle.std.specs.Prelude.{◌≡◌, ◌≢◌, ◌<◌, ◌≤◌, ◌++◌, ◌∷◌, [], All, None, IfOk, IfSome, is_some, length, option_map, slice_index, slice_index_or};
ghost use Rattle.std.specs.List.{AllPairs};
ghost use Rattle.std.specs.Arc.{arc_value};
ghost use Rattle.qpu_shared.specs.SharedState.{nothing_pending};
ghost use Rattle.qpu_shared.specs.Instruction.{pending_of};
ghost use Rattle.qpu_hazard.specs.Paths.{IsClean};
ghost use Rattle.qpu_machine.specs.Machine.{machine_of, processor_of, with_start};
ghost use Rattle.qpu_machine.specs.Sound.{start_in};
ghost use Rattle.qpu_machine.specs.Opening.{MayOpen};

use crate::machine::{Machine, PROCESSORS};
use crate::start::Start;
use crate::stepping::program_at;
use arrayvec::ArrayVec;
use qpu_hazard::Programs;
use qpu_local::Processor;
use qpu_mem::Memory;
use qpu_shared::Shared;
use qpu_word::NoMemory;
use std::alloc::Global;
use std::sync::Arc;

impl Machine {
    /// A machine before any step: the processor of each start stands at word 0 of its program, the
    /// VPM is all 0, the mutex free, each count 0 and nothing pending. The limit is of instructions
    /// of each processor, at most 1,000,000. The starts are of different processors, each below 12,
    /// and of programs in the list.
    pub fn new(
        alloc: Global,
        memory: Memory,
        limit: u32,
        programs: Arc<Programs>,
        starts: ArrayVec<Start, PROCESSORS>,
    ) -> Machine
        requires limit { limit ≤ 1000000 }
        requires numbers { All (λ s. s.q < 12) starts.items }
        requires programs { All (λ s. s.program < length (arc_value programs).list.items) starts.items }
        requires differ { AllPairs (λ s t. s.q ≢ t.q) starts.items }
        ensures state { result.state ≡ machine_of memory limit (arc_value programs).list.items starts.items }
        ensures starts { result.starts ≡ starts.items }
        ensures opens { MayOpen limit (arc_value programs).list.items starts.items }
    {
        let mut machine = Machine::unstarted(alloc, memory, limit, programs);
        let starts = starts.as_slice();
        for i in 0..starts.len() {
            machine.start(starts[i]);
        }
        machine
    }

    /// The same before any processor is started.
    #[tactic(auto, unfolding(crate::specs::Machine::machine_of))]
    fn unstarted(alloc: Global, memory: Memory, limit: u32, programs: Arc<Programs>) -> Machine
        requires { limit ≤ 1000000 }
        ensures state { result.state ≡ machine_of memory limit (arc_value programs).list.items [] }
        ensures starts { result.starts ≡ [] }
    {
        Machine {
            limit,
            programs,
            starts: ArrayVec::new(),
            program_of: [0; PROCESSORS],
            processors: [None; PROCESSORS],
            shared: Shared::new(alloc, memory),
        }
    }

    /// Starts one more processor, which wasn't started, and for which nothing is pending.
    fn start(&mut self, start: Start)
        requires number { start.q < 12 }
        requires program { start.program < length self.old.state.programs }
        requires nothing { pending_of self.old.state.shared start.q ≡ nothing_pending }
        requires first { start_in self.old.starts start.q ≡ None }
        requires room { length self.old.starts < 12 }
        ensures state { self.new.state ≡ with_start self.old.state start }
        ensures starts { self.new.starts ≡ self.old.starts ++ start ∷ [] }
        ensures clean { IsClean (slice_index_or self.old.state.programs start.program []) }
    {
        let _words = program_at(&self.programs, start.program).words();
        self.starts.push(start);
        self.program_of[start.q as usize] = start.program;
        self.processors[start.q as usize] = Some(Processor::new(start.q, start.uniforms));
    }

    /// The first start of processor q.
    fn first_start(&self, q: u32) -> Option<&Start>
        ensures { option_map (λ start. start.now) result ≡ start_in self.now.starts q }
    {
        self.starts.iter().find(|start| start.q == q)
    }

    /// The start of processor q, which names its program; none exactly where it wasn't started.
    pub fn start_of(&self, q: u32) -> Option<Start>
        ensures start { result ≡ start_in self.now.starts q }
        ensures there { is_some result ≡ is_some (processor_of self.now.state q) }
        ensures program { IfSome result (λ start. slice_index self.now.state.program_of q ≡ start.program) }
    {
        let _limit = self.limit;
        self.first_start(q).copied()
    }

    /// A further owner of the same programs. The one error is want of memory.
    pub fn share_programs(&self, _alloc: Global) -> Result<Arc<Programs>, NoMemory>
        ensures { IfOk result (λ programs. (arc_value programs).list.items ≡ self.now.state.programs) }
    {
        match Arc::try_clone(&self.programs) {
            Ok(programs) => Ok(programs),
            Err(_) => Err(NoMemory),
        }
    }

    /// An equal machine, which shares the programs. The one error is want of memory.
    pub fn copy(&self, alloc: Global) -> Result<Machine, NoMemory>
        ensures { IfOk result (λ machine. machine ≡ self.now) }
    {
        Ok(Machine {
            limit: self.limit,
            programs: self.share_programs(alloc)?,
            starts: copy_of(&self.starts),
            program_of: self.program_of,
            processors: copies_of(&self.processors),
            shared: self.shared.copy(alloc)?,
        })
    }
}

/// Equal starts.
fn copy_of(starts: &ArrayVec<Start, PROCESSORS>) -> ArrayVec<Start, PROCESSORS>
    ensures { result.items ≡ starts.now.items }
{
    match ArrayVec::try_from(starts.as_slice()) {
        Ok(copy) => copy,
        Err(_) => unreachable!(),
    }
}

/// Equal processors.
fn copies_of(all: &[Option<Processor>; PROCESSORS]) -> [Option<Processor>; PROCESSORS]
    ensures { result ≡ all.now }
{
    let mut copies = [None; PROCESSORS];
    for q in 0..PROCESSORS {
        copies[q] = all[q];
    }
    copies
}

#[cfg(test)]
mod tests;
