//! The machine as one value.
ghost use Rattle.std.specs.Prelude.{◌≡◌, ◌<◌, length, option_map, slice_index};
ghost use Rattle.qpu_machine.specs.Machine.{processor_of};
ghost use Rattle.qpu_machine.specs.Sound.{IsSoundMachine};

use crate::start::Start;
use arrayvec::ArrayVec;
use qpu_hazard::Programs;
use qpu_local::Processor;
use qpu_shared::Shared;
use qpu_word::code;
use std::marker::Model;
use std::sync::Arc;

/// How many processors a machine may have.
pub(crate) const PROCESSORS: usize = code::PROCESSORS as usize;

/// A machine: a limit of instructions, checked programs, up to twelve processors and what they
/// share. Contracts see its `MachineState` and its starts. Each processor that goes on stands on a
/// path of its program, which breaks no hazard rule; and a processor is there exactly where it has a
/// start, which names its program.
#[derive(Debug, Drop)]
pub struct Machine {
    pub(crate) limit: u32,
    pub(crate) programs: Arc<Programs>,
    pub(crate) starts: ArrayVec<Start, PROCESSORS>,
    pub(crate) program_of: [u32; PROCESSORS],
    pub(crate) processors: [Option<Processor>; PROCESSORS],
    pub(crate) shared: Shared,
}

impl Model for Machine {
    ghost use Rattle.qpu_machine.specs.Views.{Started, started_of, machine_state};
    ghost use Rattle.qpu_machine.specs.Sound.{IsWhole};

    ghost Value = { Started };

    ghost view = { started_of };

    ghost invariant = { λ inside. IsWhole inside.starts.items (machine_state inside) };
}

impl Machine {
    /// Does nothing: its clause tells what the type of a machine keeps, so that the laws of schedules
    /// hold of it.
    pub fn keeps(&self)
        ensures { IsSoundMachine self.now.state }
    {
        let _limit = self.limit;
    }

    /// The limit of instructions of each processor, at most 1,000,000.
    pub fn limit(&self) -> u32
        ensures { result ≡ self.now.state.limit }
    {
        self.limit
    }

    /// What the processors share.
    pub fn shared(&self) -> &Shared
        ensures { result.now ≡ self.now.state.shared }
    {
        &self.shared
    }

    /// The programs.
    pub fn programs(&self) -> &Programs
        ensures { result.now.list.items ≡ self.now.state.programs }
    {
        &self.programs
    }

    /// The index of the program that processor q, below 12, was started with.
    pub fn program_of(&self, q: u32) -> u32
        requires { q < 12 }
        ensures { result ≡ slice_index self.now.state.program_of q }
    {
        self.program_of[q as usize]
    }

    /// Processor q; none exactly where it wasn't started.
    pub fn processor(&self, q: u32) -> Option<&Processor>
        ensures processor { option_map (λ processor. processor.now) result ≡ processor_of self.now.state q }
        ensures twelve { length self.now.state.processors ≡ 12 }
    {
        match self.processors.get(q as usize) {
            Some(Some(processor)) => Some(processor),
            _ => None,
        }
    }
}
