//! The shared parts as one value.
ghost use Rattle.std.specs.Prelude.{◌≡◌, ◌<◌, ◌≤◌, is_some, IfOk};
ghost use Rattle.qpu_tmu.specs.Looks.{next_look};
ghost use Rattle.qpu_shared.specs.SharedState.{opening_shared};
ghost use Rattle.qpu_shared.specs.Instruction.{pending_of};
ghost use Rattle.qpu_shared.specs.Moves.{unit_looks};

use crate::pending::{PROCESSORS, Pending, clear, copies};
use qpu_mem::Memory;
use qpu_sync::SyncUnit;
use qpu_vpm::Vpm;
use qpu_word::NoMemory;
use qpu_word::code::TMU_UNITS;
use std::alloc::Global;
use std::marker::Model;

/// What the processors share: memory, the VPM, the mutex, the semaphores, and what each of the
/// twelve processors has pending. Contracts see it as a `SharedState`.
#[derive(Debug, Drop)]
pub struct Shared {
    pub(crate) memory: Memory,
    pub(crate) vpm: Vpm,
    pub(crate) sync: SyncUnit,
    pub(crate) pending: [Pending; PROCESSORS],
}

impl Model for Shared {
    ghost use Rattle.qpu_shared.specs.SharedState.{SharedState};

    ghost Value = { SharedState };

    ghost use Rattle.qpu_shared.specs.Views.{shared_state, IsSoundShared};

    ghost view = { shared_state };

    ghost invariant = { IsSoundShared };
}

impl Shared {
    /// A memory with the VPM all 0, the mutex free, counts of 0 and nothing pending.
    #[tactic(auto, unfolding(crate::specs::SharedState::opening_shared))]
    pub fn new(_alloc: Global, memory: Memory) -> Shared
        ensures { result ≡ opening_shared memory }
    {
        Shared {
            memory,
            vpm: Vpm::new(),
            sync: SyncUnit::new(),
            pending: clear(),
        }
    }

    /// Memory.
    pub fn memory(&self) -> &Memory
        ensures { result.now ≡ self.now.memory }
    {
        &self.memory
    }

    /// The VPM.
    pub fn vpm(&self) -> &Vpm
        ensures { result.now ≡ self.now.vpm }
    {
        &self.vpm
    }

    /// The mutex and the semaphores.
    pub fn sync(&self) -> &SyncUnit
        ensures holder { result.now.holder ≡ self.now.mutex }
        ensures counts { result.now.counts ≡ self.now.semaphores }
    {
        &self.sync
    }

    /// Whether processor q has a load pending.
    pub fn load_pending(&self, q: u32) -> bool
        ensures { result ≡ is_some (pending_of self.now q).load }
    {
        match self.pending.get(q as usize) {
            Some(pending) => pending.load.is_some(),
            None => false,
        }
    }

    /// Whether processor q has a store pending.
    pub fn store_pending(&self, q: u32) -> bool
        ensures { result ≡ is_some (pending_of self.now q).store }
    {
        match self.pending.get(q as usize) {
            Some(pending) => pending.store.is_some(),
            None => false,
        }
    }

    /// Whether TMU unit u of processor q has a look-up that isn't fetched.
    pub fn fetch_pending(&self, q: u32, u: u32) -> bool
        ensures { result ≡ is_some (next_look (unit_looks (pending_of self.now q) u)) }
    {
        match self.pending.get(q as usize) {
            Some(pending) => u < TMU_UNITS && pending.looks.next(u).is_some(),
            None => false,
        }
    }

    /// Equal shared parts. The one error is want of memory.
    pub fn copy(&self, alloc: Global) -> Result<Shared, NoMemory>
        ensures { IfOk result (λ shared. shared ≡ self.now) }
    {
        Ok(Shared {
            memory: self.memory.copy(alloc)?,
            vpm: self.vpm.copy(),
            sync: self.sync,
            pending: copies(&self.pending),
        })
    }
}
