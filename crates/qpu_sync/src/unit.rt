ghost use Rattle.std.specs.Prelude.{◌≡◌, ◌<◌, ◌↔◌, ◌≢◌, None, IsTrue, IsNone, slice_index};
ghost use Rattle.qpu_sync.specs.Sync.{opening_sync, acquired, released, raised, lowered};

use qpu_word::code::SEMAPHORE_MOST;
use std::marker::Model;

/// How many semaphores there are.
const SEMAPHORES: usize = 16;

/// The mutex and the semaphores. Contracts see its holder and its sixteen counts.
#[derive(Clone, Copy, Debug)]
pub struct SyncUnit {
    holder: Option<u32>,
    counts: [u32; SEMAPHORES],
}

impl Model for SyncUnit {
    ghost use Rattle.std.specs.Prelude.{All, ◌≤◌};
    ghost use Rattle.qpu_word.specs.declared.code.TheConstants.{SEMAPHORE_MOST};
    ghost use Rattle.qpu_sync.specs.Sync.{SyncState};

    ghost Value = { SyncState };

    ghost view = { λ unit. record { holder = unit.holder; counts = unit.counts } };

    ghost invariant = { λ unit. All (λ count. count ≤ SEMAPHORE_MOST) unit.counts };

    ghost inverse = { λ unit. record { holder = unit.holder; counts = unit.counts } };
}

impl SyncUnit {
    /// A free mutex, and counts of 0.
    pub fn new() -> SyncUnit
        ensures { result ≡ opening_sync }
    {
        SyncUnit {
            holder: None,
            counts: [0; SEMAPHORES],
        }
    }

    /// Takes the mutex for processor q, below 12. False exactly where somebody holds it, q itself
    /// included; then nothing changes.
    pub fn acquire(&mut self, q: u32) -> bool
        requires { q < 12 }
        ensures taken { IsTrue result ↔ IsNone self.old.holder }
        ensures unit { self.new ≡ record self.old { holder = acquired self.old.holder q } }
    {
        if self.holder.is_some() {
            return false;
        }
        self.holder = Some(q);
        true
    }

    /// Gives the mutex back where processor q, below 12, is the holder; else nothing changes.
    pub fn release(&mut self, q: u32)
        requires { q < 12 }
        ensures { self.new ≡ record self.old { holder = released self.old.holder q } }
    {
        if self.holder == Some(q) {
            self.holder = None;
        }
    }

    /// Increments semaphore n, below 16. False exactly where its count is 15; then nothing changes.
    pub fn up(&mut self, n: u32) -> bool
        requires { n < 16 }
        ensures raised { IsTrue result ↔ (slice_index self.old.counts n ≢ SEMAPHORE_MOST) }
        ensures unit { self.new ≡ record self.old { counts = raised self.old.counts n } }
    {
        let count = self.counts[n as usize];
        if count == SEMAPHORE_MOST {
            return false;
        }
        self.counts[n as usize] = count + 1;
        true
    }

    /// Decrements semaphore n, below 16. False exactly where its count is 0; then nothing changes.
    pub fn down(&mut self, n: u32) -> bool
        requires { n < 16 }
        ensures lowered { IsTrue result ↔ (slice_index self.old.counts n ≢ 0) }
        ensures unit { self.new ≡ record self.old { counts = lowered self.old.counts n } }
    {
        let count = self.counts[n as usize];
        if count == 0 {
            return false;
        }
        self.counts[n as usize] = count - 1;
        true
    }

    /// The holder of the mutex; none exactly where nobody holds it.
    pub fn holder(&self) -> Option<u32>
        ensures { result ≡ self.now.holder }
    {
        self.holder
    }

    /// The counts of the sixteen semaphores, in the order of their numbers.
    pub fn counts(&self) -> &[u32]
        ensures { result.now ≡ self.now.counts }
    {
        &self.counts
    }

    /// The count of semaphore n, below 16.
    pub fn count(&self, n: u32) -> u32
        requires { n < 16 }
        ensures { result ≡ slice_index self.now.counts n }
    {
        self.counts[n as usize]
    }
}
