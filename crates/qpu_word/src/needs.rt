//! Which shared things a word touches.
ghost use Rattle.std.specs.Prelude.{⊤, ◌≡◌, ◌↔◌, ◌<◌, ◌≤◌, ◌^◌, ℕ, [], ◌∷◌, codes, IsTrue};
ghost use Rattle.qpu_word.specs.Words.{fields_of, is_local};
ghost use Rattle.qpu_word.specs.Needs.{bit, read_needs, write_needs, needs_of};

use crate::alone::is_alone;
use crate::code::{
    READ_DMA_BUSY, READ_DMA_WAIT, READ_MUTEX, READ_UNIFORM, READ_VPM, WRITE_DMA_ADDRESS,
    WRITE_MUTEX, WRITE_TMU0_S, WRITE_TMU1_S, WRITE_VPM,
};
use crate::word::{Fields, Word};
use bitflags::{Flag, Flags, bitflag_items};

/// The shared things that a word touches, one bit each; empty exactly where the word is local.
#[derive(Clone, Copy, Debug, PartialEq, Eq)]
pub struct Needs(u16);

bitflag_items! {
    impl Needs: u16 {
        /// It reads a uniform.
        const UNIFORM = 1;
        /// It reads a vector of the VPM.
        const VPM_READ = 2;
        /// It writes a vector of the VPM.
        const VPM_WRITE = 4;
        /// It asks whether a load is pending.
        const LOAD_BUSY = 8;
        /// It asks whether a store is pending.
        const STORE_BUSY = 16;
        /// It waits for a load.
        const LOAD_WAIT = 32;
        /// It waits for a store.
        const STORE_WAIT = 64;
        /// It starts a load.
        const LOAD_START = 128;
        /// It starts a store.
        const STORE_START = 256;
        /// It issues a look-up.
        const LOOK = 512;
        /// It takes the words of a look-up.
        const TAKE = 1024;
        /// It acquires the mutex.
        const ACQUIRE = 2048;
        /// It releases the mutex.
        const RELEASE = 4096;
        /// It counts a semaphore.
        const SEMAPHORE = 8192;
    }
}

impl Flags for Needs {
    type Bits = u16;

    ghost exact = { ⊤ };

    ghost table = { (codes "UNIFORM", 1) ∷ (codes "VPM_READ", 2) ∷ (codes "VPM_WRITE", 4) ∷ (codes "LOAD_BUSY", 8) ∷ (codes "STORE_BUSY", 16) ∷ (codes "LOAD_WAIT", 32) ∷ (codes "STORE_WAIT", 64) ∷ (codes "LOAD_START", 128) ∷ (codes "STORE_START", 256) ∷ (codes "LOOK", 512) ∷ (codes "TAKE", 1024) ∷ (codes "ACQUIRE", 2048) ∷ (codes "RELEASE", 4096) ∷ (codes "SEMAPHORE", 8192) ∷ [] };

    ghost set_of = { λ needs. needs.0 };

    fn flags<'a>() -> &'a [Flag<Needs>] {
        Needs::FLAGS
    }

    fn bits(&self) -> u16 {
        self.0
    }

    fn from_bits_retain(bits: u16) -> Needs {
        Needs(bits)
    }
}

/// The bit of a shared thing where a word touches it, else 0.
#[tactic(auto, unfolding(crate::specs::Needs::bit))]
fn bit(need: Needs, touched: bool) -> u16
    ensures value { (n : ℕ) → need.0 ≡ 2 ^ n → result ≡ bit n touched }
    ensures below { result ≤ need.0 }
{
    if touched { need.0 } else { 0 }
}

impl Fields {
    /// What the word reads from the shared parts.
    fn read_needs(&self) -> u16
        ensures value { result ≡ read_needs self.now }
        ensures below { result < 2 ^ 14 }
    {
        bit(Needs::UNIFORM, self.reads(READ_UNIFORM))
            + bit(Needs::VPM_READ, self.reads(READ_VPM))
            + bit(Needs::LOAD_BUSY, self.reads_a(READ_DMA_BUSY))
            + bit(Needs::STORE_BUSY, self.reads_b(READ_DMA_BUSY))
            + bit(Needs::LOAD_WAIT, self.reads_a(READ_DMA_WAIT))
            + bit(Needs::STORE_WAIT, self.reads_b(READ_DMA_WAIT))
            + bit(Needs::TAKE, self.has_tmu_load())
            + bit(Needs::ACQUIRE, self.reads(READ_MUTEX))
    }

    /// What the word writes to the shared parts.
    fn write_needs(&self) -> u16
        ensures value { result ≡ write_needs self.now }
        ensures below { result < 2 ^ 14 }
    {
        bit(Needs::VPM_WRITE, self.writes(WRITE_VPM))
            + bit(Needs::LOAD_START, self.writes_a(WRITE_DMA_ADDRESS))
            + bit(Needs::STORE_START, self.writes_b(WRITE_DMA_ADDRESS))
            + bit(
                Needs::LOOK,
                self.writes(WRITE_TMU0_S) || self.writes(WRITE_TMU1_S),
            )
            + bit(Needs::RELEASE, self.writes(WRITE_MUTEX))
            + bit(Needs::SEMAPHORE, self.is_semaphore())
    }
}

impl Fields {
    /// The shared things that the word touches.
    #[tactic(auto, unfolding(crate::specs::Needs::needs_of), using(crate::proofs::NeedLemmas::empty_where_local))]
    pub(crate) fn needs(&self) -> Needs
        ensures needs { result.0 ≡ needs_of self.now }
        ensures local { (result.0 ≡ 0) ↔ IsTrue (is_local self.now) }
    {
        Needs(self.read_needs() + self.write_needs())
    }

    /// Whether the word touches its processor alone. Nearly every local word is told by a few tests,
    /// and only the others by all that a word can touch.
    pub fn is_local(&self) -> bool
        ensures { result ≡ is_local self.now }
    {
        is_alone(self) || self.needs().0 == 0
    }
}

impl Word {
    /// The shared things that the word touches: a bit is in the set exactly where the word touches
    /// its thing, and the set is empty exactly where the word is local.
    pub fn needs(self) -> Needs
        ensures needs { result.0 ≡ needs_of (fields_of self.0) }
        ensures local { (result.0 ≡ 0) ↔ IsTrue (is_local (fields_of self.0)) }
    {
        self.fields().needs()
    }

    /// Whether the word touches its processor alone.
    pub fn is_local(self) -> bool
        ensures { result ≡ is_local (fields_of self.0) }
    {
        self.fields().is_local()
    }
}
