//! Why an instruction awaits.
ghost use Rattle.std.specs.Prelude.{◌≡◌, ◌↔◌, ◌<◌, ◌==◌, ◌&&◌, is_some, is_none, length, not, IsTrue};
ghost use Rattle.qpu_word.specs.declared.code.TheConstants.{SEMAPHORE_MOST};
ghost use Rattle.qpu_word.specs.Words.{fields_of, is_semaphore, is_tmu_load, IsInProfile};
ghost use Rattle.qpu_tmu.specs.Looks.{oldest_words};
ghost use Rattle.qpu_shared.specs.Exec.{HasRoom};
ghost use Rattle.qpu_shared.specs.Instruction.{count_of, first_cause, is_down, looks_of, pending_of};

use crate::cause::Cause;
use crate::shared::Shared;
use qpu_tmu::LOOK_UPS;
use qpu_word::code::{NOWHERE, READ_DMA_WAIT, READ_MUTEX, SEMAPHORE_MOST, WRITE_DMA_ADDRESS};
use qpu_word::{Fields, Word};

/// Whether a semaphore word decrements.
pub(crate) fn is_down(f: &Fields) -> bool
    ensures { result ≡ is_down f.now }
{
    f.down == 1
}

impl Shared {
    /// Whether the oldest look-up of TMU unit u, 0 or 1, of processor q is there and is fetched.
    fn ready(&self, q: u32, u: u32) -> bool
        requires { u < 2 }
        ensures { result ≡ is_some (oldest_words (looks_of (pending_of self.now q) u)) }
    {
        match self.pending.get(q as usize) {
            Some(pending) => pending.looks.ready(u),
            None => false,
        }
    }

    /// Whether a word awaits the words of a look-up of TMU unit u, 0 or 1.
    fn awaits_words(&self, f: &Fields, q: u32, u: u32) -> bool
        requires { u < 2 }
        ensures { result ≡ (is_tmu_load f.now u && is_none (oldest_words (looks_of (pending_of self.now q) u))) }
    {
        f.is_tmu_load(u) && !self.ready(q, u)
    }

    /// Whether a word increments a semaphore that stands at 15.
    fn awaits_up(&self, f: &Fields) -> bool
        requires { f.now.number < 16 }
        ensures { result ≡ (is_semaphore f.now && not (is_down f.now) && (count_of self.now f.now.number == SEMAPHORE_MOST)) }
    {
        f.is_semaphore() && !is_down(f) && self.sync.count(f.number) == SEMAPHORE_MOST
    }

    /// Whether a word decrements a semaphore that stands at 0.
    fn awaits_down(&self, f: &Fields) -> bool
        requires { f.now.number < 16 }
        ensures { result ≡ (is_semaphore f.now && is_down f.now && (count_of self.now f.now.number == 0)) }
    {
        f.is_semaphore() && is_down(f) && self.sync.count(f.number) == 0
    }

    /// Why processor q would await at a word with these fields: the first cause that holds, in the order
    /// in which they are tried. None where the word has a step.
    #[tactic(auto, unfolding(crate::specs::Instruction::first_cause, crate::specs::Instruction::awaits))]
    pub fn first_cause(&self, f: &Fields, q: u32) -> Option<Cause>
        requires { f.now.number < 16 }
        ensures { result ≡ first_cause f.now q self.now }
    {
        if f.reads_a(READ_DMA_WAIT) && self.load_pending(q) {
            Some(Cause::LoadWait)
        } else if f.reads_b(READ_DMA_WAIT) && self.store_pending(q) {
            Some(Cause::StoreWait)
        } else if f.writes_a(WRITE_DMA_ADDRESS) && self.load_pending(q) {
            Some(Cause::LoadStart)
        } else if f.writes_b(WRITE_DMA_ADDRESS) && self.store_pending(q) {
            Some(Cause::StoreStart)
        } else if self.awaits_words(f, q, 0) {
            Some(Cause::TmuLoad(0))
        } else if self.awaits_words(f, q, 1) {
            Some(Cause::TmuLoad(1))
        } else if f.reads(READ_MUTEX) && self.sync.holder().is_some() {
            Some(Cause::Mutex)
        } else if self.awaits_up(f) {
            Some(Cause::Up(f.number))
        } else if self.awaits_down(f) {
            Some(Cause::Down(f.number))
        } else {
            None
        }
    }

    /// Why processor q would await at a word of the profile: the first cause that holds, none where
    /// the word has a step.
    #[tactic(auto, using(crate::proofs::WordLemmas::number_below))]
    pub fn awaits(&self, q: u32, word: Word) -> Option<Cause>
        requires { IsInProfile word.0 }
        ensures { result ≡ first_cause (fields_of word.0) q self.now }
    {
        self.first_cause(&word.fields(), q)
    }

    /// How many look-ups TMU unit u, 0 or 1, of processor q has outstanding, fetched or not: at most
    /// four.
    pub fn looks_outstanding(&self, q: u32, u: u32) -> u32
        requires { u < 2 }
        ensures { result ≡ length (looks_of (pending_of self.now q) u) }
    {
        match self.pending.get(q as usize) {
            Some(pending) => pending.looks.outstanding(u),
            None => 0,
        }
    }

    /// Whether a word of processor q finds room for the look-up that it issues: fewer than four
    /// outstanding in its TMU unit. True where it issues none.
    pub fn has_room(&self, q: u32, word: Word) -> bool
        ensures { IsTrue result ↔ HasRoom (fields_of word.0) (pending_of self.now q) }
    {
        let f = word.fields();
        f.look_address() == NOWHERE
            || (self.looks_outstanding(q, f.look_unit()) as usize) < LOOK_UPS
    }
}
