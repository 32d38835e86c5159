//! What an instruction leaves in the shared parts.
ghost use Rattle.std.specs.Prelude.{◌≡◌, ◌≢◌, ◌<◌, ◌≤◌, ◌==◌, ◌&&◌, ◌||◌, not, false, None, if◌then◌else◌, length, is_some, is_none, slice_index, IsSome};
ghost use Rattle.qpu_word.specs.declared.code.TheConstants.{READ_MUTEX, SEMAPHORE_MOST, LOOK_UPS};
ghost use Rattle.qpu_word.specs.Processor.{ProcessorState};
ghost use Rattle.qpu_word.specs.Words.{reads, is_semaphore, is_tmu_load};
ghost use Rattle.qpu_vpm.specs.Cells.{setup_of, vector_places};
ghost use Rattle.qpu_vpm.specs.Values.{with_values};
ghost use Rattle.qpu_tmu.specs.Looks.{queue_of, with_queue, oldest_words};
ghost use Rattle.qpu_shared.specs.Views.{IsFitting};
ghost use Rattle.qpu_shared.specs.Free.{IsFree};
ghost use Rattle.qpu_shared.specs.Instruction.{vpm_after, after_acquire, after_release, mutex_after, semaphores_after, is_down, count_of, after_take, after_issue, or_pending, looks_of, pending_after, pending_of, shared_after};
ghost use Rattle.qpu_shared.specs.Moves.{with_pending};

use crate::awaiting::is_down;
use crate::pending::Pending;
use crate::shared::Shared;
use crate::starts::Begun;
use qpu_dma::Transfer;
use qpu_vpm::VectorSetup;
use qpu_word::code::{READ_MUTEX, WRITE_MUTEX};
use qpu_word::{Book, Fields, Lanes, Outs, Vectors};

/// The transfer that starts, or the one that was pending.
fn or_pending(starts: Option<Transfer>, pending: Option<Transfer>) -> Option<Transfer>
    ensures { result ≡ or_pending starts pending }
{
    match starts {
        Some(transfer) => Some(transfer),
        None => pending,
    }
}

impl Pending {
    /// Takes the oldest look-up of TMU unit u, 0 or 1, where a word loads it; it is fetched.
    fn take(&mut self, f: &Fields, u: u32)
        requires unit { u < 2 }
        requires fetched { (is_tmu_load f.now u && is_none (oldest_words (queue_of self.old.looks u))) ≡ false }
        ensures { self.new ≡ record self.old { looks = with_queue self.old.looks u (after_take f.now u (queue_of self.old.looks u)) } }
    {
        if f.is_tmu_load(u) {
            self.looks.take(u);
        }
    }

    /// Issues a look-up to TMU unit u, 0 or 1, where there is one; there is room for it.
    fn issue(&mut self, u: u32, look: &Option<Lanes>)
        requires unit { u < 2 }
        requires room { IsSome look.now → length (queue_of self.old.looks u) < LOOK_UPS }
        ensures { self.new ≡ record self.old { looks = with_queue self.old.looks u (after_issue look.now u u (queue_of self.old.looks u)) } }
    {
        if let Some(at) = look {
            self.looks.issue(u, at);
        }
    }

    /// What is pending after an instruction: a start, a take, and then a new look-up.
    #[tactic(auto, unfolding(crate::specs::Instruction::pending_after))]
    fn go_on(&mut self, f: &Fields, outs: &Outs, starts: &Begun)
        requires unit { outs.now.look_unit < 2 }
        requires take0 { (is_tmu_load f.now 0 && is_none (oldest_words (queue_of self.old.looks 0))) ≡ false }
        requires take1 { (is_tmu_load f.now 1 && is_none (oldest_words (queue_of self.old.looks 1))) ≡ false }
        requires room { IsSome starts.now.look → length (queue_of self.old.looks outs.now.look_unit) < LOOK_UPS }
        ensures { self.new ≡ pending_after f.now outs.now starts.now self.old }
    {
        self.load = or_pending(starts.load, self.load);
        self.store = or_pending(starts.store, self.store);
        self.take(f, 0);
        self.take(f, 1);
        self.issue(outs.look_unit, &starts.look);
    }
}

impl Shared {
    /// Writes a vector at an access of a setup.
    fn put_vector(&mut self, values: &Lanes, access: Vectors)
        ensures { self.new ≡ record self.old { vpm = with_values self.old.vpm (setup_of access.setup).size (vector_places (setup_of access.setup) access.done) values.now.v } }
    {
        let setup = VectorSetup::of(access.setup);
        self.vpm.put_vector(setup, access.done, values);
    }

    /// Writes a vector by the write setup that was in use.
    fn put_vpm(&mut self, values: &Option<Lanes>, writes: Option<Vectors>)
        ensures { self.new ≡ record self.old { vpm = vpm_after values.now writes self.old.vpm } }
    {
        if let (Some(values), Some(access)) = (values, writes) {
            self.put_vector(values, access);
        }
    }

    /// Acquires the mutex for processor q, which is free where the word reads it.
    fn acquire(&mut self, f: &Fields, q: u32)
        requires q { q < 12 }
        ensures { self.new ≡ record self.old { mutex = after_acquire f.now q self.old.mutex } }
    {
        if f.reads(READ_MUTEX) {
            self.sync.acquire(q);
        }
    }

    /// Releases the mutex where processor q holds it.
    fn release(&mut self, f: &Fields, q: u32)
        requires q { q < 12 }
        ensures { self.new ≡ record self.old { mutex = after_release f.now q self.old.mutex } }
    {
        if f.writes(WRITE_MUTEX) {
            self.sync.release(q);
        }
    }

    /// Counts a semaphore, which has room for it.
    #[tactic(auto, unfolding(crate::specs::Instruction::semaphores_after))]
    fn put_semaphores(&mut self, f: &Fields)
        requires number { f.now.number < 16 }
        ensures { self.new ≡ record self.old { semaphores = semaphores_after f.now self.old.semaphores } }
    {
        if !f.is_semaphore() {
            return;
        }
        if is_down(f) {
            self.sync.down(f.number);
        } else {
            self.sync.up(f.number);
        }
    }

    /// What processor q has pending after an instruction.
    fn put_pending(&mut self, f: &Fields, q: u32, outs: &Outs, starts: &Begun)
        requires q { q < 12 }
        requires unit { outs.now.look_unit < 2 }
        requires take0 { (is_tmu_load f.now 0 && is_none (oldest_words (looks_of (pending_of self.old q) 0))) ≡ false }
        requires take1 { (is_tmu_load f.now 1 && is_none (oldest_words (looks_of (pending_of self.old q) 1))) ≡ false }
        requires room { IsSome starts.now.look → length (looks_of (pending_of self.old q) outs.now.look_unit) < LOOK_UPS }
        requires load { IsFitting (length self.old.memory) starts.now.load }
        requires store { IsFitting (length self.old.memory) starts.now.store }
        ensures { self.new ≡ with_pending self.old q (pending_after f.now outs.now starts.now (pending_of self.old q)) }
    {
        self.pending[q as usize].go_on(f, outs, starts);
    }

    /// Leaves what an instruction of processor q does to the shared parts, by the book before it.
    #[tactic(auto, unfolding(crate::specs::Instruction::shared_after, crate::specs::Instruction::mutex_after))]
    pub(crate) fn commit(&mut self, f: &Fields, q: u32, before: &Book, outs: &Outs, starts: &Begun)
        requires q { q < 12 }
        requires number { f.now.number < 16 }
        requires unit { outs.now.look_unit < 2 }
        requires free { IsFree f.now q self.old }
        requires room { IsSome starts.now.look → length (looks_of (pending_of self.old q) outs.now.look_unit) < LOOK_UPS }
        requires load { IsFitting (length self.old.memory) starts.now.load }
        requires store { IsFitting (length self.old.memory) starts.now.store }
        ensures { (p : ProcessorState) → p.q ≡ q → p.book ≡ before.now → self.new ≡ shared_after f.now p outs.now starts.now self.old }
    {
        self.put_vpm(&outs.vpm, before.writes);
        self.acquire(f, q);
        self.release(f, q);
        self.put_semaphores(f);
        self.put_pending(f, q, outs, starts);
    }
}
