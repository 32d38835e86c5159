//! The moves of pending transfers and look-ups.
ghost use Rattle.std.specs.Prelude.{◌≡◌, ◌<◌, ◌/◌, ◌∷◌, [], false, length, map, slice_index, option_map, IsTrue, IsSome};
ghost use Rattle.qpu_word.specs.declared.code.TheConstants.{VPM_BYTES};
ghost use Rattle.qpu_bytes.specs.Elements.{is_place};
ghost use Rattle.qpu_dma.specs.declared.direction.Direction.TheVariants.{Load as LoadOf, Store as StoreOf};
ghost use Rattle.qpu_dma.specs.Transfers.{row_pairs, fits};
ghost use Rattle.qpu_tmu.specs.Looks.{next_look, with_queue, with_words, queue_of};
ghost use Rattle.qpu_shared.specs.Exec.{Moves};
ghost use Rattle.qpu_shared.specs.Instruction.{pending_of};
ghost use Rattle.qpu_shared.specs.Moves.{transfer_in, with_transfer, with_carried, with_pending, unit_looks, row_moved, fetch_moved};
ghost use Rattle.qpu_shared.specs.Views.{IsFitting};

use crate::pending::Pending;
use crate::shared::Shared;
use qpu_dma::{Direction, Pair, Transfer};
use qpu_word::code::TMU_UNITS;
use qpu_word::{LANES, Lanes};

/// The most words of a row.
const MOST_WORDS: usize = 128;

impl Pending {
    /// The transfer of a direction.
    pub(crate) fn transfer(&self, direction: Direction) -> Option<Transfer>
        ensures { result ≡ transfer_in direction self.now }
    {
        match direction {
            Direction::Load => self.load,
            Direction::Store => self.store,
        }
    }

    /// Replaces the transfer of a direction.
    fn set_transfer(&mut self, direction: Direction, transfer: Option<Transfer>)
        ensures { self.new ≡ with_transfer direction self.old transfer }
    {
        match direction {
            Direction::Load => self.load = transfer,
            Direction::Store => self.store = transfer,
        }
    }
}

impl Shared {
    /// The transfer of a direction that processor q has pending; it fits memory.
    fn transfer_at(&self, direction: Direction, q: u32) -> Option<Transfer>
        ensures is { result ≡ transfer_in direction (pending_of self.now q) }
        ensures fits { IsFitting (length self.now.memory) result }
        ensures there { IsSome result → q < 12 }
    {
        self.pending.get(q as usize)?.transfer(direction)
    }

    /// The load that processor q has pending, with the rows of it that were moved; none exactly where
    /// none is pending.
    pub fn load_at(&self, q: u32) -> Option<Transfer>
        ensures { result ≡ (pending_of self.now q).load }
    {
        self.transfer_at(Direction::Load, q)
    }

    /// The store that processor q has pending, with the rows of it that were moved; none exactly where
    /// none is pending.
    pub fn store_at(&self, q: u32) -> Option<Transfer>
        ensures { result ≡ (pending_of self.now q).store }
    {
        self.transfer_at(Direction::Store, q)
    }

    /// Carries one element, whose places lie in memory and in the VPM.
    fn carry(&mut self, direction: Direction, pair: Pair)
        requires word { pair.at / 4 < length self.old.memory }
        requires place { pair.place < VPM_BYTES }
        requires at_whole { IsTrue (is_place pair.at pair.size) }
        requires place_whole { IsTrue (is_place pair.place pair.size) }
        ensures carried { self.new ≡ with_carried direction self.old (pair ∷ []) }
        ensures long { length self.new.memory ≡ length self.old.memory }
    {
        match direction {
            Direction::Load => {
                let Some(value) = self.memory.part(pair.at, pair.size) else {
                    unreachable!()
                };
                self.vpm.set_part(pair.place, pair.size, value);
            }
            Direction::Store => {
                let value = self.vpm.part(pair.place, pair.size);
                self.memory.set_part(pair.at, pair.size, value);
            }
        }
    }

    /// Carries the elements of the next row of a transfer, which fits, one after another.
    fn carry_each(&mut self, direction: Direction, transfer: Transfer)
        requires { IsTrue (fits transfer (length self.old.memory)) }
        ensures { self.new ≡ with_carried direction self.old (row_pairs transfer transfer.moved) }
    {
        let row = transfer.moved();
        for j in 0..transfer.length() {
            self.carry(direction, transfer.pair(row, j));
        }
    }

    /// Carries the words of the next row of a transfer at once, where they stand side by side, in memory
    /// in one bank. False where they don't; then nothing changes.
    fn carry_run(&mut self, direction: Direction, transfer: &Transfer) -> bool
        ensures carried { IsTrue result → self.new ≡ with_carried direction self.old (row_pairs transfer.now transfer.now.moved) }
        ensures not { result ≡ false → self.new ≡ self.old }
    {
        let Some(row) = transfer.word_row() else {
            return false;
        };
        let mut words = [0; MOST_WORDS];
        let words = &mut words[..transfer.length() as usize];
        match direction {
            Direction::Load => {
                if !self.memory.read(row.at, words) {
                    return false;
                }
                self.vpm.write(row.place, words);
                true
            }
            Direction::Store => {
                self.vpm.read(row.place, words);
                self.memory.write(row.at, words)
            }
        }
    }

    /// Carries the elements of the next row of a transfer, which fits.
    #[tactic(auto, using(crate::proofs::MoveLemmas::row_long, crate::proofs::MoveLemmas::row_pending))]
    fn carry_row(&mut self, direction: Direction, transfer: Transfer)
        requires { IsTrue (fits transfer (length self.old.memory)) }
        ensures carried { self.new ≡ with_carried direction self.old (row_pairs transfer transfer.moved) }
        ensures long { length self.new.memory ≡ length self.old.memory }
        ensures pending { self.new.pending ≡ self.old.pending }
    {
        if !self.carry_run(direction, &transfer) {
            self.carry_each(direction, transfer);
        }
    }

    /// Replaces the transfer of a direction that processor q has pending by one that fits, or by none.
    fn put_transfer(&mut self, direction: Direction, q: u32, transfer: Option<Transfer>)
        requires q { q < 12 }
        requires fits { IsFitting (length self.old.memory) transfer }
        ensures { self.new ≡ with_pending self.old q (with_transfer direction (pending_of self.old q) transfer) }
    {
        self.pending[q as usize].set_transfer(direction, transfer);
    }

    /// Moves the next row of a transfer that processor q has pending. False exactly where none is
    /// pending; then nothing changes.
    #[tactic(auto, unfolding(crate::specs::Moves::row_moved))]
    fn move_row(&mut self, direction: Direction, q: u32) -> bool
        ensures { Moves result (row_moved direction self.old q) self.old self.new }
    {
        let Some(transfer) = self.transfer_at(direction, q) else {
            return false;
        };
        self.carry_row(direction, transfer);
        self.put_transfer(direction, q, transfer.next());
        true
    }

    /// Moves the next row of the load that processor q has pending; after its last row it isn't
    /// pending. False exactly where none is pending; then nothing changes.
    pub fn move_load(&mut self, q: u32) -> bool
        ensures { Moves result (row_moved LoadOf self.old q) self.old self.new }
    {
        self.move_row(Direction::Load, q)
    }

    /// Moves the next row of the store that processor q has pending; after its last row it isn't
    /// pending. False exactly where none is pending; then nothing changes.
    pub fn move_store(&mut self, q: u32) -> bool
        ensures { Moves result (row_moved StoreOf self.old q) self.old self.new }
    {
        self.move_row(Direction::Store, q)
    }

    /// The indexes of the oldest look-up of TMU unit u of processor q that isn't fetched.
    fn look_of(&self, q: u32, u: u32) -> Option<Lanes>
        ensures look { option_map (λ at. at.v) result ≡ next_look (unit_looks (pending_of self.now q) u) }
        ensures there { IsSome result → (q < 12) × (u < 2) }
    {
        if u >= TMU_UNITS {
            return None;
        }
        self.pending.get(q as usize)?.looks.next(u)
    }

    /// The words of memory at sixteen indexes, 0 outside memory.
    #[tactic(auto, using(crate::proofs::SharedLemmas::lanes_mapped))]
    fn words_at(&self, at: &Lanes) -> Lanes
        ensures { result.v ≡ map (slice_index self.now.memory) at.now.v }
    {
        let mut out = [0; LANES];
        for i in 0..LANES {
            out[i] = self.word(at.v[i]);
        }
        Lanes { v: out }
    }

    /// Gives the oldest look-up of a unit that isn't fetched its words.
    fn finish_look(&mut self, q: u32, u: u32, words: &Lanes)
        requires q { q < 12 }
        requires unit { u < 2 }
        requires waiting { IsSome (next_look (queue_of (pending_of self.old q).looks u)) }
        ensures { self.new ≡ with_pending self.old q (record (pending_of self.old q) { looks = with_queue (pending_of self.old q).looks u (with_words words.now.v (queue_of (pending_of self.old q).looks u)) }) }
    {
        self.pending[q as usize].looks.fetched(u, words);
    }

    /// Makes one look-up move of TMU unit u of processor q: the sixteen words of the oldest look-up
    /// that isn't fetched are read. False exactly where there is none; then nothing changes.
    #[tactic(auto, unfolding(crate::specs::Moves::fetch_moved))]
    pub fn fetch(&mut self, q: u32, u: u32) -> bool
        ensures { Moves result (fetch_moved self.old q u) self.old self.new }
    {
        let Some(at) = self.look_of(q, u) else {
            return false;
        };
        let words = self.words_at(&at);
        self.finish_look(q, u, &words);
        true
    }
}
