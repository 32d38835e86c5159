ghost use Rattle.std.specs.Prelude.{◌≡◌, ℕ, ◌<◌, ◌≤◌, ◌+◌, ◌%◌, ◌^◌, false, ◌↔◌, ◌*◌, ◌/◌, drop, length, take, replicate, slice_get, slice_index, slice_set, IfOk, IsTrue, if◌then◌else◌, nat_lt};
ghost use Rattle.qpu_word.specs.declared.code.TheConstants.{MEMORY_WORDS};
ghost use Rattle.qpu_bytes.specs.Elements.{is_place, element, with_part, words_from, with_words};
ghost use Rattle.qpu_mem.specs.declared.memory.TheConstants.{GROUP};
ghost use Rattle.qpu_mem.specs.declared.bank.TheConstants.{BANK};

use crate::bank::{BANK, Bank, clear_banks, copied_banks};
use qpu_bytes::{Size, part_of, with_part_of};
use qpu_word::NoMemory;
use qpu_word::code::WORD_BYTES;
use std::alloc::Global;
use std::marker::Model;

/// How many words a group has, in which memory is shown.
pub const GROUP: usize = 8;

/// Words of memory, seen as a list. It has 1 to 1,048,576 words.
#[derive(Debug, Drop)]
pub struct Memory {
    banks: Vec<Bank>,
    /// How many words there are.
    words: usize,
}

impl Model for Memory {
    ghost use Rattle.std.specs.Prelude.{List, ℕ, ◌≤◌};
    ghost use Rattle.qpu_word.specs.declared.code.TheConstants.{MEMORY_WORDS};
    ghost use Rattle.qpu_mem.specs.Banks.{words_in, IsBanked};

    ghost Value = { List ℕ };

    ghost view = { λ memory. words_in memory.banks.items };

    ghost invariant = { λ memory. IsBanked memory.words memory.banks.items × (memory.words ≤ MEMORY_WORDS) };
}

impl Memory {
    /// So many words, 1 to 1,048,576, all 0. The one error is want of memory.
    pub fn new(alloc: Global, words: u32) -> Result<Memory, NoMemory>
        requires some { 1 ≤ words }
        requires most { words ≤ MEMORY_WORDS }
        ensures { IfOk result (λ memory. memory ≡ replicate words 0) }
    {
        let words = words as usize;
        match clear_banks(alloc, words) {
            Ok(banks) => Ok(Memory { banks, words }),
            Err(_) => Err(NoMemory),
        }
    }

    /// How many words there are.
    pub fn len(&self) -> u32
        ensures words { result ≡ length self.now }
        ensures most { result ≤ MEMORY_WORDS }
    {
        self.words as u32
    }

    /// The word at an index below the length.
    fn word_at(&self, at: u32) -> u32
        requires { at < length self.now }
        ensures { result ≡ slice_index self.now at }
    {
        let at = at as usize;
        self.banks[at / BANK].word(at % BANK)
    }

    /// Sets the word at an index below the length.
    fn set_at(&mut self, at: u32, value: u32)
        requires { at < length self.old }
        ensures { self.new ≡ slice_set self.old at value }
    {
        let at = at as usize;
        self.banks[at / BANK].set(at % BANK, value);
    }

    /// The word at an index; none exactly where the index isn't below the length.
    pub fn word(&self, at: u32) -> Option<u32>
        ensures { result ≡ slice_get self.now at }
    {
        if at < self.len() {
            Some(self.word_at(at))
        } else {
            None
        }
    }

    /// The k-th group of eight words, from 0; the last group has the words that remain, and groups
    /// past it have none.
    pub fn group(&self, k: u32) -> &[u32]
        ensures group { result.now ≡ take GROUP (drop (GROUP * k) self.now) }
        ensures most { length self.now ≤ MEMORY_WORDS }
    {
        let first = k as usize * GROUP;
        if first < self.len() as usize {
            self.banks[first / BANK].group(first % BANK)
        } else {
            &[]
        }
    }

    /// Sets the word at an index. False exactly where the index isn't below the length; then
    /// nothing changes.
    pub fn set(&mut self, at: u32, value: u32) -> bool
        ensures there { IsTrue result ↔ (at < length self.old) }
        ensures words { self.new ≡ (if nat_lt at (length self.old) then slice_set self.old at value else self.old) }
    {
        if self.len() <= at {
            return false;
        }
        self.set_at(at, value);
        true
    }

    /// Whether so many words from an index on are there and stand in one bank.
    fn is_in_bank(&self, at: u32, count: usize) -> bool
        ensures inside { IsTrue result → at + count ≤ length self.now }
        ensures bank { IsTrue result → at % BANK + count ≤ BANK }
    {
        let at = at as usize;
        if count > BANK || at % BANK + count > BANK {
            return false;
        }
        at + count <= self.len() as usize
    }

    /// Copies the words from an index on into a slice, where they are there and stand in one bank of
    /// 4,096. False where they don't; then nothing changes.
    pub fn read(&self, at: u32, out: &mut [u32]) -> bool
        ensures there { IsTrue result → at + length out.old ≤ length self.now }
        ensures done { IsTrue result → out.new ≡ words_from self.now at (length out.old) }
        ensures small { IsTrue result → (i : ℕ) → i < length out.old → slice_index self.now (at + i) < 2 ^ 32 }
        ensures not { result ≡ false → out.new ≡ out.old }
    {
        if out.is_empty() || !self.is_in_bank(at, out.len()) {
            return false;
        }
        let at = at as usize;
        self.banks[at / BANK].read(at % BANK, out);
        true
    }

    /// Replaces the words from an index on by those of a slice, where they are there and stand in one
    /// bank of 4,096. False where they don't; then nothing changes.
    pub fn write(&mut self, at: u32, words: &[u32]) -> bool
        ensures there { IsTrue result → at + length words.now ≤ length self.old }
        ensures done { IsTrue result → self.new ≡ with_words self.old at words.now }
        ensures small { IsTrue result → (i : ℕ) → i < length words.now → slice_index self.old (at + i) < 2 ^ 32 }
        ensures not { result ≡ false → self.new ≡ self.old }
    {
        if words.is_empty() || !self.is_in_bank(at, words.len()) {
            return false;
        }
        let at = at as usize;
        self.banks[at / BANK].write(at % BANK, words);
        true
    }

    /// The element at a byte address, a multiple of the size, extended with zeros; none exactly
    /// where its word's index isn't below the length.
    #[tactic(auto, using(qpu_bytes::proofs::Shapes::place_low))]
    pub fn part(&self, at: u32, size: Size) -> Option<u32>
        requires whole { IsTrue (is_place at size) }
        ensures { result ≡ element self.now at size }
    {
        let word = self.word(at / WORD_BYTES)?;
        Some(part_of(word, at % WORD_BYTES, size))
    }

    /// Sets the element at a byte address, a multiple of the size, to the low bytes of a value; all
    /// other bytes stay. False exactly where its word's index isn't below the length; then nothing
    /// changes.
    #[tactic(auto, using(qpu_bytes::proofs::Shapes::place_low))]
    pub fn set_part(&mut self, at: u32, size: Size, value: u32) -> bool
        requires whole { IsTrue (is_place at size) }
        ensures there { IsTrue result ↔ (at / 4 < length self.old) }
        ensures words { self.new ≡ (if nat_lt (at / 4) (length self.old) then with_part self.old at size value else self.old) }
    {
        let index = at / WORD_BYTES;
        if self.len() <= index {
            return false;
        }
        let word = self.word_at(index);
        self.set_at(index, with_part_of(word, at % WORD_BYTES, size, value));
        true
    }

    /// An equal memory. The one error is want of memory.
    pub fn copy(&self, alloc: Global) -> Result<Memory, NoMemory>
        ensures { IfOk result (λ memory. memory ≡ self.now) }
    {
        match copied_banks(alloc, &self.banks) {
            Ok(banks) => Ok(Memory {
                banks,
                words: self.words,
            }),
            Err(_) => Err(NoMemory),
        }
    }
}
