ghost use Rattle.std.specs.Prelude.{◌≡◌, ℕ, ◌<◌, ◌≤◌, ◌+◌, ◌*◌, ◌^◌, length, replicate, slice_index, slice_set, take, drop, IsTrue};
ghost use Rattle.qpu_word.specs.declared.code.TheConstants.{VPM_ROWS, VPM_COLUMNS, VPM_BYTES};
ghost use Rattle.qpu_bytes.specs.Elements.{is_place, part, with_part, words_from, with_words};
ghost use Rattle.qpu_vpm.specs.Cells.{vector_places};
ghost use Rattle.qpu_vpm.specs.Values.{vpm_values, with_values};

use crate::setup::VectorSetup;
use qpu_bytes::{Size, part_of, with_part_of};
use qpu_word::code::{VPM_COLUMNS, VPM_ROWS, WORD_BYTES};
use qpu_word::{LANES, Lanes};
use std::marker::Model;

/// How many words a row has.
const COLUMNS: usize = VPM_COLUMNS as usize;

/// How many words there are.
const WORDS: usize = VPM_ROWS as usize * COLUMNS;

/// The VPM: 64 rows of sixteen words. Contracts see its 1,024 words, row by row.
#[derive(Debug, Drop)]
pub struct Vpm {
    words: [u32; WORDS],
}

impl Model for Vpm {
    ghost use Rattle.std.specs.Prelude.{List, ℕ, ◌≡◌, ◌*◌, length};
    ghost use Rattle.qpu_word.specs.declared.code.TheConstants.{VPM_ROWS, VPM_COLUMNS};

    ghost Value = { List ℕ };

    ghost view = { λ vpm. vpm.words };

    ghost invariant = { λ vpm. length vpm.words ≡ VPM_ROWS * VPM_COLUMNS };
}

impl Vpm {
    /// A VPM whose words are all 0.
    pub fn new() -> Vpm
        ensures { result ≡ replicate (VPM_ROWS * VPM_COLUMNS) 0 }
    {
        Vpm { words: [0; WORDS] }
    }

    /// A VPM with the same words.
    pub fn copy(&self) -> Vpm
        ensures { result ≡ self.now }
    {
        Vpm { words: self.words }
    }

    /// The word in a row, below 64, and a column, below 16.
    pub fn word(&self, row: u32, column: u32) -> u32
        requires row { row < VPM_ROWS }
        requires column { column < VPM_COLUMNS }
        ensures word { result ≡ slice_index self.now (VPM_COLUMNS * row + column) }
        ensures long { length self.now ≡ VPM_ROWS * VPM_COLUMNS }
    {
        self.words[(VPM_COLUMNS * row + column) as usize]
    }

    /// The sixteen words of a row, below 64.
    pub fn row(&self, row: u32) -> &[u32]
        requires { row < VPM_ROWS }
        ensures { result.now ≡ take VPM_COLUMNS (drop (VPM_COLUMNS * row) self.now) }
    {
        let first = (VPM_COLUMNS * row) as usize;
        &self.words[first..first + COLUMNS]
    }

    /// Sets the word in a row, below 64, and a column, below 16.
    pub fn set(&mut self, row: u32, column: u32, value: u32)
        requires row { row < VPM_ROWS }
        requires column { column < VPM_COLUMNS }
        ensures words { self.new ≡ slice_set self.old (VPM_COLUMNS * row + column) value }
        ensures long { length self.new ≡ VPM_ROWS * VPM_COLUMNS }
    {
        self.words[(VPM_COLUMNS * row + column) as usize] = value;
    }

    /// Copies the words from an index on, below 1,024, into a slice.
    pub fn read(&self, at: u32, out: &mut [u32])
        requires { at + length out.old ≤ VPM_ROWS * VPM_COLUMNS }
        ensures words { out.new ≡ words_from self.now at (length out.old) }
        ensures small { (i : ℕ) → slice_index self.now i < 2 ^ 32 }
        ensures long { length self.now ≡ VPM_ROWS * VPM_COLUMNS }
    {
        let at = at as usize;
        out.copy_from_slice(&self.words[at..at + out.len()]);
    }

    /// Replaces the words from an index on, below 1,024, by those of a slice.
    pub fn write(&mut self, at: u32, words: &[u32])
        requires { at + length words.now ≤ VPM_ROWS * VPM_COLUMNS }
        ensures words { self.new ≡ with_words self.old at words.now }
        ensures small { (i : ℕ) → slice_index self.old i < 2 ^ 32 }
        ensures long { length self.old ≡ VPM_ROWS * VPM_COLUMNS }
    {
        let at = at as usize;
        self.words[at..at + words.len()].copy_from_slice(words);
    }

    /// The element at a byte place, below 4,096 and a multiple of the size, extended with zeros.
    #[tactic(auto, using(qpu_bytes::proofs::Shapes::place_low))]
    pub fn part(&self, place: u32, size: Size) -> u32
        requires place { place < VPM_BYTES }
        requires whole { IsTrue (is_place place size) }
        ensures part { result ≡ part self.now place size }
        ensures long { length self.now ≡ VPM_ROWS * VPM_COLUMNS }
    {
        part_of(
            self.words[(place / WORD_BYTES) as usize],
            place % WORD_BYTES,
            size,
        )
    }

    /// Sets the element at a byte place, below 4,096 and a multiple of the size, to the low bytes of
    /// a value. All other bytes stay.
    #[tactic(auto, using(qpu_bytes::proofs::Shapes::place_low))]
    pub fn set_part(&mut self, place: u32, size: Size, value: u32)
        requires place { place < VPM_BYTES }
        requires whole { IsTrue (is_place place size) }
        ensures words { self.new ≡ with_part self.old place size value }
        ensures long { length self.new ≡ VPM_ROWS * VPM_COLUMNS }
    {
        let at = (place / WORD_BYTES) as usize;
        self.words[at] = with_part_of(self.words[at], place % WORD_BYTES, size, value);
    }

    /// The vector of the k-th access of a setup, from 0: its elements extended with zeros (Guide,
    /// "VPM Vertical Access" and "VPM Horizontal Access").
    pub fn vector(&self, setup: VectorSetup, k: u32) -> Lanes
        ensures { result.v ≡ vpm_values self.now setup.size (vector_places setup k) }
    {
        let strand = setup.strand(k);
        let mut out = [0; LANES];
        for i in 0..LANES {
            out[i] = self.part(strand.place(i as u32), setup.size);
        }
        Lanes { v: out }
    }

    /// Writes the low bytes of a vector's lanes to the elements of the k-th access of a setup, from
    /// 0; all other bytes stay.
    pub fn put_vector(&mut self, setup: VectorSetup, k: u32, value: &Lanes)
        ensures { self.new ≡ with_values self.old setup.size (vector_places setup k) value.now.v }
    {
        let strand = setup.strand(k);
        for i in 0..LANES {
            self.set_part(strand.place(i as u32), setup.size, value.v[i]);
        }
    }
}
