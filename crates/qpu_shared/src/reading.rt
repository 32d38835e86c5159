//! What an instruction reads from the shared parts.
ghost use Rattle.std.specs.Prelude.{◌≡◌, ◌<◌, ◌/◌, ℕ, None, option_map, slice_index, IfOk, if◌then◌else◌};
ghost use Rattle.qpu_word.specs.Lanes.{lanes};
ghost use Rattle.qpu_word.specs.Words.{reads};
ghost use Rattle.qpu_tmu.specs.Looks.{oldest_words};
ghost use Rattle.qpu_word.specs.Processor.{ProcessorState};
ghost use Rattle.qpu_word.specs.Books.{IsSoundBook};
ghost use Rattle.qpu_shared.specs.Instruction.{if_needed, next_vector, taken_words, or_zeros, pending_of, looks_of, ins_of, after_uniform_read, after_vpm_read, after_reads};

use crate::shared::Shared;
use qpu_vpm::VectorSetup;
use qpu_word::code::{READ_DMA_BUSY, READ_UNIFORM, READ_VPM, WORD_BYTES};
use qpu_word::{Book, FaultKind, Fields, Ins, LANES, Lanes, Vectors};

/// Sixteen zeros.
#[tactic(auto, unfolding(qpu_word::specs::Lanes::lanes))]
fn zeros() -> Lanes
    ensures { result.v ≡ or_zeros None }
{
    Lanes { v: [0; LANES] }
}

impl Shared {
    /// The word of memory at an index, 0 outside memory.
    #[tactic(auto, using(crate::proofs::SharedLemmas::word_or_zero))]
    pub(crate) fn word(&self, at: u32) -> u32
        ensures { result ≡ slice_index self.now.memory at }
    {
        self.memory.word(at).unwrap_or(0)
    }

    /// The uniform at a byte address, whose low two bits are without effect; 0 where the word
    /// needs none.
    fn uniform(&self, f: &Fields, address: u32) -> u32
        ensures { result ≡ if_needed (reads f.now READ_UNIFORM) (slice_index self.now.memory (address / 4)) }
    {
        if f.reads(READ_UNIFORM) {
            self.word(address / WORD_BYTES)
        } else {
            0
        }
    }

    /// The vector of the next access of a setup; none reads zeros.
    fn next_vector(&self, setup: Option<Vectors>) -> Lanes
        ensures { result.v ≡ next_vector setup self.now.vpm }
    {
        match setup {
            Some(vectors) => self
                .vpm
                .vector(VectorSetup::of(vectors.setup), vectors.done),
            None => zeros(),
        }
    }

    /// The words of the oldest look-up of TMU unit u, 0 or 1, of processor q.
    fn oldest(&self, q: u32, u: u32) -> Option<Lanes>
        requires { u < 2 }
        ensures { option_map (λ words. words.v) result ≡ oldest_words (looks_of (pending_of self.now q) u) }
    {
        match self.pending.get(q as usize) {
            Some(pending) => pending.looks.oldest(u),
            None => None,
        }
    }

    /// The words that a TMU load takes.
    fn taken_words(&self, f: &Fields, q: u32) -> Option<Lanes>
        ensures { option_map (λ words. words.v) result ≡ taken_words f.now (pending_of self.now q) }
    {
        if f.is_tmu_load(0) {
            self.oldest(q, 0)
        } else if f.is_tmu_load(1) {
            self.oldest(q, 1)
        } else {
            None
        }
    }

    /// The words that a TMU load takes, zeros where there are none.
    fn loaded(&self, f: &Fields, q: u32) -> Lanes
        ensures { result.v ≡ or_zeros (taken_words f.now (pending_of self.now q)) }
    {
        match self.taken_words(f, q) {
            Some(words) => words,
            None => zeros(),
        }
    }

    /// What the VPM gives to a word.
    fn vpm_read(&self, f: &Fields, book: &Book) -> Lanes
        ensures { result.v ≡ (if reads f.now READ_VPM then next_vector book.now.first self.now.vpm else lanes (λ i. 0)) }
    {
        if f.reads(READ_VPM) {
            self.next_vector(book.first)
        } else {
            zeros()
        }
    }

    /// What a word of processor q reads, by its book.
    #[tactic(auto, unfolding(crate::specs::Instruction::ins_of))]
    pub(crate) fn ins(&self, f: &Fields, q: u32, book: &Book) -> Ins
        ensures { (p : ProcessorState) → p.q ≡ q → p.book ≡ book.now → result ≡ ins_of f.now p self.now }
    {
        Ins {
            uniform: self.uniform(f, book.uniform_at),
            vpm: self.vpm_read(f, book),
            load_busy: f.reads_a(READ_DMA_BUSY) && self.load_pending(q),
            store_busy: f.reads_b(READ_DMA_BUSY) && self.store_pending(q),
            loaded: self.loaded(f, q),
        }
    }

    /// The book after a uniform read, which moves the uniforms address once; `Uniform` where the
    /// word lies outside memory.
    fn after_uniform_read(&self, f: &Fields, book: Book) -> Result<Book, FaultKind>
        ensures value { result ≡ after_uniform_read f.now self.now.memory book }
        ensures sound { IsSoundBook book → IfOk result IsSoundBook }
    {
        if !f.reads(READ_UNIFORM) {
            Ok(book)
        } else if book.uniform_at / WORD_BYTES < self.memory.len() {
            Ok(Book {
                uniform_at: book.uniform_at.wrapping_add(WORD_BYTES),
                ..book
            })
        } else {
            Err(FaultKind::Uniform)
        }
    }

    /// The book after what a word reads: a uniform, then a vector of the VPM.
    #[tactic(auto, unfolding(crate::specs::Instruction::after_reads))]
    pub(crate) fn after_reads(&self, f: &Fields, book: Book) -> Result<Book, FaultKind>
        requires { IsSoundBook book }
        ensures value { result ≡ after_reads f.now self.now.memory book }
        ensures sound { IfOk result IsSoundBook }
    {
        let book = self.after_uniform_read(f, book)?;
        after_vpm_read(f, book)
    }
}

/// The book after a VPM read, where there is one; `NoSetup` where no read setup is left.
fn after_vpm_read(f: &Fields, book: Book) -> Result<Book, FaultKind>
    requires { IsSoundBook book }
    ensures value { result ≡ after_vpm_read f.now book }
    ensures sound { IfOk result IsSoundBook }
{
    let mut book = book;
    if f.reads(READ_VPM) {
        book.take_vector()?;
    }
    Ok(book)
}
