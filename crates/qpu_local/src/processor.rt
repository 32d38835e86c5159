ghost use Rattle.std.specs.Prelude.{◌≡◌, ◌<◌, if◌then◌else◌, length};
ghost use Rattle.qpu_word.specs.Operands.{row_of};
ghost use Rattle.qpu_word.specs.Processor.{opening_book, opening_processor};
ghost use Rattle.qpu_word.specs.Books.{IsSoundBook};

use qpu_word::{Book, Flags, Halt, LANES, Lanes, Rest, code};
use std::marker::Model;

/// Rows of a file.
const ROWS: usize = code::ROWS as usize;

/// Accumulators, r0 to r5.
const ACCUMULATORS: usize = 6;

/// A processor: two files of 32 rows of sixteen lanes, six accumulators, flags, the place of its
/// next word, its setups and counts. Contracts see it as a `ProcessorState`.
#[derive(Clone, Copy, Debug)]
pub struct Processor {
    pub(crate) q: u32,
    pub(crate) file_a: [[u32; LANES]; ROWS],
    pub(crate) file_b: [[u32; LANES]; ROWS],
    pub(crate) accumulators: [[u32; LANES]; ACCUMULATORS],
    pub(crate) flags: Flags,
    pub(crate) place: u32,
    pub(crate) rest: Rest,
    pub(crate) book: Book,
    pub(crate) executed: u32,
    pub(crate) interrupts: u32,
    pub(crate) halt: Halt,
}

/// A book in which nothing was given but the uniforms address.
fn opening_book(uniforms: u32) -> Book
    ensures { result ≡ opening_book uniforms }
{
    Book {
        uniform_at: uniforms,
        first: None,
        second: None,
        writes: None,
        load: None,
        load_pitch: 0,
        store: None,
        store_stride: 0,
    }
}

impl Model for Processor {
    ghost use Rattle.qpu_word.specs.Processor.{ProcessorState};

    ghost Value = { ProcessorState };

    ghost use Rattle.qpu_local.specs.Views.{processor_state, fields_back, IsSoundProcessor};

    ghost view = { processor_state };

    ghost invariant = { IsSoundProcessor };

    ghost inverse = { fields_back };
}

impl Processor {
    /// Processor q before any step, with the byte address of its uniforms: all registers are 0.
    #[tactic(auto, unfolding(qpu_word::specs::Processor::opening_processor, qpu_word::specs::Lanes::lanes), using(qpu_word::proofs::BookLemmas::opening_sound))]
    pub fn new(q: u32, uniforms: u32) -> Processor
        requires { q < 12 }
        ensures { result ≡ opening_processor q uniforms }
    {
        Processor {
            q,
            file_a: [[0; LANES]; ROWS],
            file_b: [[0; LANES]; ROWS],
            accumulators: [[0; LANES]; ACCUMULATORS],
            flags: Flags { zn: None, c: None },
            place: 0,
            rest: Rest::Straight,
            book: opening_book(uniforms),
            executed: 0,
            interrupts: 0,
            halt: Halt::Going,
        }
    }

    /// The number, below 12.
    pub fn q(&self) -> u32
        ensures { result ≡ self.now.q }
    {
        self.q
    }

    /// What it was given for its accesses; its setups are valid ones.
    pub(crate) fn book_now(&self) -> Book
        ensures book { result ≡ self.now.book }
        ensures sound { IsSoundBook result }
    {
        self.book
    }

    /// The place of the next word, counted in words from 0.
    pub fn place(&self) -> u32
        ensures { result ≡ self.now.place }
    {
        self.place
    }

    /// How many instructions were executed.
    pub fn executed(&self) -> u32
        ensures { result ≡ self.now.executed }
    {
        self.executed
    }

    /// How many interrupts of the host were raised.
    pub fn interrupts(&self) -> u32
        ensures { result ≡ self.now.interrupts }
    {
        self.interrupts
    }

    /// A row of file A or B, with `at` below 32.
    pub fn row(&self, file_b: bool, at: u32) -> Lanes
        requires { at < 32 }
        ensures value { result.v ≡ row_of (if file_b then self.now.file_b else self.now.file_a) at }
        ensures rows { length (if file_b then self.now.file_b else self.now.file_a) ≡ 32 }
    {
        if file_b {
            Lanes {
                v: self.file_b[at as usize],
            }
        } else {
            Lanes {
                v: self.file_a[at as usize],
            }
        }
    }

    /// An accumulator, with n below 6: r0 to r5.
    pub fn accumulator(&self, n: u32) -> Lanes
        requires { n < 6 }
        ensures value { result.v ≡ row_of self.now.accumulators n }
        ensures accumulators { length self.now.accumulators ≡ 6 }
    {
        Lanes {
            v: self.accumulators[n as usize],
        }
    }

    /// The flags as masks, lane i at bit i.
    pub fn flags(&self) -> Flags
        ensures { result ≡ self.now.flags }
    {
        self.flags
    }

    /// Whether it goes on, has ended, or faulted and where.
    pub fn halt(&self) -> Halt
        ensures { result ≡ self.now.halt }
    {
        self.halt
    }
}
