//! Semaphore instructions (Guide, "QPU Instruction Encoding").
ghost use Rattle.std.specs.Prelude.{◌≡◌};
ghost use Rattle.qpu_line.specs.Semaphores.{semaphore_of, semaphore_high, semaphore_low, semaphore_word};

use crate::slots::{ADD_ADDRESS, KIND, MUL_ADDRESS, SIGNAL, join};
use qpu_word::Fields;
use qpu_word::code::{KIND_SEMAPHORE, NOWHERE, SIGNAL_LOAD_IMMEDIATE};

/// A step of a semaphore.
#[derive(Clone, Copy, Debug, PartialEq, Eq)]
pub struct Semaphore {
    /// Whether it is decremented.
    pub down: bool,
    /// Its number, below 16.
    pub number: u32,
}

/// How many semaphores there are, and the bit of a word that decrements.
const SEMAPHORES: u32 = 16;

/// The upper half of every semaphore word.
const HIGH: u32 = SIGNAL_LOAD_IMMEDIATE * SIGNAL
    + KIND_SEMAPHORE * KIND
    + NOWHERE * ADD_ADDRESS
    + NOWHERE * MUL_ADDRESS;

impl Semaphore {
    /// The semaphore instruction of a word's fields.
    pub(crate) fn of(f: &Fields) -> Semaphore
        ensures { result ≡ semaphore_of f.now }
    {
        Semaphore {
            down: f.down == 1,
            number: f.number,
        }
    }

    /// The lower half of its word.
    fn low(self) -> u32
        ensures { result ≡ semaphore_low self }
    {
        (if self.down { SEMAPHORES } else { 0 }) + self.number % SEMAPHORES
    }

    /// Its word, as a number.
    pub(crate) fn word(self) -> u64
        ensures { result ≡ semaphore_word self }
    {
        join(HIGH, self.low())
    }
}
