//! What a unit's operand reads.
ghost use Rattle.std.specs.Prelude.{◌≡◌};
ghost use Rattle.qpu_line.specs.Units.{mux_of, row_a, unpack_of, row_b, small_signal};

use qpu_word::code::{MUX_FILE_A, MUX_FILE_B, SIGNAL_SMALL_IMMEDIATE};

/// What a unit's operand reads.
#[derive(Clone, Copy, Debug, PartialEq, Eq)]
pub enum Operand {
    /// An accumulator, 0 to 5.
    Accumulator(u32),
    /// A read address of file A, with an unpack mode.
    FileA(u32, u32),
    /// A read address of file B.
    FileB(u32),
    /// The code of a small immediate.
    Small(u32),
}

impl Operand {
    /// Its mux.
    pub(crate) fn mux(self) -> u32
        ensures { result ≡ mux_of self }
    {
        match self {
            Operand::Accumulator(n) => n,
            Operand::FileA(..) => MUX_FILE_A,
            Operand::FileB(_) | Operand::Small(_) => MUX_FILE_B,
        }
    }

    /// Its read address of file A, or another in its place.
    pub(crate) fn row_a(self, rest: u32) -> u32
        ensures { result ≡ row_a self rest }
    {
        match self {
            Operand::FileA(address, _) => address,
            _ => rest,
        }
    }

    /// Its unpack mode, or another in its place.
    pub(crate) fn unpack(self, rest: u32) -> u32
        ensures { result ≡ unpack_of self rest }
    {
        match self {
            Operand::FileA(_, unpack) => unpack,
            _ => rest,
        }
    }

    /// Its read address of file B or its code, or another in its place.
    pub(crate) fn row_b(self, rest: u32) -> u32
        ensures { result ≡ row_b self rest }
    {
        match self {
            Operand::FileB(address) => address,
            Operand::Small(code) => code,
            _ => rest,
        }
    }

    /// The signal that it asks for, or another in its place.
    pub(crate) fn signal(self, rest: u32) -> u32
        ensures { result ≡ small_signal self rest }
    {
        match self {
            Operand::Small(_) => SIGNAL_SMALL_IMMEDIATE,
            _ => rest,
        }
    }
}
