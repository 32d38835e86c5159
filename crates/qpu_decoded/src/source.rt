//! Where the lanes of an operand come from.
ghost use Rattle.std.specs.Prelude.{◌≡◌};
ghost use Rattle.qpu_decoded.specs.Sources.{source_a, source_b, source_of};

use qpu_pack::immediate_of;
use qpu_word::Fields;
use qpu_word::code::{MUX_FILE_A, MUX_FILE_B, READ_NUMBER, ROWS};

/// Where the sixteen lanes of an operand come from (Guide, "QPU Register Address Map").
#[derive(Clone, Copy, Debug, PartialEq, Eq)]
pub enum Source {
    /// A row of file A, below 32.
    FileA(u32),
    /// A row of file B, below 32.
    FileB(u32),
    /// An accumulator, r0 to r5.
    Accumulator(u32),
    /// One number in all lanes.
    All(u32),
    /// The processor's number in all lanes.
    QpuNumber,
    /// Each lane's number.
    ElementNumber,
}

/// Where a read address of file A gets its value.
fn source_a(address: u32) -> Source
    ensures { result ≡ source_a address }
{
    if address < ROWS {
        Source::FileA(address)
    } else if address == READ_NUMBER {
        Source::ElementNumber
    } else {
        Source::All(0)
    }
}

/// Where a read address of file B gets its value.
fn source_b(address: u32) -> Source
    ensures { result ≡ source_b address }
{
    if address < ROWS {
        Source::FileB(address)
    } else if address == READ_NUMBER {
        Source::QpuNumber
    } else {
        Source::All(0)
    }
}

/// Where a mux of a word that reads nothing of the shared parts gets its value, before unpacking.
#[tactic(auto, unfolding(crate::specs::Sources::source_of))]
pub(crate) fn source_of(f: &Fields, mux: u32) -> Source
    ensures { result ≡ source_of f.now mux }
{
    if mux == MUX_FILE_A {
        source_a(f.raddr_a)
    } else if mux != MUX_FILE_B {
        Source::Accumulator(mux)
    } else if f.is_small() {
        Source::All(immediate_of(f.raddr_b))
    } else {
        source_b(f.raddr_b)
    }
}
