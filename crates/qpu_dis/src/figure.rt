//! Numbers as lines have them.
ghost use Rattle.std.specs.Prelude.{[], ◌∷◌};
ghost use Rattle.qpu_io.specs.Output.{Prints};
ghost use Rattle.qpu_line.specs.Lines.{Number, Decimal, Negative, Hexadecimal, small_figure, signed_figure};
ghost use Rattle.qpu_dis.specs.Text.{bits_text};

use qpu_io::{Piece, Sink, SinkFailed, put_all};
use qpu_pack::immediate_of;

/// Writes a number in decimal.
#[tactic(auto, unfolding(crate::specs::Text::bits_text))]
pub(crate) fn put_decimal<K: Sink>(n: u32, sink: &mut K) -> Result<(), SinkFailed>
    ensures { Prints (K.shown sink.old) (K.shown sink.new) (bits_text (Number (Decimal n) ∷ [])) result }
{
    put_all(&[Piece::Decimal(u64::from(n))], sink)
}

/// Writes a number in decimal, behind a sign.
#[tactic(auto, unfolding(crate::specs::Text::bits_text))]
fn put_negative<K: Sink>(n: u64, sink: &mut K) -> Result<(), SinkFailed>
    ensures { Prints (K.shown sink.old) (K.shown sink.new) (bits_text (Number (Negative n) ∷ [])) result }
{
    put_all(&[Piece::Text(b"-"), Piece::Decimal(n)], sink)
}

/// Writes a number in hexadecimal.
#[tactic(auto, unfolding(crate::specs::Text::bits_text))]
pub(crate) fn put_hexadecimal<K: Sink>(n: u32, sink: &mut K) -> Result<(), SinkFailed>
    ensures { Prints (K.shown sink.old) (K.shown sink.new) (bits_text (Number (Hexadecimal n) ∷ [])) result }
{
    put_all(&[Piece::Text(b"0x"), Piece::Word(n)], sink)
}

/// The first code of a small immediate whose value is a power of 2 (Guide, "QPU Instruction
/// Encoding").
const FIRST_POWER: u32 = 32;

/// Half of the numbers of 32 bits, and all.
const SIGNED_NUMBERS: u32 = 1 << 31;

const NUMBERS: u64 = 1 << 32;

/// Writes a number of 32 bits with its sign.
pub(crate) fn put_signed<K: Sink>(n: u32, sink: &mut K) -> Result<(), SinkFailed>
    ensures { Prints (K.shown sink.old) (K.shown sink.new) (bits_text (Number (signed_figure n) ∷ [])) result }
{
    if n < SIGNED_NUMBERS {
        put_decimal(n, sink)
    } else {
        put_negative(NUMBERS - u64::from(n), sink)
    }
}

/// Writes the immediate of a code: a whole number with its sign, a power of 2 in hexadecimal.
pub(crate) fn put_small<K: Sink>(code: u32, sink: &mut K) -> Result<(), SinkFailed>
    ensures { Prints (K.shown sink.old) (K.shown sink.new) (bits_text (Number (small_figure code) ∷ [])) result }
{
    let value = immediate_of(code);
    if code < FIRST_POWER {
        put_signed(value, sink)
    } else {
        put_hexadecimal(value, sink)
    }
}
