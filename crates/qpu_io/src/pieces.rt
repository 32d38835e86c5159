//! Texts written piece by piece.

ghost use Rattle.std.specs.Prelude.{◌≡◌};
ghost use Rattle.qpu_io.specs.Output.{Prints};
ghost use Rattle.qpu_io.specs.Text.{lane_text, lanes_text, piece_text, pieces_text};

use crate::stream::{Sink, SinkFailed};
use crate::writing::write_all_of;
use itoa::Buffer;
use qpu_text::hex_digits;

/// A piece of a line.
#[derive(Clone, Copy, Debug)]
pub enum Piece<'a> {
    /// These bytes.
    Text(&'a [u8]),
    /// A number in decimal.
    Decimal(u64),
    /// The low sixteen bits of a mask as four lower-case hexadecimal digits.
    Mask(u32),
    /// A word as eight lower-case hexadecimal digits.
    Word(u32),
    /// An instruction word as sixteen lower-case hexadecimal digits.
    Instruction(u64),
    /// Words, each behind a space.
    Lanes(&'a [u32]),
}

/// Writes the pieces one behind the other.
pub fn put_all<K: Sink>(pieces: &[Piece<'_>], sink: &mut K) -> Result<(), SinkFailed>
    ensures { Prints (K.shown sink.old) (K.shown sink.new) (pieces_text pieces.now) result }
{
    for piece in pieces {
        put_piece(*piece, sink)?;
    }
    Ok(())
}

fn put_piece<K: Sink>(piece: Piece<'_>, sink: &mut K) -> Result<(), SinkFailed>
    ensures { Prints (K.shown sink.old) (K.shown sink.new) (piece_text piece.entry) result }
{
    match piece {
        Piece::Text(bytes) => write_all_of(sink, bytes),
        Piece::Decimal(n) => write_all_of(sink, Buffer::new().format(n).as_bytes()),
        Piece::Mask(n) => write_all_of(sink, &hex_digits::<4>(u64::from(n))),
        Piece::Word(n) => write_all_of(sink, &hex_digits::<8>(u64::from(n))),
        Piece::Instruction(n) => write_all_of(sink, &hex_digits::<16>(n)),
        Piece::Lanes(lanes) => put_lanes(lanes, sink),
    }
}

fn put_lanes<K: Sink>(lanes: &[u32], sink: &mut K) -> Result<(), SinkFailed>
    ensures { Prints (K.shown sink.old) (K.shown sink.new) (lanes_text lanes.now) result }
{
    for lane in lanes {
        write_all_of(sink, &lane_of(*lane))?;
    }
    Ok(())
}

// A lane: a space and its digits.
fn lane_of(n: u32) -> [u8; 9]
    ensures { result ≡ lane_text n }
{
    let [a, b, c, d, e, f, g, h] = hex_digits::<8>(u64::from(n));
    [b' ', a, b, c, d, e, f, g, h]
}
