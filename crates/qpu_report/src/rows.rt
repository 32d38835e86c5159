//! Rows of values, and masks of flags.
ghost use Rattle.std.specs.Prelude.{◌≡◌, Some};
ghost use Rattle.qpu_io.specs.Output.{Prints};
ghost use Rattle.qpu_io.specs.Text.{piece_text};
ghost use Rattle.qpu_report.specs.Report.{is_clear, row_line, carry_text, zn_line, flags_line};

use qpu_io::{Piece, Sink, SinkFailed, put_all};
use qpu_word::Flags;

/// Whether all values are 0.
pub(crate) fn is_clear(values: &[u32]) -> bool
    ensures { result ≡ is_clear values.now }
{
    values.iter().all(|n| *n == 0)
}

/// Writes the line of row k under its name, where some value of it isn't 0.
#[tactic(auto, using(qpu_io::proofs::Outputs::appended_none))]
pub(crate) fn put_row<'a, K: Sink>(
    name: &'a [u8],
    k: u32,
    values: &'a [u32],
    sink: &mut K,
) -> Result<(), SinkFailed>
    ensures { Prints (K.shown sink.old) (K.shown sink.new) (row_line name.now k values.now) result }
{
    if is_clear(values) {
        return Ok(());
    }
    let pieces = [
        Piece::Text(name),
        Piece::Decimal(u64::from(k)),
        Piece::Lanes(values),
        Piece::Text(b"\n"),
    ];
    put_all(&pieces, sink)
}

/// Writes the line of the flags, where Z and N are defined.
#[tactic(auto, using(qpu_io::proofs::Outputs::appended_none))]
pub(crate) fn put_flags<K: Sink>(flags: &Flags, sink: &mut K) -> Result<(), SinkFailed>
    ensures { Prints (K.shown sink.old) (K.shown sink.new) (flags_line flags.now) result }
{
    match flags.zn {
        None => Ok(()),
        Some((z, n)) => put_masks(z, n, flags.c, sink),
    }
}

fn put_masks<K: Sink>(z: u32, n: u32, c: Option<u32>, sink: &mut K) -> Result<(), SinkFailed>
    ensures { Prints (K.shown sink.old) (K.shown sink.new) (zn_line (Some (z, n)) c) result }
{
    let pieces = [
        Piece::Text(b"flags z "),
        Piece::Mask(z),
        Piece::Text(b" n "),
        Piece::Mask(n),
        Piece::Text(b" c "),
        carry_piece(c),
        Piece::Text(b"\n"),
    ];
    put_all(&pieces, sink)
}

fn carry_piece(c: Option<u32>) -> Piece<'static>
    ensures { piece_text result ≡ carry_text c }
{
    match c {
        None => Piece::Text(b"----"),
        Some(c) => Piece::Mask(c),
    }
}
