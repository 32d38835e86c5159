//! Sources and targets.
ghost use Rattle.std.specs.Prelude.{◌≡◌, [], ◌∷◌};
ghost use Rattle.qpu_io.specs.Output.{Prints};
ghost use Rattle.qpu_line.specs.Lines.{Space, Word, source_a, source_b, target_bits, operand_bits, and_then, unpack_bits};
ghost use Rattle.qpu_dis.specs.Text.{bits_text, name_or_dash};

use crate::bit::{put_comma, put_dash, put_name, put_space, put_unpack};
use crate::figure::put_small;
use qpu_io::{Sink, SinkFailed};
use qpu_line::{Name, Operand, Register};
use qpu_word::Place;
use qpu_word::code::{NOWHERE, READ_VPM, ROWS, WRITE_R0, WRITE_R3, WRITE_VPM};

/// What a read address of file A is called.
pub(crate) fn source_a(address: u32) -> Name
    ensures { result ≡ source_a address }
{
    Name::Register(match address {
        0..ROWS => Register::RowA(address),
        READ_VPM => Register::Vpm,
        _ => Register::Source(Place::FileA(address)),
    })
}

/// What a read address of file B is called.
pub(crate) fn source_b(address: u32) -> Name
    ensures { result ≡ source_b address }
{
    Name::Register(match address {
        0..ROWS => Register::RowB(address),
        _ => Register::Source(Place::FileB(address)),
    })
}

/// What a target is called; none of the one that writes nothing.
fn target_name(to: Place) -> Option<Name>
    ensures { target_bits to ≡ name_or_dash result }
{
    match to {
        Place::Both(NOWHERE) => None,
        Place::Both(n @ WRITE_R0..=WRITE_R3) => Some(Name::Register(Register::Accumulator(
            n - WRITE_R0,
        ))),
        Place::Both(WRITE_VPM) => Some(Name::Register(Register::Vpm)),
        Place::FileA(n @ 0..ROWS) => Some(Name::Register(Register::RowA(n))),
        Place::FileB(n @ 0..ROWS) => Some(Name::Register(Register::RowB(n))),
        _ => Some(Name::Register(Register::Target(to))),
    }
}

/// Writes a target.
pub(crate) fn put_target<K: Sink>(to: Place, sink: &mut K) -> Result<(), SinkFailed>
    ensures { Prints (K.shown sink.old) (K.shown sink.new) (bits_text (target_bits to)) result }
{
    match target_name(to) {
        None => put_dash(sink),
        Some(name) => put_name(name, sink),
    }
}

/// Writes a space and a target.
#[tactic(auto, using(crate::proofs::TextLemmas::bits))]
pub(crate) fn put_spaced_target<K: Sink>(to: Place, sink: &mut K) -> Result<(), SinkFailed>
    ensures { Prints (K.shown sink.old) (K.shown sink.new) (bits_text (Space ∷ target_bits to)) result }
{
    put_space(sink)?;
    put_target(to, sink)
}

/// Writes a source of file A.
#[tactic(auto, using(crate::proofs::TextLemmas::bits))]
fn put_source_a<K: Sink>(address: u32, unpack: u32, sink: &mut K) -> Result<(), SinkFailed>
    ensures { Prints (K.shown sink.old) (K.shown sink.new) (bits_text (Word (source_a address) ∷ unpack_bits unpack)) result }
{
    put_name(source_a(address), sink)?;
    put_unpack(unpack, sink)
}

/// Writes an operand.
fn put_operand<K: Sink>(operand: Operand, sink: &mut K) -> Result<(), SinkFailed>
    ensures { Prints (K.shown sink.old) (K.shown sink.new) (bits_text (operand_bits operand)) result }
{
    match operand {
        Operand::Accumulator(n) => put_name(Name::Register(Register::Accumulator(n)), sink),
        Operand::FileA(address, unpack) => put_source_a(address, unpack, sink),
        Operand::FileB(address) => put_name(source_b(address), sink),
        Operand::Small(code) => put_small(code, sink),
    }
}

/// Writes a further operand.
#[tactic(auto, using(crate::proofs::TextLemmas::bits))]
pub(crate) fn put_next<K: Sink>(operand: Operand, sink: &mut K) -> Result<(), SinkFailed>
    ensures { Prints (K.shown sink.old) (K.shown sink.new) (bits_text (and_then (operand_bits operand))) result }
{
    put_comma(sink)?;
    put_operand(operand, sink)
}
