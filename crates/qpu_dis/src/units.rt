//! Lines of instructions in which both units compute.
ghost use Rattle.std.specs.Prelude.{◌≡◌, false, ◌++◌, ◌∷◌, ◌||◌, ◌&&◌, ◌==◌, [], not, is_some, if◌then◌else◌};
ghost use Rattle.qpu_io.specs.Output.{Prints};
ghost use Rattle.qpu_word.specs.Operations.{add_op, mul_op};
ghost use Rattle.qpu_word.specs.Words.{is_unary};
ghost use Rattle.qpu_line.specs.Lines.{Space, Word, Number, condition_bits, flags_bits, target_bits, pack_bits, operand_bits, and_then, part_bits, add_name, mul_name, add_bits, mul_bits, signal_bits, source_a, source_b, other_bits, behind, units_bits};
ghost use Rattle.qpu_line.specs.declared.name.Name.TheVariants.{ReadA, ReadB};
ghost use Rattle.qpu_line.specs.declared.units.Signal.TheVariants.{Rotate};
ghost use Rattle.qpu_dis.specs.Text.{bits_text, second_bits, rotation_bit, parts_bits};

use crate::bit::{put_later_names, put_name, put_pack, put_semicolon, put_space, put_suffixes};
use crate::figure::put_decimal;
use crate::place::{put_next, put_target, source_a, source_b};
use qpu_io::{Sink, SinkFailed};
use qpu_line::{Name, Operand, Part, Register, Signal, Units};
use qpu_word::code::ROTATE_BY_R5;
use qpu_word::{AddOp, MulOp};

/// The codes of the add unit's operations with one operand.
const NOT: u32 = 23;

const CLZ: u32 = 24;

/// Writes the second operand of an operation that has two.
#[tactic(auto, using(crate::proofs::TextLemmas::no_bits))]
fn put_second<K: Sink>(one: bool, operand: Operand, sink: &mut K) -> Result<(), SinkFailed>
    ensures { Prints (K.shown sink.old) (K.shown sink.new) (bits_text (second_bits one operand)) result }
{
    if one {
        return Ok(());
    }
    put_next(operand, sink)
}

/// Writes a part's target.
#[tactic(auto, using(crate::proofs::TextLemmas::bits))]
fn put_packed<K: Sink>(part: &Part, sink: &mut K) -> Result<(), SinkFailed>
    ensures { Prints (K.shown sink.old) (K.shown sink.new) (bits_text (target_bits part.now.to ++ pack_bits part.now.pack)) result }
{
    put_target(part.to, sink)?;
    put_pack(part.pack, sink)
}

/// Writes a part's target and first operand.
#[tactic(auto, using(crate::proofs::TextLemmas::bits))]
fn put_first<K: Sink>(part: &Part, sink: &mut K) -> Result<(), SinkFailed>
    ensures { Prints (K.shown sink.old) (K.shown sink.new)
        (bits_text (target_bits part.now.to ++ pack_bits part.now.pack ++ and_then (operand_bits part.now.a))) result }
{
    put_packed(part, sink)?;
    put_next(part.a, sink)
}

/// Writes a part's target and operands.
#[tactic(auto, using(crate::proofs::TextLemmas::bits))]
fn put_places<K: Sink>(one: bool, part: &Part, sink: &mut K) -> Result<(), SinkFailed>
    ensures { Prints (K.shown sink.old) (K.shown sink.new)
        (bits_text (Space ∷ target_bits part.now.to ++ pack_bits part.now.pack ++ and_then (operand_bits part.now.a) ++ second_bits one part.now.b)) result }
{
    put_space(sink)?;
    put_first(part, sink)?;
    put_second(one, part.b, sink)
}

/// Writes an operation and its suffixes.
#[tactic(auto, using(crate::proofs::TextLemmas::bits))]
fn put_operation<K: Sink>(op: Name, cond: u32, sets: bool, sink: &mut K) -> Result<(), SinkFailed>
    ensures { Prints (K.shown sink.old) (K.shown sink.new) (bits_text (Word op ∷ condition_bits cond ++ flags_bits sets)) result }
{
    put_name(op, sink)?;
    put_suffixes(cond, sets, sink)
}

/// Writes a part.
fn put_part<K: Sink>(
    op: Name,
    one: bool,
    sets: bool,
    part: &Part,
    sink: &mut K,
) -> Result<(), SinkFailed>
    ensures { Prints (K.shown sink.old) (K.shown sink.new) (bits_text (part_bits op one sets part.now)) result }
{
    put_operation(op, part.cond, sets, sink)?;
    put_places(one, part, sink)
}

/// The name of an operation of the add unit.
fn add_name(op: Option<AddOp>) -> Name
    ensures { result ≡ add_name op }
{
    match op {
        None => Name::Nop,
        Some(op) => Name::Add(op),
    }
}

/// The name of an operation of the mul unit.
fn mul_name(op: Option<MulOp>) -> Name
    ensures { result ≡ mul_name op }
{
    match op {
        None => Name::Nop,
        Some(MulOp::V8adds) => Name::Add(AddOp::V8adds),
        Some(MulOp::V8subs) => Name::Add(AddOp::V8subs),
        Some(op) => Name::Mul(op),
    }
}

/// Writes the add unit's part.
fn put_add<K: Sink>(sets: bool, part: Option<Part>, sink: &mut K) -> Result<(), SinkFailed>
    ensures { Prints (K.shown sink.old) (K.shown sink.new) (bits_text (add_bits sets part)) result }
{
    match part {
        None => put_name(Name::Nop, sink),
        Some(part) => {
            let one = part.op == NOT || part.op == CLZ;
            put_part(add_name(AddOp::of(part.op)), one, sets, &part, sink)
        }
    }
}

/// Writes the mul unit's part behind another.
#[tactic(auto, using(crate::proofs::TextLemmas::bits))]
fn put_later_part<K: Sink>(sets: bool, part: &Part, sink: &mut K) -> Result<(), SinkFailed>
    ensures { Prints (K.shown sink.old) (K.shown sink.new)
        (bits_text (behind (part_bits (mul_name (mul_op part.now.op)) false sets part.now))) result }
{
    put_semicolon(sink)?;
    put_part(mul_name(MulOp::of(part.op)), false, sets, part, sink)
}

/// Writes the mul unit's part, where there is one.
#[tactic(auto, using(crate::proofs::TextLemmas::no_bits))]
fn put_mul<K: Sink>(sets: bool, part: Option<Part>, sink: &mut K) -> Result<(), SinkFailed>
    ensures { Prints (K.shown sink.old) (K.shown sink.new) (bits_text (mul_bits sets part)) result }
{
    match part {
        None => Ok(()),
        Some(part) => put_later_part(sets, &part, sink),
    }
}

/// Writes a signal's name behind a part.
#[tactic(auto, using(crate::proofs::TextLemmas::bits))]
fn put_later_name<K: Sink>(name: Name, sink: &mut K) -> Result<(), SinkFailed>
    ensures { Prints (K.shown sink.old) (K.shown sink.new) (bits_text (behind (Word name ∷ []))) result }
{
    put_semicolon(sink)?;
    put_name(name, sink)
}

/// Writes how far is rotated.
fn put_distance<K: Sink>(code: u32, sink: &mut K) -> Result<(), SinkFailed>
    ensures { Prints (K.shown sink.old) (K.shown sink.new) (bits_text (rotation_bit code ∷ [])) result }
{
    if code == ROTATE_BY_R5 {
        put_name(Name::Register(Register::Accumulator(5)), sink)
    } else {
        put_decimal(code.saturating_sub(ROTATE_BY_R5), sink)
    }
}

/// Writes a rotation behind a part.
#[tactic(auto, using(crate::proofs::TextLemmas::bits))]
fn put_rotation<K: Sink>(code: u32, sink: &mut K) -> Result<(), SinkFailed>
    ensures { Prints (K.shown sink.old) (K.shown sink.new) (bits_text (signal_bits (Rotate code))) result }
{
    put_semicolon(sink)?;
    put_name(Name::Rotate, sink)?;
    put_space(sink)?;
    put_distance(code, sink)
}

/// Writes the signal or rotation, where there is one.
#[tactic(auto, using(crate::proofs::TextLemmas::no_bits))]
fn put_signal<K: Sink>(signal: Signal, sink: &mut K) -> Result<(), SinkFailed>
    ensures { Prints (K.shown sink.old) (K.shown sink.new) (bits_text (signal_bits signal)) result }
{
    match signal {
        Signal::Nothing => Ok(()),
        Signal::End => put_later_name(Name::End, sink),
        Signal::Load0 => put_later_name(Name::Load0, sink),
        Signal::Load1 => put_later_name(Name::Load1, sink),
        Signal::Rotate(code) => put_rotation(code, sink),
    }
}

/// Writes the address of file A that is read though no operand names it, where there is one.
#[tactic(auto, using(crate::proofs::TextLemmas::no_bits))]
fn put_other_a<K: Sink>(address: Option<u32>, sink: &mut K) -> Result<(), SinkFailed>
    ensures { Prints (K.shown sink.old) (K.shown sink.new) (bits_text (other_bits ReadA source_a address)) result }
{
    match address {
        None => Ok(()),
        Some(address) => put_later_names(Name::ReadA, source_a(address), sink),
    }
}

/// Writes the address of file B that is read though no operand names it, where there is one.
#[tactic(auto, using(crate::proofs::TextLemmas::no_bits))]
fn put_other_b<K: Sink>(address: Option<u32>, sink: &mut K) -> Result<(), SinkFailed>
    ensures { Prints (K.shown sink.old) (K.shown sink.new) (bits_text (other_bits ReadB source_b address)) result }
{
    match address {
        None => Ok(()),
        Some(address) => put_later_names(Name::ReadB, source_b(address), sink),
    }
}

/// Whether the mul unit's part tells that flags are set: the add unit's does where there is one.
fn mul_sets(units: &Units) -> bool
    ensures { result ≡ (units.now.sets && not (is_some units.now.add)) }
{
    units.sets && units.add.is_none()
}

/// Writes the parts of both units.
#[tactic(auto, using(crate::proofs::TextLemmas::bits))]
fn put_parts<K: Sink>(units: &Units, sink: &mut K) -> Result<(), SinkFailed>
    ensures { Prints (K.shown sink.old) (K.shown sink.new) (bits_text (parts_bits units.now)) result }
{
    put_add(units.sets, units.add, sink)?;
    put_mul(mul_sets(units), units.mul, sink)
}

/// Writes the line of an instruction of both units.
#[tactic(auto, unfolding(qpu_line::specs::Lines::units_bits))]
pub(crate) fn put_units<K: Sink>(units: &Units, sink: &mut K) -> Result<(), SinkFailed>
    ensures { Prints (K.shown sink.old) (K.shown sink.new) (bits_text (units_bits units.now)) result }
{
    put_parts(units, sink)?;
    put_signal(units.signal, sink)?;
    put_other_a(units.other_a, sink)?;
    put_other_b(units.other_b, sink)
}
