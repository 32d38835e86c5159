//! What names stand for, by where they stand.
ghost use Rattle.std.specs.Prelude.{◌≡◌};
ghost use Rattle.qpu_asm.specs.Roles.{add_code, mul_code, op_in_add, op_in_mul, takes_one, target_meant, source_of, pack_of, unpack_of, is_mnemonic};

use qpu_line::{Name, Operand, Register};
use qpu_word::code::{READ_VPM, WRITE_R0, WRITE_VPM};
use qpu_word::{AddOp, MulOp, Place};

/// The code of an operation of the add unit (Guide, "QPU Instruction Encoding", Op Add).
fn add_code(op: AddOp) -> u32
    ensures { result ≡ add_code op }
{
    match op {
        AddOp::Add => 12,
        AddOp::Sub => 13,
        AddOp::Shr => 14,
        AddOp::Asr => 15,
        AddOp::Ror => 16,
        AddOp::Shl => 17,
        AddOp::Min => 18,
        AddOp::Max => 19,
        AddOp::And => 20,
        AddOp::Or => 21,
        AddOp::Xor => 22,
        AddOp::Not => 23,
        AddOp::Clz => 24,
        AddOp::V8adds => 30,
        AddOp::V8subs => 31,
    }
}

/// The code of an operation of the mul unit (Guide, "QPU Instruction Encoding", Op Mul).
fn mul_code(op: MulOp) -> u32
    ensures { result ≡ mul_code op }
{
    match op {
        MulOp::Mul24 => 2,
        MulOp::V8muld => 3,
        MulOp::V8min => 4,
        MulOp::V8max => 5,
        MulOp::V8adds => 6,
        MulOp::V8subs => 7,
    }
}

/// The code of what a mnemonic does in the add unit's part; `mov` is an `or`.
pub(crate) fn op_in_add(name: Name) -> Option<u32>
    ensures { result ≡ op_in_add name }
{
    match name {
        Name::Add(op) => Some(add_code(op)),
        Name::Mov => Some(add_code(AddOp::Or)),
        _ => None,
    }
}

/// The code of what a mnemonic does in the mul unit's part; `mov` is a `v8min`.
pub(crate) fn op_in_mul(name: Name) -> Option<u32>
    ensures { result ≡ op_in_mul name }
{
    match name {
        Name::Mul(op) => Some(mul_code(op)),
        Name::Add(AddOp::V8adds) => Some(mul_code(MulOp::V8adds)),
        Name::Add(AddOp::V8subs) => Some(mul_code(MulOp::V8subs)),
        Name::Mov => Some(mul_code(MulOp::V8min)),
        _ => None,
    }
}

/// Whether a mnemonic of a unit has one operand.
pub(crate) fn takes_one(name: Name) -> bool
    ensures { result ≡ takes_one name }
{
    matches!(
        name,
        Name::Mov | Name::Add(AddOp::Not) | Name::Add(AddOp::Clz)
    )
}

/// Accumulators that have a write address, r0 to r3.
const WRITTEN_ACCUMULATORS: u32 = 4;

/// The place that a name stands for as a target.
pub(crate) fn target_of(name: Name) -> Option<Place>
    ensures { result ≡ target_meant name }
{
    match name {
        Name::Register(Register::Accumulator(n)) if n < WRITTEN_ACCUMULATORS => Some(Place::Both(
            WRITE_R0 + n,
        )),
        Name::Register(Register::RowA(n)) => Some(Place::FileA(n)),
        Name::Register(Register::RowB(n)) => Some(Place::FileB(n)),
        Name::Register(Register::Vpm) => Some(Place::Both(WRITE_VPM)),
        Name::Register(Register::Target(place)) => Some(place),
        _ => None,
    }
}

/// What a name stands for as an operand, without unpacking.
pub(crate) fn source_of(name: Name) -> Option<Operand>
    ensures { result ≡ source_of name }
{
    match name {
        Name::Register(Register::Accumulator(n)) => Some(Operand::Accumulator(n)),
        Name::Register(Register::RowA(n)) => Some(Operand::FileA(n, 0)),
        Name::Register(Register::RowB(n)) => Some(Operand::FileB(n)),
        Name::Register(Register::Vpm) => Some(Operand::FileA(READ_VPM, 0)),
        Name::Register(Register::Source(Place::FileA(n))) => Some(Operand::FileA(n, 0)),
        Name::Register(Register::Source(Place::FileB(n))) => Some(Operand::FileB(n)),
        _ => None,
    }
}

/// The pack mode that a suffix names.
pub(crate) fn pack_of(name: Name) -> Option<u32>
    ensures { result ≡ pack_of name }
{
    match name {
        Name::Pack(mode) => Some(mode),
        _ => None,
    }
}

/// The unpack mode that all bytes get.
const REPLICATE: u32 = 3;

/// Unpack modes are below.
const UNPACK_MODES: u32 = 8;

/// The unpack mode that a suffix names.
pub(crate) fn unpack_of(name: Name) -> Option<u32>
    ensures { result ≡ unpack_of name }
{
    match name {
        Name::Pack(mode) if mode < UNPACK_MODES && mode != REPLICATE => Some(mode),
        Name::Replicate => Some(REPLICATE),
        _ => None,
    }
}

/// Whether a part of a line may begin with a name.
pub(crate) fn is_mnemonic(name: Name) -> bool
    ensures { result ≡ is_mnemonic name }
{
    match name {
        Name::SetFlags
        | Name::Word
        | Name::Set
        | Name::Condition(_)
        | Name::BranchCondition(_)
        | Name::Pack(_)
        | Name::Replicate
        | Name::Register(_) => false,
        _ => true,
    }
}
