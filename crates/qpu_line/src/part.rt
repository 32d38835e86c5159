//! What one unit does in an instruction.
ghost use Rattle.std.specs.Prelude.{◌≡◌};
ghost use Rattle.qpu_line.specs.Units.{over, row_a, row_b, unpack_of, small_signal, op_of, cond_of, to_of, first_of, second_of, pack_of};

use crate::operand::Operand;
use crate::target::is_row_a;
use qpu_word::Place;
use qpu_word::code::NOWHERE;

/// What one unit does in an instruction.
#[derive(Clone, Copy, Debug, PartialEq, Eq)]
pub struct Part {
    /// The operation's code, not 0.
    pub op: u32,
    /// The write condition's code, 1 to 7.
    pub cond: u32,
    /// Where the result is written.
    pub to: Place,
    /// The pack mode; 0 except at a row of file A.
    pub pack: u32,
    /// The first operand.
    pub a: Operand,
    /// The second operand; of operations with one operand the same again.
    pub b: Operand,
}

/// The read address of file A that a part's operands name first, or another in its place.
pub(crate) fn row_a(part: Option<Part>, rest: u32) -> u32
    ensures { result ≡ over row_a part rest }
{
    match part {
        None => rest,
        Some(p) => p.a.row_a(p.b.row_a(rest)),
    }
}

/// The unpack mode that a part's operands name first, or another in its place.
pub(crate) fn unpack(part: Option<Part>, rest: u32) -> u32
    ensures { result ≡ over unpack_of part rest }
{
    match part {
        None => rest,
        Some(p) => p.a.unpack(p.b.unpack(rest)),
    }
}

/// The read address of file B or code that a part's operands name first, or another in its place.
pub(crate) fn row_b(part: Option<Part>, rest: u32) -> u32
    ensures { result ≡ over row_b part rest }
{
    match part {
        None => rest,
        Some(p) => p.a.row_b(p.b.row_b(rest)),
    }
}

/// The signal that a part's operands ask for, or another in its place.
pub(crate) fn signal(part: Option<Part>, rest: u32) -> u32
    ensures { result ≡ over small_signal part rest }
{
    match part {
        None => rest,
        Some(p) => p.a.signal(p.b.signal(rest)),
    }
}

/// The operation's code, 0 of an idle unit.
pub(crate) fn op_of(part: Option<Part>) -> u32
    ensures { result ≡ op_of part }
{
    match part {
        None => 0,
        Some(p) => p.op,
    }
}

/// The condition's code, 0 of an idle unit.
pub(crate) fn cond_of(part: Option<Part>) -> u32
    ensures { result ≡ cond_of part }
{
    match part {
        None => 0,
        Some(p) => p.cond,
    }
}

/// The target, nowhere of an idle unit.
pub(crate) fn to_of(part: Option<Part>) -> Place
    ensures { result ≡ to_of part }
{
    match part {
        None => Place::Both(NOWHERE),
        Some(p) => p.to,
    }
}

/// The first operand's mux, 0 of an idle unit.
pub(crate) fn first_of(part: Option<Part>) -> u32
    ensures { result ≡ first_of part }
{
    match part {
        None => 0,
        Some(p) => p.a.mux(),
    }
}

/// The second operand's mux, 0 of an idle unit.
pub(crate) fn second_of(part: Option<Part>) -> u32
    ensures { result ≡ second_of part }
{
    match part {
        None => 0,
        Some(p) => p.b.mux(),
    }
}

/// The pack mode of a part that writes a row of file A, or another in its place.
pub(crate) fn pack_of(part: Option<Part>, rest: u32) -> u32
    ensures { result ≡ pack_of part rest }
{
    match part {
        None => rest,
        Some(p) => if is_row_a(p.to) { p.pack } else { rest },
    }
}
