//! What the units of a plain word do.
ghost use Rattle.std.specs.Prelude.{◌≡◌};
ghost use Rattle.qpu_decoded.specs.Units.{setter_of, units_of};

use crate::source::{Source, source_of};
use crate::target::{Target, target_of};
use qpu_word::{AddOp, Fields, MulOp};

/// The unit whose results set the flags.
#[derive(Clone, Copy, Debug, PartialEq, Eq)]
pub enum Setter {
    /// The flags stay.
    Neither,
    /// The add unit, with its carries.
    Add,
    /// The mul unit, without carries.
    Mul,
}

/// What both units compute, and where their results go. An operation that is none gives 0.
#[derive(Clone, Copy, Debug, PartialEq, Eq)]
pub struct Units {
    /// The add unit's operation.
    pub add: Option<AddOp>,
    /// Its first operand.
    pub add_a: Source,
    /// Its second operand.
    pub add_b: Source,
    /// Where its result goes.
    pub add_to: Target,
    /// The mul unit's operation.
    pub mul: Option<MulOp>,
    /// Its first operand.
    pub mul_a: Source,
    /// Its second operand.
    pub mul_b: Source,
    /// Where its result goes.
    pub mul_to: Target,
    /// The unit that sets the flags.
    pub sets: Setter,
}

/// The unit whose results set the flags.
#[tactic(auto, unfolding(crate::specs::Units::setter_of))]
fn setter_of(f: &Fields) -> Setter
    ensures { result ≡ setter_of f.now }
{
    if f.sf != 1 {
        Setter::Neither
    } else if f.add_active() {
        Setter::Add
    } else if f.mul_active() {
        Setter::Mul
    } else {
        Setter::Neither
    }
}

/// What the units of a word do.
#[tactic(auto, unfolding(crate::specs::Units::units_of))]
pub(crate) fn units_of(f: &Fields) -> Units
    ensures { result ≡ units_of f.now }
{
    Units {
        add: AddOp::of(f.op_add),
        add_a: source_of(f, f.add_a),
        add_b: source_of(f, f.add_b),
        add_to: target_of(f.add_writes(), f.swaps_writes(), f.waddr_add),
        mul: MulOp::of(f.op_mul),
        mul_a: source_of(f, f.mul_a),
        mul_b: source_of(f, f.mul_b),
        mul_to: target_of(f.mul_writes(), !f.swaps_writes(), f.waddr_mul),
        sets: setter_of(f),
    }
}
