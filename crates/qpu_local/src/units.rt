//! What both units compute, and by how much the mul unit's result rotates.
ghost use Rattle.std.specs.Prelude.{◌≡◌, ◌<◌};
ghost use Rattle.qpu_word.specs.Fit.{IsFit};
ghost use Rattle.qpu_word.specs.Writing.{rotation};
ghost use Rattle.qpu_word.specs.Instruction.{add_values, add_carries, mul_values};

use crate::processor::Processor;
use crate::reading::repeated;
use qpu_alu::{AddOp, MulOp, add_unit, mul_unit};
use qpu_word::code::ROTATE_BY_R5;
use qpu_word::{Fields, Ins, LANES, Lanes};

/// The accumulator whose lane 0 rotations can go by, r5 of the manual.
const ROTATING: usize = 5;

impl Processor {
    /// The add unit's results, and its carries where the operation has them.
    #[tactic(auto, unfolding(qpu_word::specs::Instruction::add_values, qpu_word::specs::Instruction::add_carries))]
    pub(crate) fn add_results(&self, f: &Fields, ins: &Ins) -> (Lanes, Option<u32>)
        requires { IsFit f.now }
        ensures values { result.0.v ≡ add_values f.now self.now ins.now }
        ensures carries { result.1 ≡ add_carries f.now self.now ins.now }
    {
        match AddOp::of(f.op_add) {
            None => (repeated(0), None),
            Some(op) => add_unit(
                op,
                &self.operand(f, ins, f.add_a),
                &self.operand(f, ins, f.add_b),
            ),
        }
    }

    /// The mul unit's results, before rotation.
    #[tactic(auto, unfolding(qpu_word::specs::Instruction::mul_values))]
    pub(crate) fn mul_results(&self, f: &Fields, ins: &Ins) -> Lanes
        requires { IsFit f.now }
        ensures { result.v ≡ mul_values f.now self.now ins.now }
    {
        match MulOp::of(f.op_mul) {
            None => repeated(0),
            Some(op) => mul_unit(
                op,
                &self.operand(f, ins, f.mul_a),
                &self.operand(f, ins, f.mul_b),
            ),
        }
    }

    /// By how many lanes the mul unit's result rotates.
    #[tactic(auto, unfolding(qpu_word::specs::Writing::rotation))]
    pub(crate) fn rotation(&self, f: &Fields) -> u32
        requires { IsFit f.now }
        ensures value { result ≡ rotation f.now self.now }
        ensures below { result < 16 }
    {
        if !f.is_small() || f.raddr_b < ROTATE_BY_R5 {
            0
        } else if f.raddr_b == ROTATE_BY_R5 {
            self.accumulators[ROTATING][0] % LANES as u32
        } else {
            f.raddr_b - ROTATE_BY_R5
        }
    }
}
