ghost use Rattle.std.specs.Prelude.{◌≡◌, Option, Some};
ghost use Rattle.qpu_word.specs.Lanes.{lanes, lane};
ghost use Rattle.qpu_word.specs.Operations.{add_result};
ghost use Rattle.qpu_word.specs.Instruction.{carry_mask};

use crate::bytes::{Differences, Sums, on_bytes};
use crate::each::{Asr, Clz, Ror, Shl, Shr, each_lane};
use crate::vectors::{both, differences, either, maxima, minima, opposite, sums, unlike};
use qpu_word::{AddOp, Lanes, lesser, passing};
use std::simd::prelude::*;

/// The add unit's results in all sixteen lanes.
#[tactic(auto, unfolding(qpu_word::specs::Operations::add_result))]
pub fn add_results(op: AddOp, a: u32x16, b: u32x16) -> u32x16
    ensures { result ≡ lanes (λ i. add_result op (lane a i) (lane b i)) }
{
    match op {
        AddOp::Add => sums(a, b),
        AddOp::Sub => differences(a, b),
        AddOp::Shr => each_lane::<Shr>(a, b),
        AddOp::Asr => each_lane::<Asr>(a, b),
        AddOp::Ror => each_lane::<Ror>(a, b),
        AddOp::Shl => each_lane::<Shl>(a, b),
        AddOp::Min => minima(a, b),
        AddOp::Max => maxima(a, b),
        AddOp::And => both(a, b),
        AddOp::Or => either(a, b),
        AddOp::Xor => unlike(a, b),
        AddOp::Not => opposite(a),
        AddOp::Clz => each_lane::<Clz>(a, b),
        AddOp::V8adds => on_bytes::<Sums>(a, b),
        AddOp::V8subs => on_bytes::<Differences>(a, b),
    }
}

/// The mask of carries (add) or borrows (sub) in all lanes, lane i at bit i; other operations have none.
pub fn add_carries(op: AddOp, a: u32x16, b: u32x16) -> Option<u32>
    ensures { result ≡ carry_mask (Some op) (lane a) (lane b) }
{
    match op {
        AddOp::Add => Some(passing(a, b)),
        AddOp::Sub => Some(lesser(a, b)),
        _ => None,
    }
}

/// The add unit: its result in each of the sixteen lanes, and for add and sub the mask of carries
/// (add) or borrows (sub), lane i at bit i.
pub fn add_unit(op: AddOp, a: &Lanes, b: &Lanes) -> (Lanes, Option<u32>)
    ensures values { result.0.v ≡ lanes (λ i. add_result op (lane a.now.v i) (lane b.now.v i)) }
    ensures carries { result.1 ≡ carry_mask (Some op) (lane a.now.v) (lane b.now.v) }
{
    let (a, b) = (a.vector(), b.vector());
    let v = add_results(op, a, b).to_array();
    (Lanes { v }, add_carries(op, a, b))
}
