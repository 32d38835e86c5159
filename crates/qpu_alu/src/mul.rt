ghost use Rattle.std.specs.Prelude.{◌≡◌};
ghost use Rattle.qpu_word.specs.Lanes.{lanes, lane};
ghost use Rattle.qpu_word.specs.Operations.{mul_result};

use crate::bytes::{Differences, Maxima, Minima, Products, Sums, on_bytes};
use crate::vectors::products_24;
use qpu_word::{Lanes, MulOp};
use std::simd::prelude::*;

/// The mul unit's results in all sixteen lanes, before rotation.
#[tactic(auto, unfolding(qpu_word::specs::Operations::mul_result))]
pub fn mul_results(op: MulOp, a: u32x16, b: u32x16) -> u32x16
    ensures { result ≡ lanes (λ i. mul_result op (lane a i) (lane b i)) }
{
    match op {
        MulOp::Mul24 => products_24(a, b),
        MulOp::V8muld => on_bytes::<Products>(a, b),
        MulOp::V8min => on_bytes::<Minima>(a, b),
        MulOp::V8max => on_bytes::<Maxima>(a, b),
        MulOp::V8adds => on_bytes::<Sums>(a, b),
        MulOp::V8subs => on_bytes::<Differences>(a, b),
    }
}

/// The mul unit: its result in each of the sixteen lanes, before rotation.
pub fn mul_unit(op: MulOp, a: &Lanes, b: &Lanes) -> Lanes
    ensures { result.v ≡ lanes (λ i. mul_result op (lane a.now.v i) (lane b.now.v i)) }
{
    let v = mul_results(op, a.vector(), b.vector()).to_array();
    Lanes { v }
}
