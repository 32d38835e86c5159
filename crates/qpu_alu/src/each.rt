//! Operations that are computed one lane after another.
ghost use Rattle.std.specs.Prelude.{◌≡◌, ℕ, ◌*◌, ◌/◌, ◌%◌, ◌^◌, nat_lt, if◌then◌else◌};
ghost use Rattle.std.specs.Int.{w32, rotate_right};
ghost use Rattle.std.specs.Int.Count.{count_leading_zeros};
ghost use Rattle.qpu_word.specs.Lanes.{lanes, lane};
ghost use Rattle.qpu_word.specs.Operations.{low32, widened};

use qpu_word::LANES;
use std::simd::prelude::*;

/// Shift amounts are modulo this.
const WIDTH: u32 = 32;

/// The bit of the sign.
const SIGN: u32 = 0x8000_0000;

/// What the sign of a negative number of 32 bits adds over 64 bits.
const SIGN_OVER_64: u64 = 0xffff_ffff_0000_0000;

/// An operation on one lane.
pub(crate) trait OneLane {
    ghost f: { ℕ → ℕ → ℕ };

    fn one(a: u32, b: u32) -> u32
        ensures { result ≡ f a b };
}

/// Shift to the right, without sign.
pub(crate) struct Shr;

/// Shift to the right, with sign.
pub(crate) struct Asr;

/// Rotation to the right.
pub(crate) struct Ror;

/// Shift to the left.
pub(crate) struct Shl;

/// How many zeros stand before the first one.
pub(crate) struct Clz;

impl OneLane for Shr {
    ghost f = { λ a b. a / 2 ^ (b % 32) };

    fn one(a: u32, b: u32) -> u32 {
        a >> (b % WIDTH)
    }
}

impl OneLane for Asr {
    ghost f = { λ a b. low32 (widened a / 2 ^ (b % 32)) };

    fn one(a: u32, b: u32) -> u32 {
        low(wide(a) >> (b % WIDTH))
    }
}

impl OneLane for Ror {
    ghost f = { λ a b. rotate_right w32 a (b % 32) };

    fn one(a: u32, b: u32) -> u32 {
        a.rotate_right(b % WIDTH)
    }
}

impl OneLane for Shl {
    ghost f = { λ a b. low32 (a * 2 ^ (b % 32)) };

    fn one(a: u32, b: u32) -> u32 {
        low(u64::from(a) << (b % WIDTH))
    }
}

impl OneLane for Clz {
    ghost f = { λ a b. count_leading_zeros 32 a };

    fn one(a: u32, _b: u32) -> u32 {
        a.leading_zeros()
    }
}

/// A number with its sign over 64 bits.
fn wide(a: u32) -> u64
    ensures { result ≡ widened a }
{
    if a < SIGN {
        u64::from(a)
    } else {
        u64::from(a) + SIGN_OVER_64
    }
}

/// The low 32 bits.
fn low(n: u64) -> u32
    ensures { result ≡ low32 n }
{
    (n & 0xffff_ffff) as u32
}

/// An operation in each lane.
#[tactic(auto, using(qpu_word::proofs::LaneLemmas::filled_all))]
pub(crate) fn each_lane<O: OneLane>(a: u32x16, b: u32x16) -> u32x16
    ensures { result ≡ lanes (λ i. O.f (lane a i) (lane b i)) }
{
    let (a, b) = (a.to_array(), b.to_array());
    let mut out = [0; LANES];
    for i in 0..LANES {
        out[i] = O::one(a[i], b[i]);
    }
    u32x16::from_array(out)
}
