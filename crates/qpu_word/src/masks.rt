//! The sixteen lanes as one vector, and masks of lanes by comparing whole vectors.
ghost use Rattle.std.specs.Prelude.{◌≡◌, ℕ, ◌+◌, ◌^◌, ◌==◌, nat_lt, nat_le, length};
ghost use Rattle.qpu_word.specs.Lanes.{lane, mask};

use crate::lanes::Lanes;
use std::simd::prelude::*;

/// The bit of the sign.
const SIGN: u32 = 0x8000_0000;

impl Lanes {
    /// The sixteen lanes as one vector.
    #[inline(always)]
    pub fn vector(&self) -> u32x16
        ensures long { length result ≡ 16 }
        ensures lanes { result ≡ self.now.v }
    {
        u32x16::from_array(self.v)
    }
}

/// The lanes in which a number is less than another, without sign; lane i at bit i.
#[inline(always)]
pub fn lesser(a: u32x16, b: u32x16) -> u32
    ensures { result ≡ mask (λ i. nat_lt (lane a i) (lane b i)) }
{
    a.simd_lt(b).to_bitmask() as u32
}

/// The lanes in which a sum passes 32 bits; lane i at bit i.
#[inline(always)]
pub fn passing(a: u32x16, b: u32x16) -> u32
    ensures { result ≡ mask (λ i. nat_le (2 ^ 32) (lane a i + lane b i)) }
{
    lesser(a + b, a)
}

/// The lanes that are 0; lane i at bit i.
#[inline(always)]
pub fn zeros(values: u32x16) -> u32
    ensures { result ≡ mask (λ i. lane values i == 0) }
{
    values.simd_eq(u32x16::splat(0)).to_bitmask() as u32
}

/// The lanes whose high bit is set; lane i at bit i.
#[inline(always)]
pub fn negatives(values: u32x16) -> u32
    ensures { result ≡ mask (λ i. nat_le (2 ^ 31) (lane values i)) }
{
    values.simd_ge(u32x16::splat(SIGN)).to_bitmask() as u32
}
