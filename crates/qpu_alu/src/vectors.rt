//! The operations on numbers of 32 bits, on all sixteen lanes.
ghost use Rattle.std.specs.Prelude.{◌≡◌, ◌+◌, ◌-◌, ◌*◌, ◌%◌, ◌^◌, if◌then◌else◌, bit_and, bit_or, bit_xor};
ghost use Rattle.qpu_word.specs.Lanes.{lanes, lane};
ghost use Rattle.qpu_word.specs.Operations.{low32, signed_lt};

use std::simd::prelude::*;

/// The bit of the sign.
const SIGN: u32 = 0x8000_0000;

/// The low 24 bits.
const LOW_24: u32 = 0xff_ffff;

/// Sums.
pub(crate) fn sums(a: u32x16, b: u32x16) -> u32x16
    ensures { result ≡ lanes (λ i. low32 (lane a i + lane b i)) }
{
    a + b
}

/// Differences.
pub(crate) fn differences(a: u32x16, b: u32x16) -> u32x16
    ensures { result ≡ lanes (λ i. low32 (lane a i + 2 ^ 32 - lane b i)) }
{
    a - b
}

/// The lesser numbers, with sign.
pub(crate) fn minima(a: u32x16, b: u32x16) -> u32x16
    ensures { result ≡ lanes (λ i. if signed_lt (lane a i) (lane b i) then lane a i else lane b i) }
{
    let signs = u32x16::splat(SIGN);
    (a + signs).simd_lt(b + signs).select(a, b)
}

/// The greater numbers, with sign.
pub(crate) fn maxima(a: u32x16, b: u32x16) -> u32x16
    ensures { result ≡ lanes (λ i. if signed_lt (lane a i) (lane b i) then lane b i else lane a i) }
{
    let signs = u32x16::splat(SIGN);
    (a + signs).simd_lt(b + signs).select(b, a)
}

/// The bits that stand in both.
pub(crate) fn both(a: u32x16, b: u32x16) -> u32x16
    ensures { result ≡ lanes (λ i. bit_and (lane a i) (lane b i)) }
{
    a & b
}

/// The bits that stand in one or in both.
pub(crate) fn either(a: u32x16, b: u32x16) -> u32x16
    ensures { result ≡ lanes (λ i. bit_or (lane a i) (lane b i)) }
{
    a | b
}

/// The bits that stand in one alone.
pub(crate) fn unlike(a: u32x16, b: u32x16) -> u32x16
    ensures { result ≡ lanes (λ i. bit_xor (lane a i) (lane b i)) }
{
    a ^ b
}

/// The bits that don't stand in a number.
pub(crate) fn opposite(a: u32x16) -> u32x16
    ensures { result ≡ lanes (λ i. 2 ^ 32 - 1 - lane a i) }
{
    !a
}

/// The low 32 bits of the products of the low 24 bits.
pub(crate) fn products_24(a: u32x16, b: u32x16) -> u32x16
    ensures { result ≡ lanes (λ i. low32 (lane a i % 2 ^ 24 * (lane b i % 2 ^ 24))) }
{
    let low = u32x16::splat(LOW_24);
    (a & low) * (b & low)
}
