//! The operations on four bytes of a number, on all sixty-four bytes of sixteen numbers.
ghost use Rattle.std.specs.Prelude.{◌≡◌, ℕ, ◌+◌, ◌-◌, ◌*◌, ◌/◌, ◌<◌, ◌≤◌, ◌^◌, min, max};
ghost use Rattle.std.specs.Simd.Lanes.{zip2};
ghost use Rattle.qpu_word.specs.Lanes.{lanes, lane};
ghost use Rattle.qpu_word.specs.Operations.{byte, of_bytes};

use std::simd::prelude::*;

/// An operation on bytes, whose results are bytes.
pub(crate) trait Bytewise {
    ghost f: { ℕ → ℕ → ℕ };

    fn all(a: u8x64, b: u8x64) -> u8x64
        ensures values { result ≡ zip2 f a b }
        ensures bytes { (x y : ℕ) → x < 2 ^ 8 → y < 2 ^ 8 → f x y < 2 ^ 8 };
}

/// Sums, which stop at 255.
pub(crate) struct Sums;

/// Differences, which stop at 0.
pub(crate) struct Differences;

/// Products as parts of 255, rounded.
pub(crate) struct Products;

/// The lesser ones, without sign.
pub(crate) struct Minima;

/// The greater ones, without sign.
pub(crate) struct Maxima;

impl Bytewise for Sums {
    ghost f = { λ x y. min 255 (x + y) };

    fn all(a: u8x64, b: u8x64) -> u8x64 {
        let sums = a + b;
        sums.simd_lt(a).select(u8x64::splat(255), sums)
    }
}

impl Bytewise for Differences {
    ghost f = { λ x y. x - y };

    fn all(a: u8x64, b: u8x64) -> u8x64 {
        a.simd_lt(b).select(u8x64::splat(0), a - b)
    }
}

impl Bytewise for Minima {
    ghost f = { λ x y. min x y };

    fn all(a: u8x64, b: u8x64) -> u8x64 {
        a.simd_lt(b).select(a, b)
    }
}

impl Bytewise for Maxima {
    ghost f = { λ x y. max x y };

    fn all(a: u8x64, b: u8x64) -> u8x64 {
        a.simd_lt(b).select(b, a)
    }
}

impl Bytewise for Products {
    ghost f = { λ x y. (x * y + 127) / 255 };

    fn all(a: u8x64, b: u8x64) -> u8x64 {
        let raised = a.cast::<u16>() * b.cast::<u16>() + u16x64::splat(128);
        ((raised + (raised >> 8)) >> 8).cast::<u8>()
    }
}

/// An operation on the bytes of each lane.
pub(crate) fn on_bytes<O: Bytewise>(a: u32x16, b: u32x16) -> u32x16
    ensures { result ≡ lanes (λ i. of_bytes (λ k. O.f (byte (lane a i) k) (byte (lane b i) k))) }
{
    u32x16::from_le_bytes(O::all(a.to_le_bytes(), b.to_le_bytes()))
}
