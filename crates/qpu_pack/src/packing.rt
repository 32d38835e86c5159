ghost use Rattle.std.specs.Prelude.{◌≡◌, ◌≢◌, ℕ, ◌<◌, ◌-◌, ◌==◌, if◌then◌else◌};
ghost use Rattle.qpu_word.specs.Lanes.{lanes, lane};
ghost use Rattle.qpu_word.specs.Operations.{byte, of_bytes};
ghost use Rattle.qpu_word.specs.Writing.{packed, placed, clamped_half, clamped_byte, with_half, with_byte};

use crate::{HALF_BITS, HALF_WORD};
use qpu_word::{LANES, Lanes, byte_of, number_of};

/// The bit of the sign.
const SIGN: u32 = 0x8000_0000;

/// The greatest and least signed half word.
const HALF_MOST: u32 = 0x7fff;

const HALF_LEAST: u32 = 0xffff_8000;

/// The greatest byte.
const BYTE_MOST: u32 = 255;

/// The first pack mode that clamps to a half word, and the first that clamps to a byte.
const CLAMPS: u32 = 8;

const CLAMPS_BYTE: u32 = 11;

/// A signed value kept within a signed half word.
fn clamp_half(n: u32) -> u32
    ensures { result ≡ clamped_half n }
{
    if n < SIGN {
        n.min(HALF_MOST)
    } else if n < HALF_LEAST {
        HALF_LEAST
    } else {
        n
    }
}

/// A signed value kept within a byte without sign.
fn clamp_byte(n: u32) -> u32
    ensures { result ≡ clamped_byte n }
{
    if n < SIGN { n.min(BYTE_MOST) } else { 0 }
}

/// The low byte in all four bytes.
fn low_byte_repeated(n: u32) -> u32
    ensures { result ≡ of_bytes (λ j. byte n 0) }
{
    let b = byte_of(n, 0);
    number_of(b, b, b, b)
}

/// A low half word in the low half of an old value.
fn into_low_half(old: u32, n: u32) -> u32
    ensures { result ≡ with_half 0 old n }
{
    ((old >> HALF_BITS) << HALF_BITS) + n % HALF_WORD
}

/// A low half word in the high half of an old value.
fn into_high_half(old: u32, n: u32) -> u32
    ensures { result ≡ with_half 1 old n }
{
    ((n % HALF_WORD) << HALF_BITS) + old % HALF_WORD
}

/// One byte, or another in its place.
fn byte_or(replaced: bool, n: u32, old: u32, k: u32) -> u32
    requires { k < 4 }
    ensures value { result ≡ (if replaced then byte n 0 else byte old k) }
    ensures below { result < 256 }
{
    if replaced {
        byte_of(n, 0)
    } else {
        byte_of(old, k)
    }
}

/// A low byte in byte k of an old value.
fn into_byte(k: u32, old: u32, n: u32) -> u32
    ensures { result ≡ with_byte k old n }
{
    number_of(
        byte_or(k == 0, n, old, 0),
        byte_or(k == 1, n, old, 1),
        byte_or(k == 2, n, old, 2),
        byte_or(k == 3, n, old, 3),
    )
}

/// A value in an old one, by a mode below 8.
fn place(mode: u32, old: u32, n: u32) -> u32
    requires { mode < 8 }
    ensures { result ≡ placed mode old n }
{
    match mode {
        0 => n,
        1 => into_low_half(old, n),
        2 => into_high_half(old, n),
        3 => low_byte_repeated(n),
        _ => into_byte(mode - 4, old, n),
    }
}

/// One lane packed.
#[tactic(auto, unfolding(qpu_word::specs::Writing::packed))]
fn pack_one(mode: u32, old: u32, n: u32) -> u32
    requires below { mode < 16 }
    requires known { mode ≢ 8 }
    ensures { result ≡ packed mode old n }
{
    if mode < CLAMPS {
        place(mode, old, n)
    } else if mode < CLAMPS_BYTE {
        place(mode - CLAMPS, old, clamp_half(n))
    } else {
        place(mode - CLAMPS, old, clamp_byte(n))
    }
}

/// All lanes packed by one mode.
#[tactic(auto, using(qpu_word::proofs::LaneLemmas::filled_all))]
fn packed_by<const MODE: u32>(old: &Lanes, value: &Lanes) -> Lanes
    requires below { MODE < 16 }
    requires known { MODE ≢ 8 }
    ensures { result.v ≡ lanes (λ i. packed MODE (lane old.now.v i) (lane value.now.v i)) }
{
    let mut out = [0; LANES];
    for i in 0..LANES {
        out[i] = pack_one(MODE, old.v[i], value.v[i]);
    }
    Lanes { v: out }
}

/// A value packed into an old one, by a pack mode below 16 other than 8: 0 whole; 1 and 2 the low
/// and high half word; 3 the low byte into all bytes; 4 to 7 the low byte into byte 0 to 3; 9 and
/// 10 as 1 and 2 after clamping to a signed half word; 11 to 15 as 3 to 7 after clamping to a
/// byte. The other bits stay.
pub fn pack_into(mode: u32, old: &Lanes, value: &Lanes) -> Lanes
    requires below { mode < 16 }
    requires known { mode ≢ 8 }
    ensures { result.v ≡ lanes (λ i. packed mode (lane old.now.v i) (lane value.now.v i)) }
{
    match mode {
        0 => packed_by::<0>(old, value),
        1 => packed_by::<1>(old, value),
        2 => packed_by::<2>(old, value),
        3 => packed_by::<3>(old, value),
        4 => packed_by::<4>(old, value),
        5 => packed_by::<5>(old, value),
        6 => packed_by::<6>(old, value),
        7 => packed_by::<7>(old, value),
        9 => packed_by::<9>(old, value),
        10 => packed_by::<10>(old, value),
        11 => packed_by::<11>(old, value),
        12 => packed_by::<12>(old, value),
        13 => packed_by::<13>(old, value),
        14 => packed_by::<14>(old, value),
        _ => packed_by::<15>(old, value),
    }
}
