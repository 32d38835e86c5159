ghost use Rattle.std.specs.Prelude.{◌≡◌, ℕ, ◌<◌, ◌-◌};
ghost use Rattle.qpu_word.specs.Lanes.{lanes, lane};
ghost use Rattle.qpu_word.specs.Operations.{byte, of_bytes};
ghost use Rattle.qpu_word.specs.Operands.{unpacked, sign_extended};

use crate::{HALF_BITS, HALF_WORD};
use qpu_word::{LANES, Lanes, byte_of, number_of};

/// The bit of a half word's sign.
const HALF_SIGN: u32 = 0x8000;

/// What the sign of a negative half word adds over 32 bits.
const SIGN_OVER_HALF: u32 = 0xffff_0000;

/// A half word with its sign over 32 bits.
fn extended(half: u32) -> u32
    requires { half < HALF_WORD }
    ensures { result ≡ sign_extended half }
{
    if half < HALF_SIGN {
        half
    } else {
        half + SIGN_OVER_HALF
    }
}

/// The high byte in all four bytes.
fn high_byte_repeated(n: u32) -> u32
    ensures { result ≡ of_bytes (λ k. byte n 3) }
{
    let b = byte_of(n, 3);
    number_of(b, b, b, b)
}

/// One lane unpacked.
#[tactic(auto, unfolding(qpu_word::specs::Operands::unpacked))]
fn unpack_one(mode: u32, n: u32) -> u32
    requires { mode < 8 }
    ensures { result ≡ unpacked mode n }
{
    match mode {
        0 => n,
        1 => extended(n % HALF_WORD),
        2 => extended(n >> HALF_BITS),
        3 => high_byte_repeated(n),
        _ => byte_of(n, mode - 4),
    }
}

/// All lanes unpacked by one mode.
#[tactic(auto, using(qpu_word::proofs::LaneLemmas::filled_all))]
fn unpacked_by<const MODE: u32>(value: &Lanes) -> Lanes
    requires { MODE < 8 }
    ensures { result.v ≡ lanes (λ i. unpacked MODE (lane value.now.v i)) }
{
    let mut out = [0; LANES];
    for i in 0..LANES {
        out[i] = unpack_one(MODE, value.v[i]);
    }
    Lanes { v: out }
}

/// A value of file A after an unpack mode below 8: 0 whole; 1 and 2 the low and high half word
/// with its sign; 3 the high byte in all four bytes; 4 to 7 byte 0 to 3.
pub fn unpack(mode: u32, value: &Lanes) -> Lanes
    requires { mode < 8 }
    ensures { result.v ≡ lanes (λ i. unpacked mode (lane value.now.v i)) }
{
    match mode {
        0 => unpacked_by::<0>(value),
        1 => unpacked_by::<1>(value),
        2 => unpacked_by::<2>(value),
        3 => unpacked_by::<3>(value),
        4 => unpacked_by::<4>(value),
        5 => unpacked_by::<5>(value),
        6 => unpacked_by::<6>(value),
        _ => unpacked_by::<7>(value),
    }
}
