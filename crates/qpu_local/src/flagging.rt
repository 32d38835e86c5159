//! Tests of flags, and the flags of results.
ghost use Rattle.std.specs.Prelude.{◌≡◌, ℕ, ◌<◌, ◌^◌, ◌==◌, nat_le, Option, not};
ghost use Rattle.qpu_word.specs.Lanes.{lane, mask, in_mask};
ghost use Rattle.qpu_word.specs.Flags.{z_of, n_of, c_of, lane_test, mask_test, branch_test};
ghost use Rattle.qpu_word.specs.Instruction.{zn_of, flags_of, unit_flags, load_flags};

use qpu_word::code::BRANCH_ALWAYS;
use qpu_word::{Fields, Flags, Lanes, negatives, zeros};
use std::simd::prelude::*;

/// A mask of all lanes.
const ALL: u32 = 0xffff;

/// The branch conditions from which on N is tested, C is tested, none is, and the one that always
/// holds.
const BY_N: u32 = 4;

const BY_C: u32 = 8;

const RESERVED: u32 = 12;

/// The mask Z, 0 where it is undefined.
fn zeros_set(flags: &Flags) -> u32
    ensures { result ≡ z_of flags.now.zn }
{
    match flags.zn {
        None => 0,
        Some((z, _)) => z,
    }
}

/// The mask N, 0 where it is undefined.
fn negatives_set(flags: &Flags) -> u32
    ensures { result ≡ n_of flags.now.zn }
{
    match flags.zn {
        None => 0,
        Some((_, n)) => n,
    }
}

/// The mask C, 0 where it is undefined.
fn carries_set(flags: &Flags) -> u32
    ensures { result ≡ c_of flags.now.c }
{
    match flags.c {
        None => 0,
        Some(c) => c,
    }
}

/// Whether a lane stands in a mask.
fn stands_in(mask: u32, lane: u32) -> bool
    requires { lane < 16 }
    ensures { result ≡ in_mask mask lane }
{
    (mask >> lane) % 2 == 1
}

/// Whether a write condition, 0 to 7, holds in a lane.
#[tactic(auto, unfolding(qpu_word::specs::Flags::lane_test))]
pub fn holds_in(cond: u32, flags: &Flags, lane: u32) -> bool
    requires { lane < 16 }
    ensures { result ≡ lane_test cond flags.now lane }
{
    match cond {
        0 => false,
        1 => true,
        2 => stands_in(zeros_set(flags), lane),
        3 => !stands_in(zeros_set(flags), lane),
        4 => stands_in(negatives_set(flags), lane),
        5 => !stands_in(negatives_set(flags), lane),
        6 => stands_in(carries_set(flags), lane),
        _ => !stands_in(carries_set(flags), lane),
    }
}

/// A test of a whole mask: all set, all clear, any set, any clear.
fn tests(which: u32, mask: u32) -> bool
    ensures { result ≡ mask_test which mask }
{
    match which {
        0 => mask == ALL,
        1 => mask == 0,
        2 => mask != 0,
        _ => mask != ALL,
    }
}

/// Whether a branch condition holds.
#[tactic(auto, unfolding(qpu_word::specs::Flags::branch_test))]
pub fn branches(cond: u32, flags: &Flags) -> bool
    ensures { result ≡ branch_test cond flags.now }
{
    if cond < BY_N {
        tests(cond, zeros_set(flags))
    } else if cond < BY_C {
        tests(cond - BY_N, negatives_set(flags))
    } else if cond < RESERVED {
        tests(cond - BY_C, carries_set(flags))
    } else {
        cond == BRANCH_ALWAYS
    }
}

/// The flags that a list of results sets, with a mask C.
#[tactic(auto, unfolding(qpu_word::specs::Instruction::zn_of))]
#[inline(always)]
pub(crate) fn set_by(results: u32x16, c: Option<u32>) -> Flags
    ensures { result ≡ flags_of results c }
{
    Flags {
        zn: Some((zeros(results), negatives(results))),
        c,
    }
}

/// The flags after both units.
#[tactic(auto, unfolding(qpu_word::specs::Instruction::unit_flags))]
pub fn after_units(
    f: &Fields,
    flags: Flags,
    add: &Lanes,
    carries: Option<u32>,
    mul: &Lanes,
) -> Flags
    ensures { result ≡ unit_flags f.now flags add.now.v carries mul.now.v }
{
    if f.sf != 1 {
        flags
    } else if f.add_active() {
        set_by(add.vector(), carries)
    } else if f.mul_active() {
        set_by(mul.vector(), None)
    } else {
        flags
    }
}

/// The flags after a word in which no unit computes.
#[tactic(auto, unfolding(qpu_word::specs::Instruction::load_flags))]
pub fn after_load(f: &Fields, flags: Flags, values: &Lanes) -> Flags
    ensures { result ≡ load_flags f.now flags values.now.v }
{
    if f.sf == 1 && f.is_load() {
        set_by(values.vector(), None)
    } else {
        flags
    }
}
