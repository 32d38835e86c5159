//! What the hazard rules ask of one word, and of two words executed one after the other.
ghost use Rattle.std.specs.Prelude.{◌≡◌, ◌<◌, ◌≤◌};
ghost use Rattle.qpu_word.specs.Words.{between, one_if};
ghost use Rattle.qpu_word.specs.Operations.{add_op};
ghost use Rattle.qpu_hazard.specs.Demands.{takes_row_a, takes_row_b, adds_row, row_conflict, reads_row, writes_row, touches_end_row, rotates, rotation_conflict, writes_mux, rotated_conflict, uniform_conflict, accesses, vpm_accesses, actions, is_one_place, writes_one_place, writes_by_condition, add_tests, mul_tests, tests_zn, tests_carry, sets_flags, has_carry, defines_carry, uses_r4, loads_r4, look_place, looks_made, looks_taken};

use qpu_word::code::{
    COND_ALWAYS, MUX_FILE_A, MUX_FILE_B, NOWHERE, READ_DMA_BUSY, READ_DMA_WAIT, READ_MUTEX,
    READ_UNIFORM, READ_VPM, ROTATE_BY_R5, ROWS, WRITE_DMA_ADDRESS, WRITE_R0, WRITE_R3, WRITE_R5,
    WRITE_TMU0_S, WRITE_TMU1_S, WRITE_UNIFORMS_ADDRESS, WRITE_VPM, WRITE_VPM_SETUP,
};
use qpu_word::{AddOp, Fields, is_look_address};

/// The row of either file that program end and its slots leave alone.
pub(crate) const END_ROW: u32 = 14;

/// The highest mux of an accumulator that can be written by its own address, and the mux of r4.
pub(crate) const MUX_R3: u32 = 3;

pub(crate) const MUX_R4: u32 = 4;

pub(crate) const COND_ZN_FIRST: u32 = 2;

pub(crate) const COND_ZN_LAST: u32 = 5;

pub(crate) const COND_C_FIRST: u32 = 6;

pub(crate) const COND_C_LAST: u32 = 7;

/// Branch conditions from 0 to this one test Z or N; the first and the last that test C.
pub(crate) const BRANCH_ZN_LAST: u32 = 7;

pub(crate) const BRANCH_C_FIRST: u32 = 8;

pub(crate) const BRANCH_C_LAST: u32 = 11;

/// 1 where a test holds, else 0.
fn one(test: bool) -> u32
    ensures value { result ≡ one_if test }
    ensures small { result ≤ 1 }
{
    if test { 1 } else { 0 }
}

/// Whether a number lies between two others.
fn between(low: u32, n: u32, high: u32) -> bool
    ensures { result ≡ between low n high }
{
    low <= n && n <= high
}

/// Whether an active unit reads the row of file A that its field names.
fn takes_row_a(f: &Fields) -> bool
    ensures { result ≡ takes_row_a f.now }
{
    f.uses(MUX_FILE_A) && f.raddr_a < ROWS
}

/// Whether an active unit reads the row of file B that its field names.
fn takes_row_b(f: &Fields) -> bool
    ensures { result ≡ takes_row_b f.now }
{
    f.uses(MUX_FILE_B) && f.is_alu() && f.raddr_b < ROWS
}

/// Whether a branch adds a row of file A to its target.
fn adds_row(f: &Fields) -> bool
    ensures { result ≡ adds_row f.now }
{
    f.is_branch() && f.reg == 1
}

/// Whether a word reads a row that the word before wrote.
#[tactic(auto, unfolding(crate::specs::Demands::row_conflict))]
pub(crate) fn row_conflict(before: &Fields, f: &Fields) -> bool
    ensures { result ≡ row_conflict before.now f.now }
{
    (takes_row_a(f) && before.writes_a(f.raddr_a))
        || (takes_row_b(f) && before.writes_b(f.raddr_b))
        || (adds_row(f) && before.writes_a(f.raddr_br))
}

/// Whether a word reads a row of this number in either file.
fn reads_row(f: &Fields, row: u32) -> bool
    ensures { result ≡ reads_row f.now row }
{
    (takes_row_a(f) && f.raddr_a == row)
        || (takes_row_b(f) && f.raddr_b == row)
        || (adds_row(f) && f.raddr_br == row)
}

/// Whether a word writes a row of either file.
#[tactic(auto, unfolding(crate::specs::Demands::writes_row))]
pub(crate) fn writes_row(f: &Fields) -> bool
    ensures { result ≡ writes_row f.now }
{
    (f.add_writes() && f.waddr_add < ROWS) || (f.mul_writes() && f.waddr_mul < ROWS)
}

/// Whether a word reads or writes row 14 of either file.
#[tactic(auto, unfolding(crate::specs::Demands::touches_end_row))]
pub(crate) fn touches_end_row(f: &Fields) -> bool
    ensures { result ≡ touches_end_row f.now }
{
    reads_row(f, END_ROW) || f.writes(END_ROW)
}

/// Whether a word rotates what its active mul unit computes.
fn rotates(f: &Fields) -> bool
    ensures { result ≡ rotates f.now }
{
    f.is_small() && ROTATE_BY_R5 <= f.raddr_b && f.mul_active()
}

/// Whether a word rotates by r5 directly after a write of r5.
#[tactic(auto, unfolding(crate::specs::Demands::rotation_conflict))]
pub(crate) fn rotation_conflict(before: &Fields, f: &Fields) -> bool
    ensures { result ≡ rotation_conflict before.now f.now }
{
    rotates(f) && f.raddr_b == ROTATE_BY_R5 && before.writes(WRITE_R5)
}

/// Whether a word writes the accumulator of a mux, r0 to r3.
fn writes_mux(f: &Fields, mux: u32) -> bool
    ensures { result ≡ writes_mux f.now mux }
{
    mux <= MUX_R3 && f.writes(WRITE_R0 + mux)
}

/// Whether a word rotates an accumulator directly after its write.
#[tactic(auto, unfolding(crate::specs::Demands::rotated_conflict))]
pub(crate) fn rotated_conflict(before: &Fields, f: &Fields) -> bool
    ensures { result ≡ rotated_conflict before.now f.now }
{
    rotates(f) && (writes_mux(before, f.mul_a) || writes_mux(before, f.mul_b))
}

/// Whether a word reads a uniform, and the other wrote the uniforms address.
#[tactic(auto, unfolding(crate::specs::Demands::uniform_conflict))]
pub(crate) fn uniform_conflict(before: &Fields, f: &Fields) -> bool
    ensures { result ≡ uniform_conflict before.now f.now }
{
    before.writes(WRITE_UNIFORMS_ADDRESS) && f.reads(READ_UNIFORM)
}

/// Whether a word accesses uniforms, the VPM or DMA.
#[tactic(auto, unfolding(crate::specs::Demands::accesses))]
pub(crate) fn accesses(f: &Fields) -> bool
    ensures { result ≡ accesses f.now }
{
    f.reads(READ_UNIFORM)
        || f.writes(WRITE_UNIFORMS_ADDRESS)
        || f.reads(READ_VPM)
        || f.reads(READ_DMA_BUSY)
        || f.reads(READ_DMA_WAIT)
        || f.writes(WRITE_VPM)
        || f.writes(WRITE_VPM_SETUP)
        || f.writes(WRITE_DMA_ADDRESS)
}

/// How often a word accesses the VPM.
#[tactic(auto, unfolding(crate::specs::Demands::vpm_accesses))]
pub(crate) fn vpm_accesses(f: &Fields) -> u32
    ensures { result ≡ vpm_accesses f.now }
{
    one(f.reads_a(READ_VPM))
        + one(f.reads_b(READ_VPM))
        + one(f.add_writes_to(WRITE_VPM))
        + one(f.mul_writes_to(WRITE_VPM))
}

/// How many look-ups, TMU loads, acquirings of the mutex and semaphore steps a word has.
#[tactic(auto, unfolding(crate::specs::Demands::actions))]
pub(crate) fn actions(f: &Fields) -> u32
    ensures { result ≡ actions f.now }
{
    one(f.add_writes() && is_look_address(f.waddr_add))
        + one(f.mul_writes() && is_look_address(f.waddr_mul))
        + one(f.has_tmu_load())
        + one(f.reads_a(READ_MUTEX))
        + one(f.reads_b(READ_MUTEX))
        + one(f.is_semaphore())
}

/// Whether an address is one place, whichever unit writes it.
fn is_one_place(address: u32) -> bool
    ensures { result ≡ is_one_place address }
{
    ROWS <= address && address != WRITE_VPM_SETUP && address != WRITE_DMA_ADDRESS
}

/// Whether both units write one place.
#[tactic(auto, unfolding(crate::specs::Demands::writes_one_place))]
pub(crate) fn writes_one_place(f: &Fields) -> bool
    ensures { result ≡ writes_one_place f.now }
{
    f.add_writes() && f.mul_writes() && f.waddr_add == f.waddr_mul && is_one_place(f.waddr_add)
}

/// Whether a unit writes an address behind r3 by a condition other than always.
#[tactic(auto, unfolding(crate::specs::Demands::writes_by_condition))]
pub(crate) fn writes_by_condition(f: &Fields) -> bool
    ensures { result ≡ writes_by_condition f.now }
{
    (f.add_writes() && WRITE_R3 < f.waddr_add && f.cond_add != COND_ALWAYS)
        || (f.mul_writes() && WRITE_R3 < f.waddr_mul && f.cond_mul != COND_ALWAYS)
}

/// Whether the add unit tests by its condition.
fn add_tests(f: &Fields) -> bool
    ensures { result ≡ add_tests f.now }
{
    f.add_active() || (f.is_load() && f.waddr_add != NOWHERE)
}

/// Whether the mul unit tests by its condition.
fn mul_tests(f: &Fields) -> bool
    ensures { result ≡ mul_tests f.now }
{
    f.mul_active() || (f.is_load() && f.waddr_mul != NOWHERE)
}

/// Whether a word tests Z or N.
#[tactic(auto, unfolding(crate::specs::Demands::tests_zn))]
pub(crate) fn tests_zn(f: &Fields) -> bool
    ensures { result ≡ tests_zn f.now }
{
    (add_tests(f) && between(COND_ZN_FIRST, f.cond_add, COND_ZN_LAST))
        || (mul_tests(f) && between(COND_ZN_FIRST, f.cond_mul, COND_ZN_LAST))
        || (f.is_branch() && f.cond_br <= BRANCH_ZN_LAST)
}

/// Whether a word tests C.
#[tactic(auto, unfolding(crate::specs::Demands::tests_carry))]
pub(crate) fn tests_carry(f: &Fields) -> bool
    ensures { result ≡ tests_carry f.now }
{
    (add_tests(f) && between(COND_C_FIRST, f.cond_add, COND_C_LAST))
        || (mul_tests(f) && between(COND_C_FIRST, f.cond_mul, COND_C_LAST))
        || (f.is_branch() && between(BRANCH_C_FIRST, f.cond_br, BRANCH_C_LAST))
}

/// Whether a word sets the flags.
#[tactic(auto, unfolding(crate::specs::Demands::sets_flags))]
pub(crate) fn sets_flags(f: &Fields) -> bool
    ensures { result ≡ sets_flags f.now }
{
    f.sf == 1 && (f.add_active() || f.mul_active() || f.is_load())
}

/// Whether the add unit's operation of a code has a carry.
fn has_carry(code: u32) -> bool
    ensures { result ≡ has_carry (add_op code) }
{
    match AddOp::of(code) {
        Some(AddOp::Add) => true,
        Some(AddOp::Sub) => true,
        _ => false,
    }
}

/// Whether a setting of the flags defines C.
#[tactic(auto, unfolding(crate::specs::Demands::defines_carry))]
pub(crate) fn defines_carry(f: &Fields) -> bool
    ensures { result ≡ defines_carry f.now }
{
    f.add_active() && has_carry(f.op_add)
}

/// Whether a word uses r4.
#[tactic(auto, unfolding(crate::specs::Demands::uses_r4))]
pub(crate) fn uses_r4(f: &Fields) -> bool
    ensures { result ≡ uses_r4 f.now }
{
    f.uses(MUX_R4)
}

/// Whether a word loads r4.
#[tactic(auto, unfolding(crate::specs::Demands::loads_r4))]
pub(crate) fn loads_r4(f: &Fields) -> bool
    ensures { result ≡ loads_r4 f.now }
{
    f.has_tmu_load()
}

/// The address whose writes are look-ups of a unit.
fn look_place(unit: u32) -> u32
    ensures { result ≡ look_place unit }
{
    if unit == 0 {
        WRITE_TMU0_S
    } else {
        WRITE_TMU1_S
    }
}

/// The look-ups of a unit, 0 or 1, that a word makes.
#[tactic(auto, unfolding(crate::specs::Demands::looks_made))]
pub(crate) fn looks_made(f: &Fields, unit: u32) -> u32
    ensures value { result ≡ looks_made f.now unit }
    ensures small { result ≤ 2 }
{
    one(f.add_writes_to(look_place(unit))) + one(f.mul_writes_to(look_place(unit)))
}

/// The look-ups of a unit, 0 or 1, that a word takes.
#[tactic(auto, unfolding(crate::specs::Demands::looks_taken))]
pub(crate) fn looks_taken(f: &Fields, unit: u32) -> u32
    requires { unit < 2 }
    ensures value { result ≡ looks_taken f.now unit }
    ensures small { result ≤ 1 }
{
    one(f.is_tmu_load(unit))
}
