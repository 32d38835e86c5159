//! What the units leave in the registers.
ghost use Rattle.std.specs.Prelude.{◌≡◌, ◌≢◌, ℕ, ◌<◌, ◌≤◌, Bool, not, if◌then◌else◌};
ghost use Rattle.qpu_word.specs.Lanes.{lane};
ghost use Rattle.qpu_word.specs.Words.{swaps_writes};
ghost use Rattle.qpu_word.specs.Fit.{IsFit};
ghost use Rattle.qpu_word.specs.Operands.{row_of};
ghost use Rattle.qpu_word.specs.Writing.{pack_mode, left, replicated, old_at, stored, written};
ghost use Rattle.qpu_word.specs.Instruction.{write_cond, put_add, put_mul, put_loaded};

use crate::flagging::holds_in;
use crate::processor::Processor;
use crate::sending::sixteen;
use qpu_pack::pack_into;
use qpu_word::code::{COND_ALWAYS, ROWS, WRITE_R0, WRITE_R3, WRITE_R5};
use qpu_word::{Fields, Flags, Ins, LANES, Lanes};

/// The accumulator that TMU loads write, r4 of the manual.
const LOADED: usize = 4;

/// The accumulator that writes of address 37 go to, r5 of the manual.
const REPLICATED: usize = 5;

/// Lanes of a group whose first one goes to all of it.
const QUAD: usize = 4;

/// The packing that leaves values as they are.
const WHOLE: u32 = 0;

/// One number or another.
fn pick(first: bool, a: u32, b: u32) -> u32
    ensures { result ≡ (if first then a else b) }
{
    if first { a } else { b }
}

/// The packing of what goes to a file.
fn pack_mode_of(f: &Fields, in_b: bool) -> u32
    requires { IsFit f.now }
    ensures value { result ≡ pack_mode f.now in_b }
    ensures below { result < 16 }
    ensures known { result ≢ 8 }
{
    if f.is_branch() || in_b { 0 } else { f.pack }
}

/// What a condition and a packing leave of an old value.
#[tactic(auto, using(qpu_word::proofs::LaneLemmas::filled_all), unfolding(qpu_word::specs::Writing::left))]
fn left_of(cond: u32, flags: &Flags, mode: u32, old: &Lanes, values: &Lanes) -> Lanes
    requires below { mode < 16 }
    requires known { mode ≢ 8 }
    ensures { result.v ≡ left cond flags.now mode old.now.v values.now.v }
{
    let packed = pack_into(mode, old, values);
    let mut out = [0; LANES];
    for i in 0..LANES {
        out[i] = pick(holds_in(cond, flags, i as u32), packed.v[i], old.v[i]);
    }
    Lanes { v: out }
}

/// r5 after a value.
#[tactic(auto, using(qpu_word::proofs::LaneLemmas::filled_all), unfolding(qpu_word::specs::Writing::replicated))]
fn replicated_in(in_b: bool, values: &Lanes) -> Lanes
    ensures { result.v ≡ replicated in_b values.now.v }
{
    let mut out = [0; LANES];
    for i in 0..LANES {
        out[i] = pick(in_b, values.v[0], values.v[i / QUAD * QUAD]);
    }
    Lanes { v: out }
}

/// The condition of a unit's write; a link is always written.
pub fn cond_of(f: &Fields, cond: u32) -> u32
    ensures { result ≡ write_cond f.now cond }
{
    if f.is_branch() { COND_ALWAYS } else { cond }
}

impl Processor {
    /// The row or accumulator at an address.
    fn old(&self, in_b: bool, address: u32) -> Lanes
        requires { address ≤ 35 }
        ensures { result.v ≡ old_at self.now in_b address }
    {
        if address < ROWS {
            self.row(in_b, address)
        } else {
            self.accumulator(address - WRITE_R0)
        }
    }

    /// What a condition and the packing leave at a row or at r0 to r3; whole values under the
    /// condition that always holds are left as they are, whatever stood there.
    #[tactic(auto, using(crate::proofs::StoreLemmas::whole_left))]
    fn left_at(&self, f: &Fields, in_b: bool, address: u32, cond: u32, values: &Lanes) -> Lanes
        requires fit { IsFit f.now }
        requires address { address ≤ 35 }
        ensures { result.v ≡ left cond self.now.flags (pack_mode f.now in_b) (old_at self.now in_b address) values.now.v }
    {
        sixteen(values);
        let mode = pack_mode_of(f, in_b);
        if cond == COND_ALWAYS && mode == WHOLE {
            return *values;
        }
        left_of(cond, &self.flags(), mode, &self.old(in_b, address), values)
    }

    /// What a unit leaves at its address of a file.
    #[tactic(auto, unfolding(qpu_word::specs::Writing::stored))]
    pub(crate) fn stored(
        &self,
        f: &Fields,
        in_b: bool,
        address: u32,
        cond: u32,
        values: &Lanes,
    ) -> Lanes
        requires { IsFit f.now }
        ensures { result.v ≡ stored f.now self.now in_b address cond values.now.v }
    {
        if address <= WRITE_R3 {
            self.left_at(f, in_b, address, cond, values)
        } else {
            replicated_in(in_b, values)
        }
    }

    /// Replaces a row or accumulator at an address of a file; the other addresses hold nothing.
    #[tactic(auto, unfolding(qpu_word::specs::Writing::written))]
    fn put(&mut self, in_b: bool, address: u32, values: &Lanes)
        ensures { self.new ≡ written in_b address values.now.v self.old }
    {
        if address < ROWS {
            if in_b {
                self.file_b[address as usize] = values.v;
            } else {
                self.file_a[address as usize] = values.v;
            }
        } else if address <= WRITE_R3 {
            self.accumulators[(address - WRITE_R0) as usize] = values.v;
        } else if address == WRITE_R5 {
            self.accumulators[REPLICATED] = values.v;
        }
    }

    /// The add unit's write.
    #[tactic(auto, unfolding(qpu_word::specs::Instruction::put_add))]
    pub(crate) fn put_add(&mut self, f: &Fields, values: &Lanes)
        ensures { self.new ≡ put_add f.now values.now.v self.old }
    {
        if f.add_writes() {
            self.put(f.swaps_writes(), f.waddr_add, values);
        }
    }

    /// The mul unit's write.
    #[tactic(auto, unfolding(qpu_word::specs::Instruction::put_mul))]
    pub(crate) fn put_mul(&mut self, f: &Fields, values: &Lanes)
        ensures { self.new ≡ put_mul f.now values.now.v self.old }
    {
        if f.mul_writes() {
            self.put(!f.swaps_writes(), f.waddr_mul, values);
        }
    }

    /// r4 after a TMU load.
    #[tactic(auto, unfolding(qpu_word::specs::Instruction::put_loaded))]
    pub(crate) fn put_loaded(&mut self, f: &Fields, ins: &Ins)
        ensures { self.new ≡ put_loaded f.now ins.now self.old }
    {
        if f.has_tmu_load() {
            self.accumulators[LOADED] = ins.loaded.v;
        }
    }
}
