//! What the units send to their addresses, and the flags that a word leaves.
ghost use Rattle.std.specs.Prelude.{◌≡◌, ℕ, ◌<◌, false, length, IsTrue};
ghost use Rattle.qpu_word.specs.Words.{is_branch, is_unit_word};
ghost use Rattle.qpu_word.specs.Lanes.{lanes};
ghost use Rattle.qpu_word.specs.Fit.{IsFit};
ghost use Rattle.qpu_word.specs.declared.traffic.Ins.{Ins};
ghost use Rattle.qpu_word.specs.Instruction.{signed_pair, bit_pair, loaded, link_of, plain_values, add_sent, mul_sent, flags_after};

use crate::flagging::{after_load, after_units};
use crate::processor::Processor;
use crate::reading::repeated;
use qpu_pack::rotate;
use qpu_word::code::{BRANCH_SLOTS, INSTRUCTION_BYTES, KIND_LOAD, KIND_LOAD_SIGNED};
use qpu_word::{Fields, Ins, LANES, Lanes, Sent};

/// What a negative number of two bits adds over 32 bits.
const SIGN_OVER_TWO_BITS: u32 = 0xffff_fffc;

/// Tells that a value has sixteen lanes.
pub fn sixteen(values: &Lanes)
    ensures { length values.now.v ≡ 16 }
{
    let _first = values.v[0];
}

/// Two bits as a signed number.
fn signed(pair: u32) -> u32
    requires { pair < 4 }
    ensures { result ≡ signed_pair pair }
{
    if pair < 2 {
        pair
    } else {
        pair + SIGN_OVER_TWO_BITS
    }
}

/// The two bits of a lane in an immediate.
fn pair_of(immediate: u32, lane: u32) -> u32
    requires { lane < 16 }
    ensures value { result ≡ bit_pair immediate lane }
    ensures below { result < 4 }
{
    2 * ((immediate >> (16 + lane)) % 2) + (immediate >> lane) % 2
}

/// What a load immediate gives in a lane.
#[tactic(auto, unfolding(qpu_word::specs::Instruction::loaded))]
fn loaded_in(f: &Fields, lane: u32) -> u32
    requires { lane < 16 }
    ensures { result ≡ loaded f.now lane }
{
    if f.kind == KIND_LOAD {
        f.immediate
    } else if f.kind == KIND_LOAD_SIGNED {
        signed(pair_of(f.immediate, lane))
    } else {
        pair_of(f.immediate, lane)
    }
}

/// The link of a branch: the byte address after its slots.
pub fn link(place: u32) -> u32
    requires { place < 4096 }
    ensures { result ≡ link_of place }
{
    INSTRUCTION_BYTES * (place + 1 + BRANCH_SLOTS)
}

/// The values of a load immediate.
#[tactic(auto, using(qpu_word::proofs::LaneLemmas::filled_all))]
fn load_values(f: &Fields) -> Lanes
    ensures { result.v ≡ lanes (loaded f.now) }
{
    let mut out = [0; LANES];
    for i in 0..LANES {
        out[i] = loaded_in(f, i as u32);
    }
    Lanes { v: out }
}

/// The values of a load immediate, or the link of a branch.
#[tactic(auto, unfolding(qpu_word::specs::Instruction::plain_values))]
fn plain(f: &Fields, place: u32) -> Lanes
    requires { IsTrue (is_branch f.now) → place < 4096 }
    ensures { result.v ≡ plain_values f.now place }
{
    if f.is_branch() {
        repeated(link(place))
    } else {
        load_values(f)
    }
}

impl Processor {
    /// What a word in which both units compute sends, and the flags after it.
    #[tactic(auto, unfolding(qpu_word::specs::Instruction::add_sent, qpu_word::specs::Instruction::mul_sent, qpu_word::specs::Instruction::flags_after))]
    fn sent_by_units(&self, f: &Fields, ins: &Ins) -> Sent
        requires fit { IsFit f.now }
        requires unit { IsTrue (is_unit_word f.now) }
        ensures add { result.add.v ≡ add_sent f.now self.now ins.now }
        ensures mul { result.mul.v ≡ mul_sent f.now self.now ins.now }
        ensures flags { result.flags ≡ flags_after f.now self.now ins.now }
    {
        let (add, carries) = self.add_results(f, ins);
        let mul = self.mul_results(f, ins);
        Sent {
            flags: after_units(f, self.flags(), &add, carries, &mul),
            mul: rotate(&mul, self.rotation(f)),
            add,
        }
    }

    /// What a load immediate or a branch sends, and the flags after it.
    #[tactic(auto, unfolding(qpu_word::specs::Instruction::add_sent, qpu_word::specs::Instruction::mul_sent, qpu_word::specs::Instruction::flags_after))]
    fn sent_plain(&self, f: &Fields) -> Sent
        requires place { IsTrue (is_branch f.now) → self.now.place < 4096 }
        requires plain { is_unit_word f.now ≡ false }
        ensures add { (ins : Ins) → result.add.v ≡ add_sent f.now self.now ins }
        ensures mul { (ins : Ins) → result.mul.v ≡ mul_sent f.now self.now ins }
        ensures flags { (ins : Ins) → result.flags ≡ flags_after f.now self.now ins }
    {
        let values = plain(f, self.place());
        Sent {
            flags: after_load(f, self.flags(), &values),
            add: values,
            mul: values,
        }
    }

    /// What a word sends, and the flags after it.
    pub(crate) fn sent(&self, f: &Fields, ins: &Ins) -> Sent
        requires fit { IsFit f.now }
        requires place { IsTrue (is_branch f.now) → self.now.place < 4096 }
        ensures add { result.add.v ≡ add_sent f.now self.now ins.now }
        ensures mul { result.mul.v ≡ mul_sent f.now self.now ins.now }
        ensures flags { result.flags ≡ flags_after f.now self.now ins.now }
    {
        if f.is_unit_word() {
            self.sent_by_units(f, ins)
        } else {
            self.sent_plain(f)
        }
    }
}
