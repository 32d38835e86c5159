//! What the units send, and what of it goes out of the processor.
ghost use Rattle.std.specs.Prelude.{◌≡◌, ℕ};
ghost use Rattle.qpu_word.specs.Instruction.{sent_to, sent_to_a, sent_to_b, first_lane, as_lanes, outs_from};

use crate::code::{WRITE_DMA_ADDRESS, WRITE_UNIFORMS_ADDRESS, WRITE_VPM, WRITE_VPM_SETUP};
use crate::lanes::Lanes;
use crate::state::Flags;
use crate::traffic::Outs;
use crate::word::Fields;

/// What a word sends, and the flags after it.
#[derive(Clone, Copy, Debug, PartialEq, Eq)]
pub struct Sent {
    /// From the add unit.
    pub add: Lanes,
    /// From the mul unit, after rotation.
    pub mul: Lanes,
    /// The flags after the word.
    pub flags: Flags,
}

/// The value sent to an address of either file.
#[tactic(auto, unfolding(crate::specs::Instruction::sent_to))]
fn value_to(f: &Fields, sent: &Sent, address: u32) -> Option<Lanes>
    ensures { result ≡ as_lanes (sent_to f.now sent.now.add.v sent.now.mul.v address) }
{
    if f.mul_writes_to(address) {
        Some(sent.mul)
    } else if f.add_writes_to(address) {
        Some(sent.add)
    } else {
        None
    }
}

/// Lane 0 of the value sent to an address of either file.
#[tactic(auto, unfolding(crate::specs::Instruction::sent_to))]
fn first_to(f: &Fields, sent: &Sent, address: u32) -> Option<u32>
    ensures { result ≡ first_lane (sent_to f.now sent.now.add.v sent.now.mul.v address) }
{
    if f.mul_writes_to(address) {
        Some(sent.mul.v[0])
    } else if f.add_writes_to(address) {
        Some(sent.add.v[0])
    } else {
        None
    }
}

/// Lane 0 of the value sent to an address of file A.
#[tactic(auto, unfolding(crate::specs::Instruction::sent_to_a))]
fn first_to_a(f: &Fields, sent: &Sent, address: u32) -> Option<u32>
    ensures { result ≡ first_lane (sent_to_a f.now sent.now.add.v sent.now.mul.v address) }
{
    if !f.writes_a(address) {
        None
    } else if f.swaps_writes() {
        Some(sent.mul.v[0])
    } else {
        Some(sent.add.v[0])
    }
}

/// Lane 0 of the value sent to an address of file B.
#[tactic(auto, unfolding(crate::specs::Instruction::sent_to_b))]
fn first_to_b(f: &Fields, sent: &Sent, address: u32) -> Option<u32>
    ensures { result ≡ first_lane (sent_to_b f.now sent.now.add.v sent.now.mul.v address) }
{
    if !f.writes_b(address) {
        None
    } else if f.swaps_writes() {
        Some(sent.add.v[0])
    } else {
        Some(sent.mul.v[0])
    }
}

impl Sent {
    /// What of it a word of these fields sends out of the processor.
    #[tactic(auto, unfolding(crate::specs::Instruction::outs_from))]
    pub fn outs(&self, f: &Fields) -> Outs
        ensures { result ≡ outs_from f.now self.now.add.v self.now.mul.v }
    {
        Outs {
            vpm: value_to(f, self, WRITE_VPM),
            to_read_setup: first_to_a(f, self, WRITE_VPM_SETUP),
            to_write_setup: first_to_b(f, self, WRITE_VPM_SETUP),
            uniform_to: first_to(f, self, WRITE_UNIFORMS_ADDRESS),
            load_at: first_to_a(f, self, WRITE_DMA_ADDRESS),
            store_at: first_to_b(f, self, WRITE_DMA_ADDRESS),
            look_unit: f.look_unit(),
            look: value_to(f, self, f.look_address()),
        }
    }
}
