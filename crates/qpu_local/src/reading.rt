//! What read addresses and muxes give.
ghost use Rattle.std.specs.Prelude.{◌≡◌, ℕ, ◌<◌, Bool, if◌then◌else◌};
ghost use Rattle.qpu_word.specs.Lanes.{Gives, lane, lanes};
ghost use Rattle.qpu_word.specs.Words.{is_small};
ghost use Rattle.qpu_word.specs.Operands.{row_of, read_a, read_b, operand, unpacked, immediate_of, bit_of};

use crate::processor::Processor;
use qpu_pack::{immediate_of, unpack};
use qpu_word::code::{
    MUX_FILE_A, MUX_FILE_B, READ_DMA_BUSY, READ_NUMBER, READ_UNIFORM, READ_VPM, ROWS,
};
use qpu_word::{Fields, Ins, LANES, Lanes};

/// One number in all lanes.
#[tactic(auto, using(qpu_word::proofs::LaneLemmas::gives_repeated, qpu_word::proofs::LaneLemmas::lanes_repeated))]
pub fn repeated(n: u32) -> Lanes
    ensures gives { Gives result.v (λ i. n) }
    ensures lanes { result.v ≡ lanes (λ i. n) }
{
    Lanes { v: [n; LANES] }
}

/// Lane i has i.
#[tactic(auto, using(qpu_word::proofs::LaneLemmas::filled_gives))]
fn numbers() -> Lanes
    ensures { Gives result.v (λ i. i) }
{
    let mut out = [0; LANES];
    for i in 0..LANES {
        out[i] = i as u32;
    }
    Lanes { v: out }
}

/// 1 for true, 0 for false, in all lanes.
fn bits(on: bool) -> Lanes
    ensures { Gives result.v (λ i. bit_of on) }
{
    repeated(if on { 1 } else { 0 })
}

impl Processor {
    /// What a read address of file A gives.
    #[tactic(auto, unfolding(qpu_word::specs::Operands::read_a))]
    fn read_a(&self, ins: &Ins, address: u32) -> Lanes
        ensures { Gives result.v (read_a self.now ins.now address) }
    {
        if address < ROWS {
            self.row(false, address)
        } else if address == READ_UNIFORM {
            repeated(ins.uniform)
        } else if address == READ_NUMBER {
            numbers()
        } else if address == READ_VPM {
            ins.vpm
        } else if address == READ_DMA_BUSY {
            bits(ins.load_busy)
        } else {
            repeated(0)
        }
    }

    /// What a read address of file B gives.
    #[tactic(auto, unfolding(qpu_word::specs::Operands::read_b))]
    fn read_b(&self, ins: &Ins, address: u32) -> Lanes
        ensures { Gives result.v (read_b self.now ins.now address) }
    {
        if address < ROWS {
            self.row(true, address)
        } else if address == READ_UNIFORM {
            repeated(ins.uniform)
        } else if address == READ_NUMBER {
            repeated(self.q())
        } else if address == READ_VPM {
            ins.vpm
        } else if address == READ_DMA_BUSY {
            bits(ins.store_busy)
        } else {
            repeated(0)
        }
    }

    /// The file A value after unpacking.
    fn operand_a(&self, f: &Fields, ins: &Ins) -> Lanes
        requires { f.now.unpack < 8 }
        ensures { Gives result.v (λ i. unpacked f.now.unpack (read_a self.now ins.now f.now.raddr_a i)) }
    {
        unpack(f.unpack, &self.read_a(ins, f.raddr_a))
    }

    /// The file B value, or the small immediate in its place.
    fn operand_b(&self, f: &Fields, ins: &Ins) -> Lanes
        ensures { Gives result.v (λ i. if is_small f.now then immediate_of f.now.raddr_b else read_b self.now ins.now f.now.raddr_b i) }
    {
        if f.is_small() {
            repeated(immediate_of(f.raddr_b))
        } else {
            self.read_b(ins, f.raddr_b)
        }
    }

    /// What a mux gives.
    #[tactic(auto, unfolding(qpu_word::specs::Operands::operand))]
    pub(crate) fn operand(&self, f: &Fields, ins: &Ins, mux: u32) -> Lanes
        requires unpack { f.now.unpack < 8 }
        requires mux { mux < 8 }
        ensures { Gives result.v (operand f.now self.now ins.now mux) }
    {
        if mux == MUX_FILE_A {
            self.operand_a(f, ins)
        } else if mux == MUX_FILE_B {
            self.operand_b(f, ins)
        } else {
            self.accumulator(mux)
        }
    }
}
