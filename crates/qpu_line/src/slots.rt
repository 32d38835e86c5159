//! Where fields stand in the halves of a word (Guide, "QPU Instruction Encoding").
ghost use Rattle.std.specs.Prelude.{◌≡◌, ◌+◌, ◌*◌, ◌^◌};
ghost use Rattle.qpu_line.specs.Slots.{unit_fields, unit_high, units_low, units_word};

use qpu_word::Fields;
pub(crate) use qpu_word::slot::{
    ADD_ADDRESS, ADD_CODES, ADD_CONDITION, ADD_FIRST, ADD_OPERATION, ADD_SECOND, ADDRESSES,
    BRANCH_CONDITIONS, BRANCH_ROWS, CONDITIONS, EXCHANGE, FLAGS, KIND, MUL_ADDRESS, MUL_CODES,
    MUL_CONDITION, MUL_FIRST, MUL_OPERATION, MUL_SECOND, MUXES, PACK, PACKS, READ_A, READ_B,
    REGISTER, RELATIVE, ROW, SETS, SIGNAL, SIGNALS, UNPACKS,
};

/// A word of two halves.
pub(crate) fn join(high: u32, low: u32) -> u64
    ensures { result ≡ high * 2 ^ 32 + low }
{
    (u64::from(high) << 32) + u64::from(low)
}

/// The fields of a word in which both units compute (Guide, "QPU Instruction Encoding").
#[derive(Clone, Copy, Debug, PartialEq, Eq)]
pub struct UnitFields {
    pub sig: u32,
    pub unpack: u32,
    pub pack: u32,
    pub cond_add: u32,
    pub cond_mul: u32,
    pub sf: u32,
    pub ws: u32,
    pub waddr_add: u32,
    pub waddr_mul: u32,
    pub op_mul: u32,
    pub op_add: u32,
    pub raddr_a: u32,
    pub raddr_b: u32,
    pub add_a: u32,
    pub add_b: u32,
    pub mul_a: u32,
    pub mul_b: u32,
}

impl UnitFields {
    /// Such fields among those of a word.
    pub(crate) fn of(f: &Fields) -> UnitFields
        ensures { result ≡ unit_fields f.now }
    {
        UnitFields {
            sig: f.sig,
            unpack: f.unpack,
            pack: f.pack,
            cond_add: f.cond_add,
            cond_mul: f.cond_mul,
            sf: f.sf,
            ws: f.ws,
            waddr_add: f.waddr_add,
            waddr_mul: f.waddr_mul,
            op_mul: f.op_mul,
            op_add: f.op_add,
            raddr_a: f.raddr_a,
            raddr_b: f.raddr_b,
            add_a: f.add_a,
            add_b: f.add_b,
            mul_a: f.mul_a,
            mul_b: f.mul_b,
        }
    }

    /// The upper half of their word.
    fn high(&self) -> u32
        ensures { result ≡ unit_high self.now }
    {
        self.sig % SIGNALS * SIGNAL
            + self.unpack % UNPACKS * KIND
            + self.pack % PACKS * PACK
            + self.cond_add % CONDITIONS * ADD_CONDITION
            + self.cond_mul % CONDITIONS * MUL_CONDITION
            + self.sf % FLAGS * SETS
            + self.ws % FLAGS * EXCHANGE
            + self.waddr_add % ADDRESSES * ADD_ADDRESS
            + self.waddr_mul % ADDRESSES * MUL_ADDRESS
    }

    /// The lower half of their word.
    fn low(&self) -> u32
        ensures { result ≡ units_low self.now }
    {
        self.op_mul % MUL_CODES * MUL_OPERATION
            + self.op_add % ADD_CODES * ADD_OPERATION
            + self.raddr_a % ADDRESSES * READ_A
            + self.raddr_b % ADDRESSES * READ_B
            + self.add_a % MUXES * ADD_FIRST
            + self.add_b % MUXES * ADD_SECOND
            + self.mul_a % MUXES * MUL_FIRST
            + self.mul_b % MUXES * MUL_SECOND
    }

    /// Their word, as a number.
    #[tactic(auto, unfolding(crate::specs::Slots::units_word))]
    pub(crate) fn word(&self) -> u64
        ensures { result ≡ units_word self.now }
    {
        join(self.high(), self.low())
    }
}
