//! The word of its fields, form by form (Guide, "QPU Instruction Encoding"). Of each number as many
//! low bits count as its field has.
ghost use Rattle.std.specs.Prelude.{◌≡◌, ◌+◌, ◌*◌, ◌^◌};
ghost use Rattle.qpu_word.specs.Packed.{ends_of, high_of, branch_high, unit_low, unit_word, immediate_word, branch_word};

use crate::slot::{
    ADD_ADDRESS, ADD_CODES, ADD_CONDITION, ADD_FIRST, ADD_OPERATION, ADD_SECOND, ADDRESSES,
    BRANCH_CONDITION, BRANCH_CONDITIONS, BRANCH_ROWS, CONDITIONS, EXCHANGE, FLAGS, KIND, KINDS,
    MUL_ADDRESS, MUL_CODES, MUL_CONDITION, MUL_FIRST, MUL_OPERATION, MUL_SECOND, MUXES, PACK,
    PACKER, PACKS, READ_A, READ_B, REGISTER, RELATIVE, ROW, SETS, SIGNAL, SIGNALS, UNPACK, UNPACKS,
};
use crate::word::{Fields, Word};

/// A word of two halves.
fn join(high: u32, low: u32) -> Word
    ensures { result.0 ≡ high * 2 ^ 32 + low }
{
    Word((u64::from(high) << 32) + u64::from(low))
}

impl Fields {
    /// What the upper halves of all forms share.
    fn ends(&self) -> u32
        ensures { result ≡ ends_of self.now }
    {
        self.sig % SIGNALS * SIGNAL
            + self.ws % FLAGS * EXCHANGE
            + self.waddr_add % ADDRESSES * ADD_ADDRESS
            + self.waddr_mul % ADDRESSES * MUL_ADDRESS
    }

    /// What the upper halves of words other than branches share.
    fn high(&self) -> u32
        ensures { result ≡ high_of self.now }
    {
        self.ends()
            + self.pm % FLAGS * PACKER
            + self.pack % PACKS * PACK
            + self.cond_add % CONDITIONS * ADD_CONDITION
            + self.cond_mul % CONDITIONS * MUL_CONDITION
            + self.sf % FLAGS * SETS
    }

    /// The upper half of a branch.
    fn branch_high(&self) -> u32
        ensures { result ≡ branch_high self.now }
    {
        self.ends()
            + self.kind % KINDS * KIND
            + self.pm % FLAGS * PACKER
            + self.cond_br % BRANCH_CONDITIONS * BRANCH_CONDITION
            + self.rel % FLAGS * RELATIVE
            + self.reg % FLAGS * REGISTER
            + self.raddr_br % BRANCH_ROWS * ROW
    }

    /// The lower half of an ALU or small immediate word.
    fn unit_low(&self) -> u32
        ensures { result ≡ unit_low self.now }
    {
        self.op_mul % MUL_CODES * MUL_OPERATION
            + self.op_add % ADD_CODES * ADD_OPERATION
            + self.raddr_a % ADDRESSES * READ_A
            + self.raddr_b % ADDRESSES * READ_B
            + self.add_a % MUXES * ADD_FIRST
            + self.add_b % MUXES * ADD_SECOND
            + self.mul_a % MUXES * MUL_FIRST
            + self.mul_b % MUXES * MUL_SECOND
    }

    /// The ALU or small immediate word of the fields.
    #[tactic(auto, unfolding(crate::specs::Packed::unit_word))]
    pub(crate) fn unit_word(&self) -> Word
        ensures { result.0 ≡ unit_word self.now }
    {
        join(
            self.high() + self.unpack % UNPACKS * UNPACK,
            self.unit_low(),
        )
    }

    /// The load immediate or semaphore word of the fields.
    #[tactic(auto, unfolding(crate::specs::Packed::immediate_word))]
    pub(crate) fn immediate_word(&self) -> Word
        ensures { result.0 ≡ immediate_word self.now }
    {
        join(self.high() + self.kind % KINDS * KIND, self.immediate)
    }

    /// The branch of the fields.
    #[tactic(auto, unfolding(crate::specs::Packed::branch_word))]
    pub(crate) fn branch_word(&self) -> Word
        ensures { result.0 ≡ branch_word self.now }
    {
        join(self.branch_high(), self.immediate)
    }
}
