//! Branches (Guide, "QPU Instruction Encoding").
ghost use Rattle.std.specs.Prelude.{◌≡◌, ◌==◌};
ghost use Rattle.qpu_line.specs.Branches.{register_of, branch_of, register_row, branch_instruction_high, branch_instruction_word};

use crate::slots::{
    ADD_ADDRESS, ADDRESSES, BRANCH_CONDITIONS, BRANCH_ROWS, EXCHANGE, MUL_ADDRESS, PACK, REGISTER,
    RELATIVE, ROW, SIGNAL, join,
};
use crate::target::{address_of, exchange_of, target_of};
use qpu_word::code::SIGNAL_BRANCH;
use qpu_word::{Fields, Place};

/// A branch.
#[derive(Clone, Copy, Debug, PartialEq, Eq)]
pub struct Branch {
    /// The branch condition's code, 0 to 11 or 15.
    pub cond: u32,
    /// Whether the target is relative to the address after the slots.
    pub relative: bool,
    /// The row of file A whose lane 0 is added to the target, where one is.
    pub register: Option<u32>,
    /// Where the add unit writes the link.
    pub add: Place,
    /// Where the mul unit writes the link.
    pub mul: Place,
    /// The immediate, in bytes.
    pub immediate: u32,
}

/// The row that a branch adds, where it adds one.
fn register_of(on: bool, row: u32) -> Option<u32>
    ensures { result ≡ register_of on row }
{
    if on { Some(row) } else { None }
}

/// The row of a branch that adds one or none.
fn register_row(register: Option<u32>) -> u32
    ensures { result ≡ register_row register }
{
    match register {
        None => 0,
        Some(row) => row,
    }
}

impl Branch {
    /// The branch of a word's fields.
    pub(crate) fn of(f: &Fields) -> Branch
        ensures { result ≡ branch_of f.now }
    {
        Branch {
            cond: f.cond_br,
            relative: f.rel == 1,
            register: register_of(f.reg == 1, f.raddr_br),
            add: target_of(f.ws == 1, f.waddr_add),
            mul: target_of(f.ws != 1, f.waddr_mul),
            immediate: f.immediate,
        }
    }

    /// The upper half of its word.
    fn high(&self) -> u32
        ensures { result ≡ branch_instruction_high self.now }
    {
        SIGNAL_BRANCH * SIGNAL
            + self.cond % BRANCH_CONDITIONS * PACK
            + u32::from(self.relative) * RELATIVE
            + u32::from(self.register.is_some()) * REGISTER
            + register_row(self.register) % BRANCH_ROWS * ROW
            + exchange_of(self.add, self.mul) * EXCHANGE
            + address_of(self.add) % ADDRESSES * ADD_ADDRESS
            + address_of(self.mul) % ADDRESSES * MUL_ADDRESS
    }

    /// Its word, as a number.
    pub(crate) fn word(&self) -> u64
        ensures { result ≡ branch_instruction_word self.now }
    {
        join(self.high(), self.immediate)
    }
}
