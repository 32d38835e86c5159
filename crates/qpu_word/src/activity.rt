//! Which form a word has, which of its units act, and where they write.
ghost use Rattle.std.specs.Prelude.{◌≡◌, ◌==◌, ◌&&◌, ◌||◌};
ghost use Rattle.qpu_word.specs.Words.{is_alu, is_small, is_unit_word, is_load, is_semaphore, is_branch, is_program_end, is_tmu_load, add_active, mul_active, add_writes, mul_writes, swaps_writes, writes, writes_a, writes_b, writes_link};

use crate::code::{
    KIND_LOAD, KIND_LOAD_SIGNED, KIND_LOAD_UNSIGNED, KIND_SEMAPHORE, NOWHERE, SIGNAL_BRANCH,
    SIGNAL_LOAD_IMMEDIATE, SIGNAL_LOAD_TMU0, SIGNAL_LOAD_TMU1, SIGNAL_NONE, SIGNAL_PROGRAM_END,
    SIGNAL_SMALL_IMMEDIATE,
};
use crate::word::Fields;

impl Fields {
    /// Whether it is an ALU word without a small immediate.
    pub fn is_alu(&self) -> bool
        ensures { result ≡ is_alu self.now }
    {
        self.sig == SIGNAL_NONE
            || self.sig == SIGNAL_PROGRAM_END
            || self.sig == SIGNAL_LOAD_TMU0
            || self.sig == SIGNAL_LOAD_TMU1
    }

    /// Whether it is an ALU word with a small immediate or a rotation.
    pub fn is_small(&self) -> bool
        ensures { result ≡ is_small self.now }
    {
        self.sig == SIGNAL_SMALL_IMMEDIATE
    }

    /// Whether both units compute in it.
    pub fn is_unit_word(&self) -> bool
        ensures { result ≡ is_unit_word self.now }
    {
        self.is_alu() || self.is_small()
    }

    /// Whether it is a load immediate.
    pub fn is_load(&self) -> bool
        ensures { result ≡ is_load self.now }
    {
        self.sig == SIGNAL_LOAD_IMMEDIATE
            && (self.kind == KIND_LOAD
                || self.kind == KIND_LOAD_SIGNED
                || self.kind == KIND_LOAD_UNSIGNED)
    }

    /// Whether it is a semaphore word.
    pub fn is_semaphore(&self) -> bool
        ensures { result ≡ is_semaphore self.now }
    {
        self.sig == SIGNAL_LOAD_IMMEDIATE && self.kind == KIND_SEMAPHORE
    }

    /// Whether it is a branch.
    pub fn is_branch(&self) -> bool
        ensures { result ≡ is_branch self.now }
    {
        self.sig == SIGNAL_BRANCH
    }

    /// Whether it is a program end.
    pub fn is_program_end(&self) -> bool
        ensures { result ≡ is_program_end self.now }
    {
        self.sig == SIGNAL_PROGRAM_END
    }

    /// Whether it is a TMU load of either unit.
    pub fn has_tmu_load(&self) -> bool
        ensures { result ≡ (is_tmu_load self.now 0 || is_tmu_load self.now 1) }
    {
        self.sig == SIGNAL_LOAD_TMU0 || self.sig == SIGNAL_LOAD_TMU1
    }

    /// Whether the add unit of an ALU or small immediate word computes.
    pub fn add_active(&self) -> bool
        ensures { result ≡ add_active self.now }
    {
        self.is_unit_word() && self.op_add != 0 && self.cond_add != 0
    }

    /// Whether the mul unit of an ALU or small immediate word computes.
    pub fn mul_active(&self) -> bool
        ensures { result ≡ mul_active self.now }
    {
        self.is_unit_word() && self.op_mul != 0 && self.cond_mul != 0
    }

    /// Whether the add unit's address is written.
    pub fn add_writes(&self) -> bool
        ensures { result ≡ add_writes self.now }
    {
        self.waddr_add != NOWHERE
            && (self.add_active() || (self.is_load() && self.cond_add != 0) || self.is_branch())
    }

    /// Whether the mul unit's address is written.
    pub fn mul_writes(&self) -> bool
        ensures { result ≡ mul_writes self.now }
    {
        self.waddr_mul != NOWHERE
            && (self.mul_active() || (self.is_load() && self.cond_mul != 0) || self.is_branch())
    }

    /// Whether the add unit writes file B, and the mul unit file A.
    pub fn swaps_writes(&self) -> bool
        ensures { result ≡ swaps_writes self.now }
    {
        self.ws == 1
    }

    /// Whether the add unit writes an address.
    pub fn add_writes_to(&self, address: u32) -> bool
        ensures { result ≡ (add_writes self.now && (self.now.waddr_add == address)) }
    {
        self.add_writes() && self.waddr_add == address
    }

    /// Whether the mul unit writes an address.
    pub fn mul_writes_to(&self, address: u32) -> bool
        ensures { result ≡ (mul_writes self.now && (self.now.waddr_mul == address)) }
    {
        self.mul_writes() && self.waddr_mul == address
    }

    /// Whether a unit writes an address of either file.
    pub fn writes(&self, address: u32) -> bool
        ensures { result ≡ writes self.now address }
    {
        self.add_writes_to(address) || self.mul_writes_to(address)
    }

    /// Whether the unit of file A writes an address.
    pub fn writes_a(&self, address: u32) -> bool
        ensures { result ≡ writes_a self.now address }
    {
        if self.swaps_writes() {
            self.mul_writes_to(address)
        } else {
            self.add_writes_to(address)
        }
    }

    /// Whether the unit of file B writes an address.
    pub fn writes_b(&self, address: u32) -> bool
        ensures { result ≡ writes_b self.now address }
    {
        if self.swaps_writes() {
            self.add_writes_to(address)
        } else {
            self.mul_writes_to(address)
        }
    }

    /// Whether it is a branch that writes a link.
    pub fn writes_link(&self) -> bool
        ensures { result ≡ writes_link self.now }
    {
        self.is_branch() && (self.add_writes() || self.mul_writes())
    }
}
