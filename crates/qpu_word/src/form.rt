//! The form of a word, or why it is outside the profile.
ghost use Rattle.std.specs.Prelude.{◌≡◌, ◌↔◌, ◌==◌, ◌&&◌, ◌||◌, not, find, IsOk};
ghost use Rattle.qpu_word.specs.Words.{is_load, add_active, mul_active, is_read_address, is_write_address, is_link_address, packs_row, bad_packing, has_fault, all_faults, word_fault, IsInProfile};
ghost use Rattle.qpu_word.specs.Form.{immediate_form, form_of, word_form};

use crate::code::{
    KIND_LOAD, KIND_LOAD_SIGNED, KIND_LOAD_UNSIGNED, MUX_FILE_A, MUX_FILE_B, NOWHERE,
    READ_DMA_BUSY, READ_DMA_WAIT, READ_MUTEX, READ_NUMBER, READ_UNIFORM, READ_VPM, ROTATE_BY_R5,
    ROWS, SIGNAL_BRANCH, SIGNAL_LOAD_IMMEDIATE, WRITE_DMA_ADDRESS, WRITE_HOST_INT, WRITE_MUTEX,
    WRITE_R3, WRITE_R5, WRITE_TMU0_S, WRITE_TMU1_S, WRITE_UNIFORMS_ADDRESS, WRITE_VPM,
    WRITE_VPM_SETUP,
};
use crate::fault::WordFault;
use crate::word::{Fields, Word};

/// The forms of words of the profile (Guide, "QPU Instruction Encoding").
#[derive(Clone, Copy, Debug, PartialEq, Eq)]
pub enum Form {
    /// Both units compute.
    Alu,
    /// Both units compute, with a small immediate or a rotation.
    Small,
    /// A load of one immediate into all lanes.
    Load32,
    /// A load of two bits a lane, signed.
    LoadSigned,
    /// A load of two bits a lane, unsigned.
    LoadUnsigned,
    /// An increment or decrement of a semaphore.
    Semaphore,
    /// A branch.
    Branch,
}

/// The pack mode of the table's gap.
const NO_PACKING: u32 = 8;

/// Whether a read address has a name.
fn is_read_address(address: u32) -> bool
    ensures { result ≡ is_read_address address }
{
    address < ROWS
        || address == READ_UNIFORM
        || address == READ_NUMBER
        || address == NOWHERE
        || address == READ_VPM
        || address == READ_DMA_BUSY
        || address == READ_DMA_WAIT
        || address == READ_MUTEX
}

/// Whether a write address has a name.
fn is_write_address(address: u32) -> bool
    ensures { result ≡ is_write_address address }
{
    address <= WRITE_R3
        || address == WRITE_R5
        || address == WRITE_HOST_INT
        || address == NOWHERE
        || address == WRITE_UNIFORMS_ADDRESS
        || address == WRITE_VPM
        || address == WRITE_VPM_SETUP
        || address == WRITE_DMA_ADDRESS
        || address == WRITE_MUTEX
        || address == WRITE_TMU0_S
        || address == WRITE_TMU1_S
}

/// Whether a branch can link to a write address.
fn is_link_address(address: u32) -> bool
    ensures { result ≡ is_link_address address }
{
    address <= WRITE_R3 || address == NOWHERE
}

/// The form of a word with the signal of load immediates, by its kind.
fn immediate_form(kind: u32) -> Form
    ensures { result ≡ immediate_form kind }
{
    match kind {
        KIND_LOAD => Form::Load32,
        KIND_LOAD_SIGNED => Form::LoadSigned,
        KIND_LOAD_UNSIGNED => Form::LoadUnsigned,
        _ => Form::Semaphore,
    }
}

impl Fields {
    /// Whether the add unit is to write what it computes or loads, wherever that goes.
    fn add_sends(&self) -> bool
        ensures { result ≡ (add_active self.now || (is_load self.now && not (self.now.cond_add == 0))) }
    {
        self.add_active() || (self.is_load() && self.cond_add != 0)
    }

    /// The same of the mul unit.
    fn mul_sends(&self) -> bool
        ensures { result ≡ (mul_active self.now || (is_load self.now && not (self.now.cond_mul == 0))) }
    {
        self.mul_active() || (self.is_load() && self.cond_mul != 0)
    }

    /// Whether the unit of file A is active and writes a row.
    fn packs_row(&self) -> bool
        ensures { result ≡ packs_row self.now }
    {
        if self.swaps_writes() {
            self.mul_active() && self.waddr_mul < ROWS
        } else {
            self.add_active() && self.waddr_add < ROWS
        }
    }

    /// Whether the packing of an ALU or small immediate word can't be done.
    fn bad_packing(&self) -> bool
        ensures { result ≡ bad_packing self.now }
    {
        (self.pm == 1 && !(self.pack == 0 && self.unpack == 0))
            || self.pack == NO_PACKING
            || (self.pack != 0 && !self.packs_row())
            || (self.unpack != 0 && (ROWS <= self.raddr_a || !self.uses(MUX_FILE_A)))
    }

    /// Whether the signal is none of the profile's.
    #[tactic(auto, unfolding(crate::specs::Words::has_fault))]
    fn bad_signal(&self) -> bool
        ensures { result ≡ has_fault self.now WordFault.Signal }
    {
        !(self.is_unit_word() || self.sig == SIGNAL_LOAD_IMMEDIATE || self.sig == SIGNAL_BRANCH)
    }

    /// Whether a unit operates on floating numbers.
    #[tactic(auto, unfolding(crate::specs::Words::has_fault))]
    fn is_float(&self) -> bool
        ensures { result ≡ has_fault self.now WordFault.FloatOp }
    {
        self.is_unit_word() && ((1..=8).contains(&self.op_add) || self.op_mul == 1)
    }

    /// Whether the add unit's operation is reserved.
    #[tactic(auto, unfolding(crate::specs::Words::has_fault))]
    fn is_reserved(&self) -> bool
        ensures { result ≡ has_fault self.now WordFault.ReservedOp }
    {
        self.is_unit_word() && ((9..=11).contains(&self.op_add) || (25..=29).contains(&self.op_add))
    }

    /// Whether a read address has no name.
    #[tactic(auto, unfolding(crate::specs::Words::has_fault))]
    fn bad_read(&self) -> bool
        ensures { result ≡ has_fault self.now WordFault.ReadAddress }
    {
        self.is_unit_word()
            && (!is_read_address(self.raddr_a)
                || (!self.is_small() && !is_read_address(self.raddr_b)))
    }

    /// Whether a write address has no name, or a branch can't link to it.
    #[tactic(auto, unfolding(crate::specs::Words::has_fault))]
    fn bad_write(&self) -> bool
        ensures { result ≡ has_fault self.now WordFault.WriteAddress }
    {
        (self.add_sends() && !is_write_address(self.waddr_add))
            || (self.mul_sends() && !is_write_address(self.waddr_mul))
            || (self.is_branch()
                && !(is_link_address(self.waddr_add) && is_link_address(self.waddr_mul)))
    }

    /// Whether a packing can't be done.
    #[tactic(auto, unfolding(crate::specs::Words::has_fault))]
    fn bad_pack(&self) -> bool
        ensures { result ≡ has_fault self.now WordFault.Packing }
    {
        (self.is_unit_word() && self.bad_packing())
            || (self.sig == SIGNAL_LOAD_IMMEDIATE && self.pack != 0)
    }

    /// Whether a branch's condition is reserved.
    #[tactic(auto, unfolding(crate::specs::Words::has_fault))]
    fn bad_branch(&self) -> bool
        ensures { result ≡ has_fault self.now WordFault.BranchCond }
    {
        self.is_branch() && (12..=14).contains(&self.cond_br)
    }

    /// Whether a load immediate has no kind.
    #[tactic(auto, unfolding(crate::specs::Words::has_fault))]
    fn bad_load(&self) -> bool
        ensures { result ≡ has_fault self.now WordFault.LoadKind }
    {
        self.sig == SIGNAL_LOAD_IMMEDIATE && !(self.is_load() || self.is_semaphore())
    }

    /// Whether a rotation is of an operand that can't be rotated.
    #[tactic(auto, unfolding(crate::specs::Words::has_fault))]
    fn bad_rotation(&self) -> bool
        ensures { result ≡ has_fault self.now WordFault.Rotation }
    {
        self.is_small()
            && ROTATE_BY_R5 <= self.raddr_b
            && ((self.mul_active() && (3 < self.mul_a || 3 < self.mul_b)) || self.uses(MUX_FILE_B))
    }

    /// Whether a semaphore word writes.
    #[tactic(auto, unfolding(crate::specs::Words::has_fault))]
    fn bad_semaphore(&self) -> bool
        ensures { result ≡ has_fault self.now WordFault.SemaphoreTarget }
    {
        self.is_semaphore() && !(self.waddr_add == NOWHERE && self.waddr_mul == NOWHERE)
    }

    /// Whether a unit uses a read address that reads nothing.
    #[tactic(auto, unfolding(crate::specs::Words::has_fault))]
    fn bad_source(&self) -> bool
        ensures { result ≡ has_fault self.now WordFault.NoSource }
    {
        (self.uses(MUX_FILE_A) && self.raddr_a == NOWHERE)
            || (self.uses(MUX_FILE_B) && !self.is_small() && self.raddr_b == NOWHERE)
    }

    /// The least fault, none in the profile.
    fn fault(&self) -> Option<WordFault>
        ensures { result ≡ find (has_fault self.now) all_faults }
    {
        if self.bad_signal() {
            Some(WordFault::Signal)
        } else if self.is_float() {
            Some(WordFault::FloatOp)
        } else if self.is_reserved() {
            Some(WordFault::ReservedOp)
        } else if self.bad_read() {
            Some(WordFault::ReadAddress)
        } else if self.bad_write() {
            Some(WordFault::WriteAddress)
        } else if self.bad_pack() {
            Some(WordFault::Packing)
        } else if self.bad_branch() {
            Some(WordFault::BranchCond)
        } else if self.bad_load() {
            Some(WordFault::LoadKind)
        } else if self.bad_rotation() {
            Some(WordFault::Rotation)
        } else if self.bad_semaphore() {
            Some(WordFault::SemaphoreTarget)
        } else if self.bad_source() {
            Some(WordFault::NoSource)
        } else {
            None
        }
    }

    /// The form, by the signal and the kind of load.
    #[tactic(auto, unfolding(crate::specs::Form::form_of))]
    fn form(&self) -> Form
        ensures { result ≡ form_of self.now }
    {
        if self.is_alu() {
            Form::Alu
        } else if self.is_small() {
            Form::Small
        } else if self.is_branch() {
            Form::Branch
        } else {
            immediate_form(self.kind)
        }
    }
}

impl Word {
    /// The form of a word of the profile. An error exactly where the word is outside the profile:
    /// the first of its faults, in the order in which `WordFault` lists them.
    #[tactic(auto, unfolding(crate::specs::Form::word_form, crate::specs::Words::word_fault))]
    pub fn form(self) -> Result<Form, WordFault>
        ensures form { result ≡ word_form self.0 }
        ensures profile { IsOk result ↔ IsInProfile self.0 }
    {
        let f = self.fields();
        match f.fault() {
            None => Ok(f.form()),
            Some(fault) => Err(fault),
        }
    }
}
