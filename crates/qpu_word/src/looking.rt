//! By which address, and to which TMU unit, a word issues a look-up.
ghost use Rattle.std.specs.Prelude.{◌≡◌, ◌<◌};
ghost use Rattle.qpu_word.specs.Instruction.{is_look_address, look_address, look_unit_of};

use crate::code::{NOWHERE, WRITE_TMU0_S, WRITE_TMU1_S};
use crate::word::Fields;

/// Whether a write address issues a look-up.
pub fn is_look_address(address: u32) -> bool
    ensures { result ≡ is_look_address address }
{
    address == WRITE_TMU0_S || address == WRITE_TMU1_S
}

impl Fields {
    /// The address by which the word issues a look-up; `NOWHERE` where it issues none. The mul unit's
    /// stands where both units issue one.
    #[tactic(auto, unfolding(crate::specs::Instruction::look_address))]
    pub fn look_address(&self) -> u32
        ensures { result ≡ look_address self.now }
    {
        if self.mul_writes() && is_look_address(self.waddr_mul) {
            self.waddr_mul
        } else if self.add_writes() && is_look_address(self.waddr_add) {
            self.waddr_add
        } else {
            NOWHERE
        }
    }

    /// The TMU unit to which the word issues a look-up; 0 where it issues none.
    pub fn look_unit(&self) -> u32
        ensures unit { result ≡ look_unit_of self.now }
        ensures below { result < 2 }
    {
        if self.look_address() == WRITE_TMU1_S {
            1
        } else {
            0
        }
    }
}
