//! Where a unit's whole result goes.
ghost use Rattle.std.specs.Prelude.{◌≡◌, ◌≤◌, ◌==◌, IsTrue};
ghost use Rattle.qpu_word.specs.Writing.{pack_mode};
ghost use Rattle.qpu_word.specs.Instruction.{write_cond};
ghost use Rattle.qpu_decoded.specs.Targets.{target_at, target_of, goes_whole, is_whole};

use qpu_word::Fields;
use qpu_word::code::{COND_ALWAYS, ROWS, WRITE_R0, WRITE_R3};

/// Where a unit's result goes, in all lanes and unpacked.
#[derive(Clone, Copy, Debug, PartialEq, Eq)]
pub enum Target {
    /// To no register.
    Nowhere,
    /// To a row of file A, below 32.
    FileA(u32),
    /// To a row of file B, below 32.
    FileB(u32),
    /// To an accumulator, r0 to r3.
    Accumulator(u32),
}

/// Where a write address up to r3 of a file is.
fn target_at(in_b: bool, address: u32) -> Target
    ensures { result ≡ target_at in_b address }
{
    if address >= ROWS {
        Target::Accumulator(address.saturating_sub(WRITE_R0))
    } else if in_b {
        Target::FileB(address)
    } else {
        Target::FileA(address)
    }
}

/// Where a unit writes, if it does.
#[tactic(auto, unfolding(crate::specs::Targets::target_of))]
pub(crate) fn target_of(acts: bool, in_b: bool, address: u32) -> Target
    ensures { result ≡ target_of acts in_b address }
{
    if acts {
        target_at(in_b, address)
    } else {
        Target::Nowhere
    }
}

/// Whether what goes to a file is packed by nothing.
fn is_unpacked(f: &Fields, in_b: bool) -> bool
    ensures { result ≡ (pack_mode f.now in_b == 0) }
{
    f.is_branch() || in_b || f.pack == 0
}

/// Whether a write goes to all lanes; a link is always written.
fn is_always(f: &Fields, cond: u32) -> bool
    ensures { result ≡ (write_cond f.now cond == COND_ALWAYS) }
{
    f.is_branch() || cond == COND_ALWAYS
}

/// Whether a unit's write, where there is one, goes to a row or to r0 to r3, in all lanes and
/// unpacked.
fn goes_whole(acts: bool, f: &Fields, in_b: bool, address: u32, cond: u32) -> bool
    ensures { result ≡ goes_whole acts f.now in_b address (write_cond f.now cond) }
{
    !acts || (address <= WRITE_R3 && is_always(f, cond) && is_unpacked(f, in_b))
}

/// Whether the writes of both units of a word do.
pub fn is_whole(f: &Fields) -> bool
    ensures { result ≡ is_whole f.now }
{
    goes_whole(f.add_writes(), f, f.swaps_writes(), f.waddr_add, f.cond_add)
        && goes_whole(
            f.mul_writes(),
            f,
            !f.swaps_writes(),
            f.waddr_mul,
            f.cond_mul,
        )
}
