//! Whether a word touches its processor alone.
ghost use Rattle.std.specs.Prelude.{◌≡◌, ◌≤◌, ℕ, false, IsTrue};
ghost use Rattle.qpu_word.specs.Words.{is_local, reads, writes};

use crate::code::{NOWHERE, READ_NUMBER, READ_UNIFORM, READ_VPM, ROWS, WRITE_VPM};
use crate::word::Fields;

/// Whether a read address gives what the processor itself has.
fn is_inside(address: u32) -> bool
    ensures uniform { IsTrue result → address ≡ READ_UNIFORM → ⊥ }
    ensures shared { IsTrue result → READ_VPM ≤ address → ⊥ }
{
    address < ROWS || address == READ_NUMBER || address == NOWHERE
}

/// Whether a word reads nothing but what the processor itself has.
fn reads_inside(f: &Fields) -> bool
    ensures uniform { IsTrue result → reads f.now READ_UNIFORM ≡ false }
    ensures shared { IsTrue result → (n : ℕ) → READ_VPM ≤ n → reads f.now n ≡ false }
{
    !f.is_unit_word() || (is_inside(f.raddr_a) && (f.is_small() || is_inside(f.raddr_b)))
}

/// Whether a word has no write address of the shared parts.
#[tactic(auto, using(crate::proofs::ShortLemmas::unwritten))]
fn writes_inside(f: &Fields) -> bool
    ensures { IsTrue result → (n : ℕ) → WRITE_VPM ≤ n → writes f.now n ≡ false }
{
    f.waddr_add < WRITE_VPM && f.waddr_mul < WRITE_VPM
}

/// Whether a word surely is local: it has no address of the shared parts, takes no look-up and
/// counts no semaphore. Of a word that isn't so this says nothing.
#[tactic(auto, using(crate::proofs::ShortLemmas::local_by))]
pub(crate) fn is_alone(f: &Fields) -> bool
    ensures { IsTrue result → IsTrue (is_local f.now) }
{
    writes_inside(f) && !f.has_tmu_load() && !f.is_semaphore() && reads_inside(f)
}
