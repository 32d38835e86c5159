//! Which words are canonical: none of their fields says anything that has no effect. The rules are
//! this project's own.
ghost use Rattle.std.specs.Prelude.{◌≡◌, ◌↔◌, IsTrue};
ghost use Rattle.qpu_word.specs.Canonical.{file_matters, unit_rule, add_rule, mul_rule, operand_rule, flags_rule, exchange_rule, row_rule, small_rule, load_rule, semaphore_rule, branch_rule, keeps_rules, is_canonical, IsCanonical};

use crate::code::{
    COND_ALWAYS, MUX_FILE_A, MUX_FILE_B, NOWHERE, ROTATE_BY_R5, ROWS, WRITE_DMA_ADDRESS, WRITE_R5,
    WRITE_VPM_SETUP,
};
use crate::word::{Fields, Word};

/// How many immediates a canonical semaphore word can have: a bit for the direction and four for
/// the number.
pub(crate) const SEMAPHORE_IMMEDIATES: u32 = 32;

/// Whether a write address is another place in file A than in file B (Guide, "QPU Register Address
/// Map").
pub fn file_matters(address: u32) -> bool
    ensures { result ≡ file_matters address }
{
    address < ROWS
        || address == WRITE_R5
        || address == WRITE_VPM_SETUP
        || address == WRITE_DMA_ADDRESS
}

/// Whether a unit's fields say nothing without effect.
fn unit_rule(active: bool, op: u32, cond: u32, address: u32, x: u32, y: u32) -> bool
    ensures { result ≡ unit_rule active op cond address x y }
{
    if active {
        address != NOWHERE || cond == COND_ALWAYS
    } else {
        op == 0 && cond == 0 && address == NOWHERE && x == 0 && y == 0
    }
}

/// Whether the add unit's fields say nothing without effect.
#[tactic(auto, unfolding(crate::specs::Canonical::add_rule))]
fn add_rule(f: &Fields) -> bool
    ensures { result ≡ add_rule f.now }
{
    !f.is_unit_word()
        || unit_rule(
            f.add_active(),
            f.op_add,
            f.cond_add,
            f.waddr_add,
            f.add_a,
            f.add_b,
        )
}

/// Whether the mul unit's fields say nothing without effect.
#[tactic(auto, unfolding(crate::specs::Canonical::mul_rule))]
fn mul_rule(f: &Fields) -> bool
    ensures { result ≡ mul_rule f.now }
{
    !f.is_unit_word()
        || unit_rule(
            f.mul_active(),
            f.op_mul,
            f.cond_mul,
            f.waddr_mul,
            f.mul_a,
            f.mul_b,
        )
}

/// Whether operations with one operand name it twice, and the packing's unit isn't chosen.
#[tactic(auto, unfolding(crate::specs::Canonical::operand_rule))]
fn operand_rule(f: &Fields) -> bool
    ensures { result ≡ operand_rule f.now }
{
    f.pm == 0 && (!(f.add_active() && f.is_unary()) || f.add_b == f.add_a)
}

/// Whether flags are set only by a unit that is active.
#[tactic(auto, unfolding(crate::specs::Canonical::flags_rule))]
fn flags_rule(f: &Fields) -> bool
    ensures { result ≡ flags_rule f.now }
{
    !f.is_unit_word() || f.sf == 0 || f.add_active() || f.mul_active()
}

/// Whether the files are exchanged only where that matters.
#[tactic(auto, unfolding(crate::specs::Canonical::exchange_rule))]
fn exchange_rule(f: &Fields) -> bool
    ensures { result ≡ exchange_rule f.now }
{
    f.ws == 0
        || ((f.add_active() || f.add_writes()) && file_matters(f.waddr_add))
        || ((f.mul_active() || f.mul_writes()) && file_matters(f.waddr_mul))
}

/// Whether only rows that are read are named.
#[tactic(auto, unfolding(crate::specs::Canonical::row_rule))]
fn row_rule(f: &Fields) -> bool
    ensures { result ≡ row_rule f.now }
{
    !f.is_unit_word()
        || ((ROWS <= f.raddr_a || f.uses(MUX_FILE_A))
            && (f.is_small() || ROWS <= f.raddr_b || f.uses(MUX_FILE_B)))
}

/// Whether a small immediate or rotation has an effect.
#[tactic(auto, unfolding(crate::specs::Canonical::small_rule))]
fn small_rule(f: &Fields) -> bool
    ensures { result ≡ small_rule f.now }
{
    !f.is_small()
        || if f.raddr_b < ROTATE_BY_R5 {
            f.uses(MUX_FILE_B)
        } else {
            f.mul_active()
        }
}

/// Whether a load's units that don't write say nothing.
#[tactic(auto, unfolding(crate::specs::Canonical::load_rule))]
fn load_rule(f: &Fields) -> bool
    ensures { result ≡ load_rule f.now }
{
    !f.is_load()
        || ((f.add_writes() || (f.cond_add == 0 && f.waddr_add == NOWHERE))
            && (f.mul_writes() || (f.cond_mul == 0 && f.waddr_mul == NOWHERE)))
}

/// Whether a semaphore word says nothing beside its direction and number.
#[tactic(auto, unfolding(crate::specs::Canonical::semaphore_rule))]
fn semaphore_rule(f: &Fields) -> bool
    ensures { result ≡ semaphore_rule f.now }
{
    !f.is_semaphore()
        || (f.pack == 0
            && f.cond_add == 0
            && f.cond_mul == 0
            && f.sf == 0
            && f.ws == 0
            && f.immediate < SEMAPHORE_IMMEDIATES)
}

/// Whether a branch has no kind, and names a row only where it adds one.
#[tactic(auto, unfolding(crate::specs::Canonical::branch_rule))]
fn branch_rule(f: &Fields) -> bool
    ensures { result ≡ branch_rule f.now }
{
    !f.is_branch() || (f.kind == 0 && (f.reg == 1 || f.raddr_br == 0))
}

impl Fields {
    /// Whether the fields keep all rules of canonical words.
    #[tactic(auto, unfolding(crate::specs::Canonical::keeps_rules))]
    pub fn keeps_rules(&self) -> bool
        ensures { result ≡ keeps_rules self.now }
    {
        add_rule(self)
            && mul_rule(self)
            && operand_rule(self)
            && flags_rule(self)
            && exchange_rule(self)
            && row_rule(self)
            && small_rule(self)
            && load_rule(self)
            && semaphore_rule(self)
            && branch_rule(self)
    }
}

/// Whether a word is in the profile and keeps all rules.
#[tactic(auto, unfolding(crate::specs::Canonical::is_canonical))]
fn is_ruled(word: Word) -> bool
    ensures { result ≡ is_canonical word.0 }
{
    word.form().is_ok() && word.fields().keeps_rules()
}

impl Word {
    /// Whether it is the canonical word of its meaning: it is in the profile, and none of its
    /// fields says anything that has no effect (this project's own).
    pub fn is_canonical(self) -> bool
        ensures exact { result ≡ is_canonical self.0 }
        ensures canonical { IsTrue result ↔ IsCanonical self.0 }
    {
        is_ruled(self)
    }
}
