//! Branches, delay slots and program end.
ghost use Rattle.std.specs.Prelude.{◌≡◌, ℕ, ◌+◌, ◌/◌, ◌<◌, ◌≤◌, ◌^◌, ◌==◌, IsTrue, if◌then◌else◌};
ghost use Rattle.qpu_word.specs.Words.{is_branch};
ghost use Rattle.qpu_word.specs.Fit.{IsFit};
ghost use Rattle.qpu_word.specs.declared.state.Rest.TheVariants.{Straight, To};
ghost use Rattle.qpu_word.specs.Operands.{row_of};
ghost use Rattle.qpu_word.specs.Lanes.{lane};
ghost use Rattle.qpu_word.specs.Instruction.{is_taken, target_of, branch_fails, rest_later, rest_after, place_later, place_after, halt_later, halt_after};
ghost use Rattle.qpu_local.specs.Views.{coming_place};

use crate::flagging::branches;
use crate::processor::Processor;
use crate::sending::link;
use qpu_word::code::{BRANCH_SLOTS, END_SLOTS, INSTRUCTION_BYTES};
use qpu_word::{Fields, Halt, Program, Rest};

/// Where control stands after a word.
#[derive(Clone, Copy, Debug)]
pub struct NextControl {
    /// The place of the next word.
    pub place: u32,
    /// What is in progress there.
    pub rest: Rest,
    /// Whether the processor still goes on.
    pub halt: Halt,
}

/// What is in progress one word later.
#[inline(always)]
fn rest_one_later(rest: Rest) -> Rest
    ensures { result ≡ rest_later rest }
{
    match rest {
        Rest::Straight => Rest::Straight,
        Rest::Ending(n) => if n < 2 {
            Rest::Straight
        } else {
            Rest::Ending(n - 1)
        },
        Rest::To(n, t) => if n < 2 {
            Rest::Straight
        } else {
            Rest::To(n - 1, t)
        },
    }
}

/// The place one word later.
#[inline(always)]
fn place_one_later(rest: Rest, place: u32) -> u32
    requires { place < 2 ^ 31 }
    ensures { result ≡ place_later rest place }
{
    match rest {
        Rest::Straight => place + 1,
        Rest::Ending(_) => place + 1,
        Rest::To(n, t) => if n < 2 { t } else { place + 1 },
    }
}

/// The halt one word later.
#[inline(always)]
fn halt_one_later(rest: Rest) -> Halt
    ensures { result ≡ halt_later rest }
{
    match rest {
        Rest::Straight => Halt::Going,
        Rest::Ending(n) => if n < 2 { Halt::Ended } else { Halt::Going },
        Rest::To(_, _) => Halt::Going,
    }
}

impl Processor {
    /// Whether the word is a branch whose condition holds.
    fn is_taken(&self, f: &Fields) -> bool
        ensures { result ≡ is_taken f.now self.now }
    {
        f.is_branch() && branches(f.cond_br, &self.flags())
    }

    /// What a register branch adds to its target.
    fn branch_row(&self, f: &Fields) -> u32
        requires { IsFit f.now }
        ensures { result ≡ (if f.now.reg == 1 then lane (row_of self.now.file_a f.now.raddr_br) 0 else 0) }
    {
        if f.reg == 1 {
            self.row(false, f.raddr_br).v[0]
        } else {
            0
        }
    }

    /// The target of a branch, in bytes.
    #[tactic(auto, unfolding(qpu_word::specs::Instruction::target_of))]
    fn target(&self, f: &Fields) -> u32
        requires fit { IsFit f.now }
        requires place { self.now.place < 4096 }
        ensures { result ≡ target_of f.now self.now }
    {
        let base = if f.rel == 1 { link(self.place()) } else { 0 };
        let sum = u64::from(f.immediate) + u64::from(base) + u64::from(self.branch_row(f));
        (sum % (1 << 32)) as u32
    }

    /// Whether the word is a taken register branch whose target is no link point.
    #[tactic(auto, unfolding(qpu_word::specs::Instruction::branch_fails))]
    pub(crate) fn branch_fails<G: Program>(&self, f: &Fields, program: &G) -> bool
        requires fit { IsFit f.now }
        requires place { self.now.place < 4096 }
        ensures { result ≡ branch_fails (G.is_link program.now) f.now self.now }
    {
        if !self.is_taken(f) || f.reg != 1 {
            return false;
        }
        let target = self.target(f);
        !(target % INSTRUCTION_BYTES == 0 && program.is_link(target / INSTRUCTION_BYTES))
    }

    /// What is in progress after a branch.
    fn rest_after_branch(&self, f: &Fields) -> Rest
        requires fit { IsFit f.now }
        requires place { self.now.place < 4096 }
        ensures rest { result ≡ (if is_taken f.now self.now then To BRANCH_SLOTS (target_of f.now self.now / INSTRUCTION_BYTES) else Straight) }
        ensures coming { coming_place result < 2 ^ 29 }
    {
        if self.is_taken(f) {
            Rest::To(BRANCH_SLOTS, self.target(f) / INSTRUCTION_BYTES)
        } else {
            Rest::Straight
        }
    }

    /// What is in progress after a word.
    #[tactic(auto, unfolding(qpu_word::specs::Instruction::rest_after))]
    #[inline(always)]
    fn rest_after(&self, f: &Fields) -> Rest
        requires fit { IsFit f.now }
        requires place { IsTrue (is_branch f.now) → self.now.place < 4096 }
        ensures rest { result ≡ rest_after f.now self.now }
        ensures coming { coming_place result < 2 ^ 29 }
    {
        if f.is_branch() {
            self.rest_after_branch(f)
        } else if f.is_program_end() {
            Rest::Ending(END_SLOTS)
        } else {
            rest_one_later(self.rest)
        }
    }

    /// The place after a word.
    #[tactic(auto, unfolding(qpu_word::specs::Instruction::place_after))]
    #[inline(always)]
    fn place_after(&self, f: &Fields) -> u32
        requires { self.now.executed < 1000000 }
        ensures place { result ≡ place_after f.now self.now }
        ensures within { result ≤ 2 ^ 29 + self.now.executed + 1 }
    {
        if f.is_branch() || f.is_program_end() {
            self.place + 1
        } else {
            place_one_later(self.rest, self.place)
        }
    }

    /// The halt after a word.
    #[tactic(auto, unfolding(qpu_word::specs::Instruction::halt_after))]
    #[inline(always)]
    fn halt_after(&self, f: &Fields) -> Halt
        ensures { result ≡ halt_after f.now self.now }
    {
        if f.is_branch() || f.is_program_end() {
            Halt::Going
        } else {
            halt_one_later(self.rest)
        }
    }

    /// Where control stands after a word that is no branch and no program end.
    #[inline(always)]
    pub(crate) fn one_later(&self) -> NextControl
        requires { self.now.executed < 1000000 }
        ensures place { result.place ≡ place_later self.now.rest self.now.place }
        ensures rest { result.rest ≡ rest_later self.now.rest }
        ensures halt { result.halt ≡ halt_later self.now.rest }
        ensures within { result.place ≤ 2 ^ 29 + self.now.executed + 1 }
        ensures coming { coming_place result.rest < 2 ^ 29 }
    {
        NextControl {
            place: place_one_later(self.rest, self.place),
            rest: rest_one_later(self.rest),
            halt: halt_one_later(self.rest),
        }
    }

    /// Where control stands after a word.
    #[inline(always)]
    pub(crate) fn next(&self, f: &Fields) -> NextControl
        requires fit { IsFit f.now }
        requires executed { self.now.executed < 1000000 }
        requires place { IsTrue (is_branch f.now) → self.now.place < 4096 }
        ensures place { result.place ≡ place_after f.now self.now }
        ensures rest { result.rest ≡ rest_after f.now self.now }
        ensures halt { result.halt ≡ halt_after f.now self.now }
        ensures within { result.place ≤ 2 ^ 29 + self.now.executed + 1 }
        ensures coming { coming_place result.rest < 2 ^ 29 }
    {
        NextControl {
            place: self.place_after(f),
            rest: self.rest_after(f),
            halt: self.halt_after(f),
        }
    }
}
