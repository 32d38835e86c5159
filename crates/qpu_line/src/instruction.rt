//! Instructions of all forms, from words and back.
ghost use Rattle.std.specs.Prelude.{◌≡◌, ◌↔◌, IsSome};
ghost use Rattle.qpu_line.specs.Instructions.{instruction_of, word_of};
ghost use Rattle.qpu_word.specs.Canonical.{IsCanonical};
ghost use Rattle.qpu_line.specs.Canonical.{canonical_instruction};

use crate::branch::Branch;
use crate::load::Load;
use crate::semaphore::Semaphore;
use crate::slots::UnitFields;
use crate::units::Units;
use qpu_word::{Fields, Form, Word};

/// What a word says (Guide, "QPU Instruction Encoding").
#[derive(Clone, Copy, Debug, PartialEq, Eq)]
pub enum Instruction {
    /// Both units compute, with a small immediate or without.
    Both(Units),
    /// An immediate is loaded.
    Load(Load),
    /// A semaphore is stepped.
    Semaphore(Semaphore),
    /// A branch.
    Branch(Branch),
}

/// The instruction of a word's fields, by its form.
#[tactic(auto, unfolding(crate::specs::Instructions::instruction_of))]
fn instruction_of(form: Form, f: &Fields) -> Instruction
    ensures { result ≡ instruction_of form f.now }
{
    match form {
        Form::Alu | Form::Small => Instruction::Both(UnitFields::of(f).units()),
        Form::Load32 | Form::LoadSigned | Form::LoadUnsigned => Instruction::Load(Load::of(f)),
        Form::Semaphore => Instruction::Semaphore(Semaphore::of(f)),
        Form::Branch => Instruction::Branch(Branch::of(f)),
    }
}

/// The instruction of a canonical word.
#[tactic(auto, unfolding(crate::specs::Canonical::canonical_instruction))]
fn read_canonical(word: Word) -> Option<Instruction>
    ensures { result ≡ canonical_instruction word.0 }
{
    let f = word.fields();
    match word.form() {
        Ok(form) if f.keeps_rules() => Some(instruction_of(form, &f)),
        _ => None,
    }
}

impl Instruction {
    /// The instruction of a canonical word; none exactly where the word isn't canonical.
    #[tactic(auto, using(crate::proofs::RuleLemmas::read_where_canonical))]
    pub fn of(word: Word) -> Option<Instruction>
        ensures exact { result ≡ canonical_instruction word.0 }
        ensures canonical { IsSome result ↔ IsCanonical word.0 }
    {
        read_canonical(word)
    }

    /// The word of an instruction. Of each number as many low bits count as its field has; an
    /// instruction that names several addresses where a word has one field gets the first.
    #[tactic(auto, unfolding(crate::specs::Instructions::word_of))]
    pub fn word(&self) -> Word
        ensures { result.0 ≡ word_of self.now }
    {
        Word(match self {
            Instruction::Both(units) => units.word(),
            Instruction::Load(load) => load.word(),
            Instruction::Semaphore(semaphore) => semaphore.word(),
            Instruction::Branch(branch) => branch.word(),
        })
    }
}
