//! Laws that tie canonical words and their instructions. Each is a function without a body; its
//! clause is the law.
ghost use Rattle.std.specs.Prelude.{Bool, IsSome, None, true, ◌≡◌, ◌↔◌, ◌<◌, ◌^◌, ℕ, Some};
ghost use Rattle.qpu_line.specs.declared.instruction.Instruction.{Instruction};
ghost use Rattle.qpu_line.specs.Instructions.{word_of};
ghost use Rattle.qpu_line.specs.declared.branch.Branch.{Branch as BranchOf};
ghost use Rattle.qpu_line.specs.declared.load.Load.{Load as LoadOf};
ghost use Rattle.qpu_line.specs.declared.semaphore.Semaphore.{Semaphore as Step};
ghost use Rattle.qpu_line.specs.declared.instruction.Instruction.TheVariants.{Both, Branch, Load, Semaphore};
ghost use Rattle.qpu_line.specs.declared.units.Units.{Units};
ghost use Rattle.qpu_line.specs.Both.{IsBoth};
ghost use Rattle.qpu_line.specs.Named.{HasWord, IsNamed, is_source};
ghost use Rattle.qpu_word.specs.Names.{read_name, write_name};
ghost use Rattle.qpu_word.specs.Words.{is_write_address};
ghost use Rattle.qpu_line.specs.Worded.{IsBranch, IsLoad, IsSemaphore};
ghost use Rattle.qpu_word.specs.Canonical.{IsCanonical};
ghost use Rattle.qpu_line.specs.Canonical.{canonical_instruction};
ghost use Rattle.qpu_line.specs.declared.name.Name.{Name as NameOf};
ghost use Rattle.qpu_line.specs.Spellings.{spelling};
ghost use Rattle.qpu_line.specs.Names.{name_of, IsNameOfLanguage};

/// A canonical word is the word of its instruction.
#[tactic(auto, using(crate::proofs::WordLaw::word_back))]
pub fn words_come_back()
    ensures { (w : ℕ) (i : Instruction) → w < 2 ^ 64 → canonical_instruction w ≡ Some i → word_of i ≡ w }
{}

/// Two canonical words with one instruction are the same word.
#[tactic(auto, using(crate::proofs::WordLaw::one_word))]
pub fn one_instruction_has_one_word()
    ensures { (v w : ℕ) (i : Instruction) → v < 2 ^ 64 → w < 2 ^ 64 → canonical_instruction v ≡ Some i → canonical_instruction w ≡ Some i → v ≡ w }
{}

/// The word of a semaphore instruction is canonical and says that instruction.
#[tactic(auto, using(crate::proofs::SemaphoreLaw::semaphores_again))]
pub fn semaphores_come_back()
    ensures { (s : Step) → IsSemaphore s → canonical_instruction (word_of (Semaphore s)) ≡ Some (Semaphore s) }
{}

/// The word of a load is canonical and says that load.
#[tactic(auto, using(crate::proofs::LoadLaw::loads_again))]
pub fn loads_come_back()
    ensures { (l : LoadOf) → IsLoad l → canonical_instruction (word_of (Load l)) ≡ Some (Load l) }
{}

/// The word of a branch is canonical and says that branch.
#[tactic(auto, using(crate::proofs::BranchLaw::branches_again))]
pub fn branches_come_back()
    ensures { (b : BranchOf) → IsBranch b → canonical_instruction (word_of (Branch b)) ≡ Some (Branch b) }
{}

/// An instruction of both units whose parts a line can name, and whose names go into the fields of
/// one word, has a canonical word.
pub fn units_are_canonical()
    ensures { (u : Units) → IsBoth u → IsNamed u → IsCanonical (word_of (Both u)) }
{}

/// The word of such an instruction says that instruction.
#[tactic(auto, using(crate::proofs::NamedLaw::named_again))]
pub fn units_come_back()
    ensures { (u : Units) → IsBoth u → IsNamed u → canonical_instruction (word_of (Both u)) ≡ Some (Both u) }
{}

/// The instruction of a canonical word, of any form, is one that has a word: a line can name its
/// parts, and they go into the fields of one word.
pub fn canonical_words_are_named()
    ensures { (w : ℕ) (i : Instruction) → canonical_instruction w ≡ Some i → HasWord i }
{}

/// Each instruction that has a word comes back from it.
pub fn instructions_come_back()
    ensures { (i : Instruction) → HasWord i → canonical_instruction (word_of i) ≡ Some i }
{}

/// Its word is one of 64 bits.
pub fn words_fit()
    ensures { (i : Instruction) → HasWord i → word_of i < 2 ^ 64 }
{}

/// The read addresses that operands have are those with a name, in either file.
pub fn sources_have_names()
    ensures { (in_b : Bool) (address : ℕ) → IsSome (read_name in_b address) ↔ is_source address ≡ true }
{}

/// The write addresses that targets have are those with a name, in either file.
pub fn targets_have_names()
    ensures { (in_b : Bool) (address : ℕ) → IsSome (write_name in_b address) ↔ is_write_address address ≡ true }
{}

/// A word whose idle unit has a mux isn't canonical. The file of this law's proof computes worked
/// words of every form, both ways.
#[tactic(auto, using(crate::proofs::WordTrials::no_nop))]
pub fn a_mux_of_an_idle_unit_is_refused()
    ensures { canonical_instruction 0x100009e7009e7001 ≡ None }
{}

/// Every name of the language is read back from its spelling, so no two have the same.
#[tactic(auto, using(crate::proofs::NameLaw::names_back))]
pub fn names_come_back()
    ensures { (n : NameOf) → IsNameOfLanguage n → name_of (spelling n) ≡ Some n }
{}
