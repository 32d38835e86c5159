//! Laws about words and their canonical words, and about local words. Each is a function without a body; its clauses are
//! the law.
ghost use Rattle.std.specs.Prelude.{◌≡◌, ℕ, Bool, true, List, map, slice_index, None, Err};
ghost use Rattle.qpu_word.specs.declared.fault.FaultKind.{FaultKind};
ghost use Rattle.qpu_word.specs.Processor.{ProcessorState};
ghost use Rattle.qpu_word.specs.Words.{fields_of, is_local};
ghost use Rattle.qpu_word.specs.Instruction.{is_link_point, local_result};
ghost use Rattle.qpu_word.specs.CanonicalWord.{canonical_word};
ghost use Rattle.qpu_shared.specs.SharedState.{SharedState};
ghost use Rattle.qpu_shared.specs.Instruction.{first_cause, instruction_result, is_running, instruction};
ghost use Rattle.qpu_shared.specs.Local.{IsLocalFault, local_outcome};

/// A word and its canonical word have one meaning: they await the same, and come to the same
/// processor and shared parts or the same fault. So a program and the program of its canonical words
/// have one instruction in every state.
#[tactic(auto, using(crate::proofs::MeaningLaw::causes_same, crate::proofs::MeaningLaw::result_same, crate::proofs::MeaningLaw::instruction_same))]
pub fn canonical_words_have_one_meaning()
    ensures cause { (w q : ℕ) (h : SharedState) → first_cause (fields_of (canonical_word w)) q h ≡ first_cause (fields_of w) q h }
    ensures result { (is_link : ℕ → Bool) (w : ℕ) (p : ProcessorState) (h : SharedState) → instruction_result is_link (canonical_word w) p h ≡ instruction_result is_link w p h }
    ensures instruction { (words : List ℕ) (limit : ℕ) (p : ProcessorState) (h : SharedState) → instruction (map canonical_word words) limit p h ≡ instruction words limit p h }
{}

/// A local word reads and changes its processor alone. It awaits nothing. Its whole instruction, of a
/// processor that is running, comes to what it makes of that processor, and leaves the shared parts
/// as they were. It faults for a setup register that refuses a value, a third read setup, or a
/// register branch to a place that is no link point, and for nothing else.
#[tactic(auto, using(crate::proofs::LocalLemmas::awaits_nothing, crate::proofs::LocalLemmas::instruction_local, crate::proofs::LocalFaults::local_faults))]
pub fn local_words_touch_their_processor_alone()
    ensures awaits { (w q : ℕ) (h : SharedState) → is_local (fields_of w) ≡ true → first_cause (fields_of w) q h ≡ None }
    ensures instruction { (words : List ℕ) (limit : ℕ) (p : ProcessorState) (h : SharedState) → is_running limit p ≡ true → is_local (fields_of (slice_index words p.place)) ≡ true → instruction words limit p h ≡ local_outcome (local_result (is_link_point words) (slice_index words p.place) p) h }
    ensures faults { (is_link : ℕ → Bool) (w : ℕ) (p : ProcessorState) (kind : FaultKind) → is_local (fields_of w) ≡ true → local_result is_link w p ≡ Err kind → IsLocalFault kind }
{}
