//! Laws of paths that machines lean on. Each is a function without a body; its clause is the law.
ghost use Rattle.std.specs.Prelude.{◌≡◌, ℕ, List, [], ◌∷◌, Bool, false, ◌||◌, is_some, IsTrue};
ghost use Rattle.qpu_word.specs.Instruction.{flags_after, branch_fails, place_after, rest_after, halt_after, is_link_point};
ghost use Rattle.qpu_word.specs.Processor.{ProcessorState};
ghost use Rattle.qpu_word.specs.declared.state.Rest.TheVariants.{Straight as RunsOn};
ghost use Rattle.qpu_word.specs.declared.traffic.Ins.{Ins};
ghost use Rattle.qpu_word.specs.declared.word.Fields.{Fields};
ghost use Rattle.qpu_flow.specs.Code.{fields_at};
ghost use Rattle.qpu_flow.specs.Follow.{Follows};
ghost use Rattle.qpu_flow.specs.declared.control.Control.{Control};
ghost use Rattle.qpu_flow.specs.declared.control.Next.{Next};
ghost use Rattle.qpu_flow.specs.declared.control.Progress.TheVariants.{Straight};
ghost use Rattle.qpu_hazard.specs.Demands.{sets_flags};
ghost use Rattle.qpu_hazard.specs.Holds.{WordHolds};
ghost use Rattle.qpu_hazard.specs.Paths.{IsPath, IsClean, broken, carry_after, follows, slots_of};
ghost use Rattle.qpu_hazard.specs.Refusal.{NoneRefusable, OneFirst};
ghost use Rattle.qpu_hazard.specs.Parts.{IsCleanByParts};
ghost use Rattle.qpu_hazard.specs.Faults.{NoFault, OneFault};
ghost use Rattle.qpu_hazard.specs.Standing.{Stands, Goes, ProcessorStands, ProcessorGoes};
ghost use Rattle.qpu_hazard.specs.declared.trail.Trail.{Trail};
ghost use Rattle.qpu_hazard.specs.Trails.{trail, advance, follows_from, broken_from, forget, onward};

/// Which words may follow a path depends on its trail alone.
#[tactic(auto, unfolding(crate::specs::Paths::follows, crate::specs::Trails::follows_from, crate::specs::Trails::trail))]
pub fn trails_tell_what_follows()
    ensures { (code t : List ℕ) (a : ℕ) → follows code t a ≡ follows_from code (trail code t) a }
{}

/// Which rules the next word breaks depends on the trail and the word alone.
#[tactic(auto, unfolding(crate::specs::Paths::broken, crate::specs::Trails::broken_from, crate::specs::Trails::trail))]
pub fn trails_tell_what_breaks()
    ensures { (code t : List ℕ) (a : ℕ) → broken code (a ∷ t) ≡ broken_from code (trail code t) a }
{}

/// The next trail depends on the trail and the word alone.
#[tactic(auto, unfolding(crate::specs::Trails::advance, crate::specs::Trails::trail))]
pub fn trails_tell_the_next_trail()
    ensures { (code t : List ℕ) (a : ℕ) → trail code (a ∷ t) ≡ advance code (trail code t) a }
{}

/// A trail that forgot the place of its last word but one, where that word didn't write the uniforms
/// address, leads to the same words, the same breaks, and the same trail once it forgets.
#[tactic(auto, using(crate::proofs::TrailLemmas::follows_forgotten, crate::proofs::TrailLemmas::broken_forgotten, crate::proofs::TrailLemmas::next_forgotten))]
pub fn forgetting_changes_nothing()
    ensures follows { (code : List ℕ) (r : Trail) (a : ℕ) → follows_from code (forget code r) a ≡ follows_from code r a }
    ensures breaks { (code : List ℕ) (r : Trail) (a : ℕ) → broken_from code (forget code r) a ≡ broken_from code r a }
    ensures next { (code : List ℕ) (r : Trail) (a : ℕ) → onward code (forget code r) a ≡ onward code r a }
{}

/// A program is clean exactly where nothing in it is refusable.
pub fn clean_programs_are_not_refused()
    ensures clean { (code : List ℕ) → NoneRefusable code → IsClean code }
    ensures none { (code : List ℕ) → IsClean code → NoneRefusable code }
{}

/// A program is clean exactly where it is clean part by part: each part of the rules is judged on
/// all ways of control, whatever the other parts say.
pub fn clean_programs_are_clean_by_parts()
    ensures clean { (code : List ℕ) → IsCleanByParts code → IsClean code }
    ensures parts { (code : List ℕ) → IsClean code → IsCleanByParts code }
{}

/// Of a program one hazard at most is first.
pub fn one_hazard_is_first()
    ensures { OneFirst }
{}

/// Of a program one fault at most is due, want of memory aside. None is due where each word is in
/// the profile and nothing is refusable, which is where `check` accepts.
#[tactic(auto, using(crate::proofs::FirstLemmas::one_fault, crate::proofs::FirstLemmas::no_fault))]
pub fn one_check_fault()
    ensures one { OneFault }
    ensures none { NoFault }
{}

/// A processor of a clean program stands on a path before any word.
pub fn opens_on_a_path()
    ensures { (code : List ℕ) → IsClean code → Stands code [] (record { place = 0; rest = Straight }) }
{}

/// A processor of a clean program that stands on a path executes a word of a path, and stands on
/// it afterwards, whichever way its branches go.
pub fn stays_on_a_path()
    ensures { (code t : List ℕ) (c : Control) (taken : Bool) (next : Next) → IsClean code → IsPath code t → Stands code t c → Follows code (slots_of code t) c taken next → IsPath code (c.place ∷ t) × Goes code (c.place ∷ t) next }
{}

/// What holds of a word that may follow a path of a clean program.
pub fn the_next_word_holds()
    ensures { (code t : List ℕ) (a : ℕ) → IsClean code → IsPath code t → IsTrue (follows code t a) → WordHolds code t a }
{}

/// A processor of a clean program that hasn't run stands on a path.
pub fn processors_open_on_a_path()
    ensures { (code : List ℕ) → IsClean code → ProcessorStands code [] 0 RunsOn }
{}

/// A processor of a clean program that stands on a path executes a word of a path, where that word
/// is no branch that faults. While it goes on it stands on the path afterwards.
pub fn processors_stay_on_a_path()
    ensures { (code t : List ℕ) (p : ProcessorState) → IsClean code → IsPath code t → ProcessorStands code t p.place p.rest → branch_fails (is_link_point code) (fields_at code p.place) p ≡ false → IsPath code (p.place ∷ t) × ProcessorGoes code (p.place ∷ t) (place_after (fields_at code p.place) p) (rest_after (fields_at code p.place) p) (halt_after (fields_at code p.place) p) }
{}

/// The masks of a processor are defined where its path defines them, and none else.
pub fn a_word_defines_masks()
    ensures zn { (f : Fields) (p : ProcessorState) (ins : Ins) → is_some (flags_after f p ins).zn ≡ (sets_flags f || is_some p.flags.zn) }
    ensures carry { (f : Fields) (p : ProcessorState) (ins : Ins) → is_some (flags_after f p ins).c ≡ carry_after f (is_some p.flags.c) }
{}
