//! Laws of programs that leave the profile, and of where control goes. Each is a function without a
//! body; its clauses are the law.
ghost use Rattle.qpu_flow.specs.Code.{NoneOutside, OneOutside};
ghost use Rattle.qpu_flow.specs.Follow.{OneFollows};

/// One word at most is the first outside the profile, with one fault; none is where all words are in
/// it.
#[tactic(auto, using(crate::proofs::OutsideLemmas::one_outside, crate::proofs::OutsideLemmas::none_outside))]
pub fn one_word_is_first_outside()
    ensures one { OneOutside }
    ensures none { NoneOutside }
{}

/// Where control goes leaves no choice: one answer at most follows.
pub fn one_answer_follows()
    ensures { OneFollows }
{}
