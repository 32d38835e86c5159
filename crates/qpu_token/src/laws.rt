ghost use Rattle.std.specs.Prelude.{List, false};
ghost use Rattle.qpu_token.specs.OneAnswer.{HasOneAnswer};
ghost use Rattle.qpu_token.specs.Written.{Item, items_text, items_told, at_first, CanStand, EndsLine, HasTokens};

/// A law: a text has one answer, its tokens or its first fault.
#[tactic(auto, using(crate::proofs::AnswerLaw::one_answer))]
pub fn one_answer()
    ensures { HasOneAnswer }
{}

/// A law: a text that is written item by item, each ending before the next begins, has the tokens
/// of its items, in their order.
#[tactic(auto, using(crate::proofs::WrittenLaw::written_law))]
pub fn written_texts_have_their_tokens()
    ensures { (items : List Item) → CanStand false at_first items → EndsLine items → HasTokens (items_text items) (items_told items) }
{}
