//! Laws of what the commands answer.
ghost use Rattle.std.specs.Prelude.{◌≡◌, ◌≢◌, ◌<◌, ◌≤◌, ◌⊎◌, ℕ, List, Some, length};
ghost use Rattle.qpu_io.specs.Input.{Input};
ghost use Rattle.qpu_tool.specs.declared.answer.Answer.{Answer};
ghost use Rattle.qpu_tool.specs.declared.answer.Answer.TheVariants.{Refused};
ghost use Rattle.qpu_tool.specs.declared.refusal.Refusal.TheVariants.{ReadFault, TooLong};
ghost use Rattle.qpu_tool.specs.declared.words.Command.{Command};
ghost use Rattle.qpu_tool.specs.Commands.{IsCommand, limit_of, HasChoice};
ghost use Rattle.qpu_tool.specs.Answers.{AnswerTo, AnswerOf, Due};

/// A law: of one command and one input one answer at most is due, so what `plain` writes leaves no
/// choice. Commands whose threads share the work of a run are left out, by name.
pub fn one_answer_is_due()
    ensures { (command : Command) (text : List ℕ) (a b : Answer) → (HasChoice command → ⊥) → AnswerTo command text a → AnswerTo command text b → a ≡ b }
{}

/// A law: the answer that is due in a call whose source tells its bytes is the one that is due to the
/// words and these bytes, unless reading fails; and of a command's words it is that the input is too
/// long, or the command's answer.
pub fn due_is_of_the_bytes()
    ensures bytes { (words : List (List ℕ)) (old new : Input) (bytes : List ℕ) (answer : Answer) → old.left ≡ Some bytes → answer ≢ Refused ReadFault
        → Due words old new answer → AnswerOf words bytes answer }
    ensures command { (words : List (List ℕ)) (bytes : List ℕ) (command : Command) (answer : Answer) → IsCommand words command → AnswerOf words bytes answer
        → ((answer ≡ Refused TooLong) × (limit_of command < length bytes)) ⊎ ((length bytes ≤ limit_of command) × AnswerTo command bytes answer) }
{}
