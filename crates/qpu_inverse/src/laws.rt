//! Laws of the way from words to text and back. Each is a function without a body; its clause is the
//! law.
ghost use Rattle.std.specs.Prelude.{◌≡◌, ℕ, List, All, ◌<◌, ◌≤◌, ◌^◌, length, Result, Ok};
ghost use Rattle.qpu_token.specs.declared.fault.AsmFault.{AsmFault as AsmFaultOf};
ghost use Rattle.qpu_expr.specs.declared.limits.TheConstants.{MOST_WORDS};
ghost use Rattle.qpu_asm.specs.Assembly.{IsAssembly};
ghost use Rattle.qpu_dis.specs.Text.{disassembly};

/// Assembling what the disassembler writes of at most 4,096 words gives these words back, and nothing
/// else.
pub fn words_come_back()
    ensures come_back { (words : List ℕ) → length words ≤ MOST_WORDS → All (λ w. w < 2 ^ 64) words → IsAssembly (disassembly words) (Ok words) }
    ensures alone { (words : List ℕ) (answer : Result (List ℕ) AsmFaultOf) → length words ≤ MOST_WORDS → All (λ w. w < 2 ^ 64) words → IsAssembly (disassembly words) answer → answer ≡ Ok words }
{}

/// No two programs of at most 4,096 words have the same text.
#[tactic(auto, using(crate::proofs::Law::same_words))]
pub fn texts_tell_their_words()
    ensures { (a b : List ℕ) → length a ≤ MOST_WORDS → length b ≤ MOST_WORDS → All (λ w. w < 2 ^ 64) a → All (λ w. w < 2 ^ 64) b → disassembly a ≡ disassembly b → a ≡ b }
{}
