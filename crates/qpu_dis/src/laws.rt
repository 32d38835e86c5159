//! Laws of the disassembler's text. Each is a function without a body; its clause is the law.
ghost use Rattle.std.specs.Prelude.{◌≡◌, ℕ, List, [], ◌∷◌, All, ◌<◌, ◌^◌, codes, Result};
ghost use Rattle.qpu_token.specs.declared.token.Token.{Token};
ghost use Rattle.qpu_token.specs.declared.fault.AsmFault.{AsmFault};
ghost use Rattle.qpu_token.specs.OneAnswer.{IsAnswer};
ghost use Rattle.qpu_dis.specs.Text.{disassembly};
ghost use Rattle.qpu_dis.specs.Tokens.{lines_written, IsReadAs, IsAnsweredBy};

/// The text of words has tokens, and they are, line by line, those of the lines as they are written:
/// names of the language, numbers with their values, signs and line ends. Which word a line is isn't
/// told here.
#[tactic(auto, using(crate::proofs::LineLaw::lines_read))]
pub fn lines_have_their_tokens()
    ensures { (words : List ℕ) → All (λ w. w < 2 ^ 64) words → IsReadAs (disassembly words) (lines_written words) }
{}

/// The tokens of such a text have no other answer: where they are told they have these symbols, and
/// there is no fault of the text.
#[tactic(auto, using(crate::proofs::LineLaw::lines_answered))]
pub fn lines_have_no_other_tokens()
    ensures { (words : List ℕ) (answer : Result (List Token) AsmFault) → All (λ w. w < 2 ^ 64) words → IsAnswer (disassembly words) answer → IsAnsweredBy (disassembly words) (lines_written words) answer }
{}

/// A worked text, told by computing: two canonical words, and one whose idle unit has a mux.
#[tactic(auto, using(crate::proofs::TextTrials::worked_text))]
pub fn worked_words_have_their_text()
    ensures { disassembly (0x1002082715827d80 ∷ 0x300009e7009e7000 ∷ 0x100009e7009e7001 ∷ [])
        ≡ codes "or r0, unif, unif\nnop; thrend\n.word 0x100009e7009e7001\n" }
{}
