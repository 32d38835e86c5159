//! Laws of lines. Each is a function without a body; its clause is the law.
ghost use Rattle.std.specs.Prelude.{◌≡◌, ◌↔◌, ℕ, List, [], ◌∷◌, None, Result, Ok, Err, All, map};
ghost use Rattle.qpu_word.specs.declared.operation.AddOp.TheVariants.{Or};
ghost use Rattle.qpu_line.specs.declared.name.Name.TheVariants as name;
ghost use Rattle.qpu_line.specs.declared.name.Register.TheVariants.{Accumulator};
ghost use Rattle.qpu_line.specs.declared.symbol.Symbol.TheVariants as symbol;
ghost use Rattle.qpu_token.specs.declared.token.Token.{Token as TokenOf};
ghost use Rattle.qpu_token.specs.declared.fault.AsmFault.{AsmFault as AsmFaultOf};
ghost use Rattle.qpu_line.specs.declared.instruction.Instruction.{Instruction as InstructionOf};
ghost use Rattle.qpu_line.specs.Named.{HasWord};
ghost use Rattle.qpu_asm.specs.declared.placed.Placed.{Placed as PlacedOf};
ghost use Rattle.qpu_asm.specs.declared.line.Line.TheVariants.{Raw, Says};
ghost use Rattle.qpu_asm.specs.Placed.{placed_token, Labels};
ghost use Rattle.qpu_asm.specs.reader.LinesRead.{read_line};
ghost use Rattle.qpu_asm.specs.Assembly.{IsAssembly};
ghost use Rattle.qpu_asm.specs.Laws.{IsProper, symbols_of, word_symbols};
ghost use Rattle.qpu_asm.specs.Spells.{Spells, IsSpelled};
ghost use Rattle.qpu_asm.specs.SpelledTexts.{SpellsText};
ghost use Rattle.qpu_asm.specs.RefusedTexts.{RefusesText};
ghost use Rattle.qpu_asm.specs.Faults.{Faulty, IsFirstFault, IsFaultless, SpellsSome};
ghost use Rattle.qpu_token.specs.declared.fault.AsmKind.TheVariants.{TwoImmediates};

/// The names among a text's tokens are names of the language.
#[tactic(auto, using(crate::proofs::ProperTokens::placed_proper))]
pub fn placed_tokens_are_proper()
    ensures { (text : List ℕ) (labels : Labels) (token : TokenOf) → IsProper (placed_token text labels token) }
{}

/// What a line says has a canonical word.
pub fn lines_have_words()
    ensures { (at : ℕ) (end : TokenOf) (xs : List PlacedOf) (i : InstructionOf) → All IsProper xs → read_line at end xs ≡ Ok (Says i) → HasWord i }
{}

/// A line of the language's names says an instruction exactly where its symbols spell it, by the grammar
/// of lines.
pub fn lines_spell_what_they_say()
    ensures { (at : ℕ) (end : TokenOf) (xs : List PlacedOf) (i : InstructionOf) → All IsProper xs → read_line at end xs ≡ Ok (Says i) ↔ IsSpelled at xs i }
{}

/// So does a line of a text, whatever its tokens are.
pub fn lines_of_texts_spell_what_they_say()
    ensures { (text : List ℕ) (labels : Labels) (at : ℕ) (end : TokenOf) (tokens : List TokenOf) (i : InstructionOf) → read_line at end (map (placed_token text labels) tokens) ≡ Ok (Says i) ↔ IsSpelled at (map (placed_token text labels) tokens) i }
{}

/// A text has words exactly where its lines spell them, one each.
pub fn texts_have_the_words_they_spell()
    ensures { (text : List ℕ) (words : List ℕ) → IsAssembly text (Ok words) ↔ SpellsText text words }
{}

/// A line is refused with a kind and at a place exactly where the table of faults has these first: the
/// least kind, and in it the leftmost token.
pub fn lines_are_refused_as_the_table_says()
    ensures { (at : ℕ) (end : TokenOf) (xs : List PlacedOf) (fault : AsmFaultOf) → read_line at end xs ≡ Err fault ↔ IsFirstFault end xs fault }
{}

/// A line of the language's names has no fault exactly where it spells something: an instruction, or a
/// word as it stands.
pub fn lines_without_faults_spell()
    ensures { (at : ℕ) (end : TokenOf) (xs : List PlacedOf) → All IsProper xs → IsFaultless end xs ↔ SpellsSome at xs }
{}

/// A text is refused with a fault exactly where this is its first: of its tokens, of its expansion, or by
/// the table of the first of its lines that spells no word.
pub fn texts_are_refused_as_the_table_says()
    ensures { (text : List ℕ) (fault : AsmFaultOf) → IsAssembly text (Err fault) ↔ RefusesText text fault }
{}

/// `or r0, 1, 2` spells no instruction.
pub fn two_immediates_spell_nothing()
    ensures { (at : ℕ) (i : InstructionOf) → Spells at None (symbol.Name (name.Add Or) ∷ symbol.Name (name.Register (Accumulator 0)) ∷ symbol.Comma ∷ symbol.Number 1 ∷ symbol.Comma ∷ symbol.Number 2 ∷ []) i → ⊥ }
{}

/// In `or r0, 1, 2` the table of faults tells the second number as a second immediate.
pub fn second_numbers_are_faults()
    ensures { (end token : TokenOf) → Faulty end (map (λ s. record { symbol = s; token = token; label = None }) (symbol.Name (name.Add Or) ∷ symbol.Name (name.Register (Accumulator 0)) ∷ symbol.Comma ∷ symbol.Number 1 ∷ symbol.Comma ∷ symbol.Number 2 ∷ [])) TwoImmediates 0 5 }
{}

/// What a line of a text says has a word, whatever its tokens are.
#[tactic(auto, using(crate::proofs::LineLaw::text_lines_law))]
pub fn lines_of_texts_have_words()
    ensures { (text : List ℕ) (labels : Labels) (at : ℕ) (end : TokenOf) (tokens : List TokenOf) (i : InstructionOf) → read_line at end (map (placed_token text labels) tokens) ≡ Ok (Says i) → HasWord i }
{}

/// A line's word stands as it is written exactly where the line is `.word` and a number.
pub fn raw_lines_are_words()
    ensures { (at : ℕ) (end : TokenOf) (xs : List PlacedOf) (n : ℕ) → read_line at end xs ≡ Ok (Raw n) ↔ symbols_of xs ≡ word_symbols n }
{}

/// A text has one answer: its words, or its first fault.
#[tactic(auto, using(crate::proofs::OneAssembly::one_assembly))]
pub fn texts_have_one_answer()
    ensures { (text : List ℕ) (a b : Result (List ℕ) AsmFaultOf) → IsAssembly text a → IsAssembly text b → a ≡ b }
{}
