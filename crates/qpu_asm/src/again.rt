//! Laws of canonical lines. Each is a function without a body; its clause is the law.
ghost use Rattle.std.specs.Prelude.{List, Ok, Option, map, ℕ, ◌≡◌};
ghost use Rattle.qpu_token.specs.declared.token.Token.{Token};
ghost use Rattle.qpu_line.specs.declared.instruction.Instruction.{Instruction};
ghost use Rattle.qpu_line.specs.Lines.{line_symbols};
ghost use Rattle.qpu_line.specs.Named.{HasWord};
ghost use Rattle.qpu_asm.specs.declared.placed.Placed.{Placed};
ghost use Rattle.qpu_asm.specs.declared.line.Line.TheVariants.{Says};
ghost use Rattle.qpu_asm.specs.reader.LinesRead.{read_line};
ghost use Rattle.qpu_asm.specs.Spells.{Spells};

/// Tokens that spell the canonical line of an instruction that has a word, wherever they stand and
/// wherever the line ends, are read as that instruction, at any place of a program.
pub fn canonical_lines_are_read()
    ensures { (at : ℕ) (end : Token) (xs : List Placed) (i : Instruction) → HasWord i → map (λ x. x.symbol) xs ≡ line_symbols i → read_line at end xs ≡ Ok (Says i) }
{}

/// The symbols of the canonical line of an instruction that has a word spell it, at any place of a
/// program, whatever labels there are.
pub fn canonical_lines_are_spelled()
    ensures { (at : ℕ) (label : Option ℕ) (i : Instruction) → HasWord i → Spells at label (line_symbols i) i }
{}
