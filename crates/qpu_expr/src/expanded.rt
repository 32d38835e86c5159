use qpu_token::Token;
use std::marker::Model;

/// A line that is left: the tokens of an instruction, or of a line that is none. The last is its line
/// end, with the place that a fault at the line's end has. Of a number that stands for an expression
/// only the kind, its value and the place count. Contracts see the list of the tokens.
#[derive(Drop)]
pub struct PlainLine {
    /// The tokens, with the line end.
    pub tokens: Vec<Token>,
}

impl Model for PlainLine {
    ghost use Rattle.std.specs.Prelude.{List};
    ghost use Rattle.qpu_token.specs.declared.token.Token.{Token};

    ghost Value = { List Token };

    ghost view = { λ line. line.tokens.items };
}

/// A label: its name is the text from a byte up to another.
#[derive(Clone, Copy, Debug, PartialEq, Eq)]
pub struct LabelAt {
    /// The first byte of its name.
    pub from: usize,
    /// The byte after the last one of its name.
    pub to: usize,
    /// The index of the word behind it.
    pub word: u32,
}

/// What is left of a text, with its labels in the order in which they are reached. Each line gives one
/// word.
#[derive(Drop)]
pub struct Expanded {
    /// The lines.
    pub lines: Vec<PlainLine>,
    /// The labels.
    pub labels: Vec<LabelAt>,
}
