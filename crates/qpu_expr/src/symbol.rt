//! What tokens are.
ghost use Rattle.std.specs.Prelude.{◌≡◌, slice_index};
ghost use Rattle.qpu_token.specs.Tokens.{text_of};
ghost use Rattle.qpu_expr.specs.Symbols.{sign_of, symbol_of, is_named};

use crate::operator::Operator;
use qpu_token::{Token, TokenKind};

/// A sign.
#[derive(Clone, Copy)]
pub(crate) enum Sign {
    /// `,`.
    Comma,
    /// `;`.
    Semicolon,
    /// `:`.
    Colon,
    /// `.`.
    Dot,
    /// `(`.
    Open,
    /// `)`.
    Close,
    /// `~`.
    Invert,
    /// A sign that may stand between two numbers.
    Binary(Operator),
}

/// What a token is.
#[derive(Clone, Copy)]
pub(crate) enum Symbol {
    /// A name.
    Name,
    /// A number.
    Number(u64),
    /// A sign.
    Sign(Sign),
    /// The end of a line.
    LineEnd,
}

/// The bytes of a token; those outside the text are none.
pub(crate) fn text_of(text: &[u8], token: Token) -> &[u8]
    ensures { result.now ≡ text_of text.now token }
{
    let to = token.to.min(text.len());
    let from = token.from.min(to);
    &text[from..to]
}

/// The sign with a first byte.
#[tactic(auto, unfolding(crate::specs::Symbols::sign_of))]
fn sign_of(byte: u8) -> Sign
    ensures { result ≡ sign_of byte }
{
    match byte {
        b',' => Sign::Comma,
        b';' => Sign::Semicolon,
        b':' => Sign::Colon,
        b'.' => Sign::Dot,
        b'(' => Sign::Open,
        b')' => Sign::Close,
        b'~' => Sign::Invert,
        b'*' => Sign::Binary(Operator::Times),
        b'/' => Sign::Binary(Operator::Over),
        b'%' => Sign::Binary(Operator::Rest),
        b'+' => Sign::Binary(Operator::Plus),
        b'-' => Sign::Binary(Operator::Minus),
        b'<' => Sign::Binary(Operator::Left),
        b'>' => Sign::Binary(Operator::Right),
        b'&' => Sign::Binary(Operator::And),
        b'^' => Sign::Binary(Operator::Xor),
        _ => Sign::Binary(Operator::Or),
    }
}

/// What a token is.
#[tactic(auto, unfolding(crate::specs::Symbols::symbol_of))]
pub(crate) fn symbol_of(text: &[u8], token: Token) -> Symbol
    ensures { result ≡ symbol_of text.now token }
{
    match token.kind {
        TokenKind::Name => Symbol::Name,
        TokenKind::Number(value) => Symbol::Number(value),
        TokenKind::LineEnd => Symbol::LineEnd,
        TokenKind::Punct => Symbol::Sign(sign_of(first_of(text_of(text, token)))),
    }
}

/// The first byte of a word; 0 where it has none.
fn first_of(word: &[u8]) -> u8
    ensures { result ≡ slice_index word.now 0 }
{
    word.first().copied().unwrap_or(0)
}

/// Whether a token's text is a name.
pub(crate) fn is_named(text: &[u8], name: &[u8], token: Token) -> bool
    ensures { result ≡ is_named text.now name.now token }
{
    text_of(text, token) == name
}
