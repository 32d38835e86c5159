//! Tokens of a line, with what they are.
ghost use Rattle.std.specs.Prelude.{◌≡◌, slice_index};
ghost use Rattle.qpu_token.specs.Tokens.{text_of};
ghost use Rattle.qpu_line.specs.Symbols.{sign_of, word_of};
ghost use Rattle.qpu_asm.specs.Placed.{symbol_of};

use qpu_line::{Name, Symbol};
use qpu_token::{Token, TokenKind};

/// A token of a line: what it is, and the word behind the label with its text.
#[derive(Clone, Copy)]
pub(crate) struct Placed {
    /// What it is.
    pub(crate) symbol: Symbol,
    /// The token, which has the place.
    pub(crate) token: Token,
    /// The index of the word behind the label with the token's text, where there is one.
    pub(crate) label: Option<u32>,
}

/// The bytes of a token; those outside the text are none.
pub(crate) fn text_of(text: &[u8], token: Token) -> &[u8]
    ensures { result.now ≡ text_of text.now token }
{
    let to = token.to.min(text.len());
    let from = token.from.min(to);
    &text[from..to]
}

/// The first byte of a word; 0 where it has none.
fn first_of(word: &[u8]) -> u8
    ensures { result ≡ slice_index word.now 0 }
{
    word.first().copied().unwrap_or(0)
}

/// The sign with a first byte.
fn sign_of(byte: u8) -> Symbol
    ensures { result ≡ sign_of byte }
{
    match byte {
        b',' => Symbol::Comma,
        b';' => Symbol::Semicolon,
        b':' => Symbol::Colon,
        b'.' => Symbol::Dot,
        b'-' => Symbol::Minus,
        b'(' => Symbol::Open,
        b')' => Symbol::Close,
        b'~' => Symbol::Invert,
        _ => Symbol::Binary,
    }
}

/// A name, of the language or not.
fn word_of(word: &[u8]) -> Symbol
    ensures { result ≡ word_of word.now }
{
    match Name::of(word) {
        Some(name) => Symbol::Name(name),
        None => Symbol::Unknown,
    }
}

/// What a token is.
#[tactic(auto, unfolding(crate::specs::Placed::symbol_of))]
pub(crate) fn symbol_of(text: &[u8], token: Token) -> Symbol
    ensures { result ≡ symbol_of text.now token }
{
    match token.kind {
        TokenKind::Name => word_of(text_of(text, token)),
        TokenKind::Number(value) => Symbol::Number(value),
        TokenKind::LineEnd => Symbol::LineEnd,
        TokenKind::Punct => sign_of(first_of(text_of(text, token))),
    }
}
