ghost use Rattle.std.specs.Prelude.{◌≡◌, ◌<◌, ◌≤◌, length, drop};
ghost use Rattle.qpu_token.specs.Words.{is_sign_byte};
ghost use Rattle.qpu_token.specs.Pieces.{name_length, comment_length, number_length, short_piece, piece_of};
ghost use Rattle.qpu_token.specs.Tokens.{dotted};
ghost use Rattle.qpu_token.specs.Reading.{PieceHere};

use qpu_text::{digits_length, hex_length, is_blank, is_digit, is_letter, is_lf, is_name_byte};

/// What a piece of the text is.
#[derive(Clone, Copy, Debug, PartialEq, Eq)]
pub(crate) enum Shape {
    /// A space or tab.
    Blank,
    /// From `#` to the end of the line.
    Comment,
    /// A name.
    Name,
    /// A number.
    Number,
    /// A sign.
    Sign,
    /// LF, or CR and LF.
    LineEnd,
}

/// The piece that begins at a place of the text.
#[derive(Clone, Copy, Debug, PartialEq, Eq)]
pub(crate) struct Piece {
    /// What it is.
    pub(crate) shape: Shape,
    /// How many bytes it has.
    pub(crate) length: usize,
}

/// The length of the longest name at the front; its first byte is judged elsewhere.
fn name_length(rest: &[u8]) -> usize
    ensures value { result ≡ name_length rest.now }
    ensures inside { result ≤ length rest.now }
{
    rest.iter().take_while(|byte| is_name_byte(**byte)).count()
}

/// The bytes before the next line feed.
fn comment_length(rest: &[u8]) -> usize
    ensures value { result ≡ comment_length rest.now }
    ensures inside { result ≤ length rest.now }
{
    rest.iter().take_while(|byte| !is_lf(**byte)).count()
}

/// The length of the longest number at the front; its first byte is judged elsewhere.
fn number_length(rest: &[u8]) -> usize
    ensures value { result ≡ number_length rest.now }
{
    match rest {
        [b'0', b'x', digits @ ..] if hex_length(digits) > 0 => 2 + hex_length(digits),
        _ => digits_length(rest),
    }
}

/// A sign of one byte.
fn is_sign_byte(byte: u8) -> bool
    ensures { result ≡ is_sign_byte byte }
{
    matches!(
        byte,
        b'%' | b'&' | b'('..=b'/' | b':' | b';' | b'^' | b'|' | b'~'
    )
}

/// A sign or line end at the front.
#[tactic(auto, unfolding(crate::specs::Pieces::short_piece))]
fn short_piece(rest: &[u8]) -> Option<Piece>
    requires { 0 < length rest.now }
    ensures { result ≡ short_piece rest.now }
{
    let (shape, length) = if is_lf(rest[0]) {
        (Shape::LineEnd, 1)
    } else if rest.starts_with(b"\r\n") {
        (Shape::LineEnd, 2)
    } else if rest.starts_with(b"<<") || rest.starts_with(b">>") {
        (Shape::Sign, 2)
    } else if is_sign_byte(rest[0]) {
        (Shape::Sign, 1)
    } else {
        return None;
    };
    Some(Piece { shape, length })
}

/// The longest word at the front; none where no word begins there.
#[tactic(auto, unfolding(crate::specs::Pieces::piece_of))]
fn piece_of(rest: &[u8], dotted: bool) -> Option<Piece>
    requires { 0 < length rest.now }
    ensures { result ≡ piece_of dotted rest.now }
{
    let first = rest[0];
    let (shape, length) = if is_letter(first) || dotted && is_digit(first) {
        (Shape::Name, name_length(rest))
    } else if is_digit(first) {
        (Shape::Number, number_length(rest))
    } else if first == b'#' {
        (Shape::Comment, comment_length(rest))
    } else if is_blank(first) {
        (Shape::Blank, 1)
    } else {
        return short_piece(rest);
    };
    Some(Piece { shape, length })
}

/// Whether a byte stands directly after a sign `.`.
fn is_dotted(text: &[u8], at: usize) -> bool
    requires { at < length text.now }
    ensures { result ≡ dotted text.now at }
{
    at > 0 && text[at - 1] == b'.'
}

/// The longest word that begins at a byte of the text; none where no word begins there.
pub(crate) fn piece_at(text: &[u8], at: usize) -> Option<Piece>
    requires { at < length text.now }
    ensures { PieceHere (dotted text.now at) (drop at text.now) result }
{
    piece_of(&text[at..], is_dotted(text, at))
}
