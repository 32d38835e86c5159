ghost use Rattle.std.specs.Prelude.{◌≡◌, ◌+◌, ◌^◌, ◌<◌, ◌≤◌, length};
ghost use Rattle.qpu_token.specs.Places.{place_at};
ghost use Rattle.qpu_token.specs.Reading.{turn_of, TurnTaken};

use crate::here::Here;
use crate::piece::{Shape, piece_at};
use crate::token::{MOST_BYTES, Token, TokenKind};
use qpu_text::number_within;

/// What reading on by one word comes to.
#[derive(Clone, Copy, Debug, PartialEq, Eq)]
pub(crate) enum Turn {
    /// No word begins here.
    Nothing,
    /// A blank or comment.
    Passed(Here),
    /// A token.
    Told(Token, Here),
    /// A number that is too large for its place.
    TooLarge(Here),
}

/// What a word that begins here comes to.
fn turn_of(here: Here, shape: Shape, word: &[u8]) -> Turn
    requires end { here.at + length word.now < 2 ^ 32 }
    requires line { here.place.line + 1 < 2 ^ 32 }
    requires column { here.place.column + length word.now < 2 ^ 32 }
    ensures { result ≡ turn_of here shape word.now }
{
    let next = here.behind(shape, word);
    match shape {
        Shape::Blank | Shape::Comment => Turn::Passed(next),
        Shape::Name => Turn::Told(here.token(TokenKind::Name, next.at), next),
        Shape::Sign => Turn::Told(here.token(TokenKind::Punct, next.at), next),
        Shape::LineEnd => Turn::Told(here.token(TokenKind::LineEnd, next.at), next),
        Shape::Number => match number_within(here.before.most(), word) {
            Some(n) => Turn::Told(here.token(TokenKind::Number(n), next.at), next),
            None => Turn::TooLarge(next),
        },
    }
}

/// Reads on by one word.
pub(crate) fn take_turn(text: &[u8], here: Here) -> Turn
    requires most { length text.now ≤ MOST_BYTES }
    requires inside { here.at < length text.now }
    requires place { here.place ≡ place_at text.now here.at }
    ensures { TurnTaken text.now here result }
{
    let Some(piece) = piece_at(text, here.at) else {
        return Turn::Nothing;
    };
    let rest = &text[here.at..];
    turn_of(here, piece.shape, &rest[..piece.length])
}
