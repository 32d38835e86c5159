ghost use Rattle.std.specs.Prelude.{◌≡◌, ◌+◌, ◌^◌, ◌<◌, length};

use crate::before::Before;
use crate::piece::Shape;
use crate::place::Place;
use crate::token::{Token, TokenKind};

/// Up to where a text is read.
#[derive(Clone, Copy, Debug, PartialEq, Eq)]
pub(crate) struct Here {
    /// The next byte.
    pub(crate) at: usize,
    /// Its place.
    pub(crate) place: Place,
    /// What stands before it.
    pub(crate) before: Before,
}

impl Here {
    ghost use Rattle.qpu_token.specs.Reading.{after_piece, token_here};

    /// The begin of a text.
    pub(crate) const START: Here = Here {
        at: 0,
        place: Place { line: 1, column: 1 },
        before: Before::Other,
    };

    /// Behind a word that begins here.
    pub(crate) fn behind(self, shape: Shape, word: &[u8]) -> Here
        requires end { self.at + length word.now < 2 ^ 32 }
        requires line { self.place.line + 1 < 2 ^ 32 }
        requires column { self.place.column + length word.now < 2 ^ 32 }
        ensures { result ≡ after_piece self shape word.now }
    {
        let place = match shape {
            Shape::LineEnd => self.place.next_line(),
            _ => self.place.further(word.len()),
        };
        let before = match shape {
            Shape::Blank | Shape::Comment => self.before,
            _ => self.before.after(word),
        };
        Here {
            at: self.at + word.len(),
            place,
            before,
        }
    }

    /// A token from here up to another byte.
    pub(crate) fn token(self, kind: TokenKind, to: usize) -> Token
        ensures { result ≡ token_here self kind to }
    {
        Token {
            kind,
            from: self.at,
            to,
            line: self.place.line,
            column: self.place.column,
        }
    }
}
