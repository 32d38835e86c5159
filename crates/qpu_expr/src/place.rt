ghost use Rattle.std.specs.Prelude.{◌≡◌};
ghost use Rattle.qpu_expr.specs.Symbols.{place_of, fault_at};

use qpu_token::{AsmFault, AsmKind, Token};

/// A place in the text.
#[derive(Clone, Copy, Debug, PartialEq, Eq)]
pub(crate) struct Place {
    /// The line, from 1.
    pub(crate) line: u32,
    /// The column in the line, in bytes and from 1.
    pub(crate) column: u32,
}

/// The place of a token.
pub(crate) fn place_of(token: Token) -> Place
    ensures { result ≡ place_of token }
{
    Place {
        line: token.line,
        column: token.column,
    }
}

/// A fault at a place.
pub(crate) fn fault_at(kind: AsmKind, place: Place) -> AsmFault
    ensures { result ≡ fault_at kind place }
{
    AsmFault {
        kind,
        line: place.line,
        column: place.column,
    }
}
