ghost use Rattle.std.specs.Prelude.{◌≡◌, ◌+◌, ◌^◌, ◌<◌};

use crate::fault::{AsmFault, AsmKind};

/// A place in the text.
#[derive(Clone, Copy, Debug, PartialEq, Eq)]
pub(crate) struct Place {
    /// The line, from 1.
    pub(crate) line: u32,
    /// The column in the line, in bytes and from 1.
    pub(crate) column: u32,
}

impl Place {
    /// The place so many bytes further in the line.
    pub(crate) fn further(self, bytes: usize) -> Place
        requires { self.column + bytes < 2 ^ 32 }
        ensures { result ≡ record { line = self.line; column = self.column + bytes } }
    {
        Place {
            line: self.line,
            column: self.column + bytes as u32,
        }
    }

    /// The begin of the next line.
    pub(crate) fn next_line(self) -> Place
        requires { self.line + 1 < 2 ^ 32 }
        ensures { result ≡ record { line = self.line + 1; column = 1 } }
    {
        Place {
            line: self.line + 1,
            column: 1,
        }
    }

    /// A fault at this place.
    pub(crate) fn fault(self, kind: AsmKind) -> AsmFault
        ensures { result ≡ record { kind = kind; line = self.line; column = self.column } }
    {
        AsmFault {
            kind,
            line: self.line,
            column: self.column,
        }
    }
}
