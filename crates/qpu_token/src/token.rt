/// Bytes of the longest text.
pub const MOST_BYTES: usize = 268_435_456;

/// What a token is.
#[derive(Clone, Copy, Debug, PartialEq, Eq)]
pub enum TokenKind {
    /// A name.
    Name,
    /// A number, decimal or hexadecimal, with its value.
    Number(u64),
    /// A sign.
    Punct,
    /// The end of a line. A last line without a line feed has one of no bytes at the text's end.
    LineEnd,
}

/// A token of a text. Its own text are the text's bytes from `from` up to `to`.
#[derive(Clone, Copy, Debug, PartialEq, Eq)]
pub struct Token {
    /// What it is.
    pub kind: TokenKind,
    /// Its first byte.
    pub from: usize,
    /// The byte after its last one.
    pub to: usize,
    /// Its line, from 1.
    pub line: u32,
    /// The column of its first byte, in bytes and from 1.
    pub column: u32,
}
