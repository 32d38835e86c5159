use crate::name::Name;

/// What a token of a line is.
#[derive(Clone, Copy, Debug, PartialEq, Eq)]
pub enum Symbol {
    /// A name of the language.
    Name(Name),
    /// A name that is none of the language.
    Unknown,
    /// A number.
    Number(u64),
    /// `,`.
    Comma,
    /// `;`.
    Semicolon,
    /// `:`.
    Colon,
    /// `.`.
    Dot,
    /// `-`.
    Minus,
    /// `(`.
    Open,
    /// `)`.
    Close,
    /// `~`.
    Invert,
    /// A sign that stands only between two numbers.
    Binary,
    /// The end of a line.
    LineEnd,
}
