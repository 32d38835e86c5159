/// Why a text isn't the assembly text of a program. The numbers are this project's own; in one line
/// the least is answered.
#[derive(Clone, Copy, Debug, PartialEq, Eq)]
pub enum AsmKind {
    /// A byte begins no token.
    BadByte = 1,
    /// A number is too large for its place.
    NumberTooLarge = 2,
    /// The name of an expression isn't set above.
    UnknownName = 3,
    /// A set name, macro, parameter or label is there already.
    Twice = 4,
    /// A macro or repeat is nested too deep.
    TooDeep = 5,
    /// The expansion or the program is too long.
    TooLong = 6,
    /// The right side of a division is 0.
    DivideByZero = 7,
    /// The tokens have no shape of a line.
    Shape = 8,
    /// The mnemonic is none.
    UnknownOp = 9,
    /// A name isn't allowed in its place.
    Operands = 10,
    /// Two immediates that don't fit one word.
    TwoImmediates = 11,
    /// Two reads of one file that differ.
    TwoReads = 12,
    /// The label of a target isn't in the text.
    Label = 13,
    /// A number is out of its range.
    Range = 14,
    /// Want of memory.
    Memory = 15,
}

/// Why a text isn't assembled, and where: line and column of the fault, in bytes and from 1. Want of
/// memory has line and column 0.
#[derive(Clone, Copy, Debug, PartialEq, Eq)]
pub struct AsmFault {
    /// The kind.
    pub kind: AsmKind,
    /// The line.
    pub line: u32,
    /// The column in the line.
    pub column: u32,
}

/// Want of memory, which has no place.
pub const NO_MEMORY: AsmFault = AsmFault {
    kind: AsmKind::Memory,
    line: 0,
    column: 0,
};
