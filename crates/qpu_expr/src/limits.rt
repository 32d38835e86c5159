//! The limits of an expansion.

/// Lines that are reached, each time that they are, and turns of repeats.
pub(crate) const MOST_LINES: u32 = 65_536;

/// Tokens of the lines that are reached, without line ends.
pub(crate) const MOST_TOKENS: usize = 1_048_576;

/// The most words that a text gives, and so the most lines that are left of it. This project's own.
pub const MOST_WORDS: u32 = 4_096;

/// Turns of one repeat.
pub(crate) const MOST_TURNS: u32 = 4_096;

/// Macros and repeats, one in another.
pub(crate) const MOST_DEPTH: u32 = 16;
