//! The disassembler: the one line of each canonical word, and a directive for each other word.
//!
//! What a line has, in which order and where its spaces stand is told by qpu_line; here it is
//! written, and its tokens are told. All of it is this project's own.
#![tactic(auto)]

mod bit;
mod branch;
mod figure;
mod laws;
mod line;
mod load;
mod place;
mod units;

pub use laws::{lines_have_no_other_tokens, lines_have_their_tokens, worked_words_have_their_text};
pub use line::{disassemble, line_of};

#[cfg(test)]
mod tests;
