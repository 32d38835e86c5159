//! That the assembler undoes the disassembler: the words whose lines are written are the words of
//! that text.
//!
//! The laws stand above both crates, since neither knows the other.
#![tactic(auto)]

mod back;
mod laws;

pub use back::read_back;
pub use laws::{texts_tell_their_words, words_come_back};

#[cfg(test)]
mod tests;
