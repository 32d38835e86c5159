//! The assembler whole, and its last stage: the lines that the expansion leaves are read, judged and
//! told as words.
//!
//! A line is cut at its signs `;` into parts. First its shape is judged: which tokens stand where and
//! which parts follow which. What the names and numbers of its parts stand for is then marked in the
//! line's order, and the marks are judged kind by kind; a line without a fault says an instruction
//! (qpu_line), whose canonical word is the line's. `assemble` answers exactly the words of a text or
//! exactly its first fault, with its place.
#![tactic(auto)]

mod again;
mod assembly;
mod expression;
mod hex;
mod judge;
mod laws;
mod line;
mod mark;
mod marking;
mod meaning;
mod order;
mod part;
mod piece;
mod placed;
mod roles;
mod section;
mod words;

pub use again::{canonical_lines_are_read, canonical_lines_are_spelled};
pub use assembly::assemble;
pub use laws::{
    lines_are_refused_as_the_table_says, lines_have_words, lines_of_texts_have_words,
    lines_of_texts_spell_what_they_say, lines_spell_what_they_say, lines_without_faults_spell,
    placed_tokens_are_proper, raw_lines_are_words, second_numbers_are_faults,
    texts_are_refused_as_the_table_says, texts_have_one_answer, texts_have_the_words_they_spell,
    two_immediates_spell_nothing,
};
pub use words::words_of;

#[cfg(test)]
mod tests;
