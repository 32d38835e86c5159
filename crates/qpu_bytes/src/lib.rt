//! Elements of 8, 16 and 32 bits in words and lists of words, and where they lie.
//!
//! Byte n of a list of words is byte n mod 4, from the low end, of word n div 4. Places are byte
//! places, and an element's place is a multiple of its size.
#![tactic(auto)]

mod laws;
mod part;
mod size;

pub use laws::{a_part_reads_back, other_bytes_stay, words_of_equal_bytes_are_equal};
pub use part::{part_of, with_part_of};
pub use size::Size;

#[cfg(test)]
mod tests;
