//! Control flow of a program: which word follows which.
//!
//! Three slots execute after a branch, two after program end. A register branch goes to any link
//! point, which is the word after the slots of a branch that writes a link. It judges no program
//! but by its words' profile; the hazard checker stands on it.
#![tactic(auto)]

mod branch;
mod control;
mod decoding;
mod flow;
mod laws;
mod slots;
mod ways;

pub use control::{Control, Next, Progress, Target};
pub use flow::{Flow, FlowFault};
pub use laws::{one_answer_follows, one_word_is_first_outside};
pub use slots::{Slots, Successors};

#[cfg(test)]
mod tests;
