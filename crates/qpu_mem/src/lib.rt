//! The memory of a job: a list of words of 32 bits, from word 0 on.
#![tactic(auto)]

mod bank;
mod memory;

pub use memory::{GROUP, Memory};

#[cfg(test)]
mod tests;
