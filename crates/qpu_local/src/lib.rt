//! One processor: its registers, flags and place, and the instructions that touch it alone.
//!
//! `step_local` is one whole local instruction of the written machine. What an instruction reads
//! from or sends to the shared parts goes through its door, the trait `Port`.
#![tactic(auto)]

mod control;
mod flagging;
mod plain;
mod port;
mod processor;
mod reading;
mod sending;
mod stepping;
mod storing;
mod units;
mod whole;

pub use processor::Processor;
pub use qpu_word::{Flags, Halt};

#[cfg(test)]
mod tests;
