//! The look-ups of one processor: what its two TMU units have outstanding, the oldest first.
//!
//! A look-up is issued with the places of its sixteen words, fetched once these are read, and taken
//! by the processor. This crate keeps the order; it reads no memory.
#![tactic(auto)]

mod look_up;
mod lookups;
mod queue;

pub use look_up::LookUp;
pub use lookups::Lookups;
pub use queue::LOOK_UPS;

#[cfg(test)]
mod tests;
