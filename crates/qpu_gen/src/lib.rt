//! The generated job: for each number one job that keeps all twelve processors, the look-ups and the
//! stores busy, as a text, and that this text is read as what it asks for.
//!
//! All of it is this project's own.
#![tactic(auto)]

mod generated;
mod laws;
mod pieces;

pub use generated::{COUNTED_WORDS, job_of};
pub use laws::generated_jobs_are_read;

#[cfg(test)]
mod tests;
