//! The report of a final machine: its processors, VPM, memory, semaphores and mutex, as a text.
//!
//! `write_report` writes it over any sink, and takes no memory.
#![tactic(auto)]

mod halts;
mod parts;
mod processors;
mod report;
mod rows;

pub use report::write_report;
