//! The record of a run: the job and the schedule that was taken, as a text.
//!
//! `write_record` writes it, and `read_record` reads it; that a record spells one schedule is a law.
#![tactic(auto)]

mod fault;
mod heading;
mod item;
mod items;
mod laws;
mod number;
mod parts;
mod reading;
mod writing;

pub use fault::RecordFault;
pub use items::Items;
pub use laws::{keeps_steps, reads_the_grammar, records_are_read, spells_one_schedule};
pub use parts::{MOST_TEXT, RecordParts, Version};
pub use reading::read_record;
pub use writing::write_record;

#[cfg(test)]
mod tests;
