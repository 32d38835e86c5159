//! Laws of what a run prints: its text is ASCII, and the record that it begins with can be read again.
//!
//! There is no code here. Each law is the contract of a function that does nothing.
#![tactic(auto)]

mod laws;

pub use laws::{
    ascii_has_none_above, merged_spells, none_above_is_ascii, printed_has_none_above,
    printed_records_are_read, records_are_ascii, reports_are_ascii, schedules_have_items,
};
