//! The hazard checker: whether some path of a program breaks a rule on the words executed one after
//! another.
//!
//! It judges all paths at once, by visiting each trail that a path can leave; a trail is what later
//! words depend on. It answers the first hazard there is, or a checked program, whose type keeps
//! that no path breaks a rule. docs/HAZARDS.md tells the rules and why they are there.
#![tactic(auto)]

mod best;
mod breaks;
mod checked;
mod demands;
mod laws;
mod mark;
mod marks;
mod needs;
mod part;
mod rules;
mod search;
mod seen;
mod trail;

pub use breaks::{Break, Hazard};
pub use checked::{CheckFault, Checked, Programs, check, judge};
pub use laws::{
    a_word_defines_masks, clean_programs_are_clean_by_parts, clean_programs_are_not_refused,
    forgetting_changes_nothing, one_check_fault, one_hazard_is_first, opens_on_a_path,
    processors_open_on_a_path, processors_stay_on_a_path, stays_on_a_path, the_next_word_holds,
    trails_tell_the_next_trail, trails_tell_what_breaks, trails_tell_what_follows,
};
pub use trail::Trail;

#[cfg(test)]
mod tests;
