//! A machine made to take the steps that a journal spells.
//!
//! `replay` takes them one after another. Its answer is the one that is due: how the machine has come
//! out exactly where the journal spells a complete permitted schedule, and else the first step that
//! isn't enabled, or that something can still move. It takes journals, and reads no record.
//! `widen` makes such a journal of one in which a step of a load or store moves a whole transfer.
#![tactic(auto)]

mod fault;
mod replaying;
#[cfg(test)]
mod tests;
mod widening;

pub use fault::{ReplayFault, WidenFault};
pub use replaying::replay;
pub use widening::widen;
