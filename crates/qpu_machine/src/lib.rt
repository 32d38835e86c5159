//! The machine of actors: processors, DMA moves and look-up moves, one step at a time, or run in the
//! serial order.
//!
//! A step is what the definitions give, a run is the one serial schedule, and its journal spells it.
//! By its laws each trace is a path of its program that breaks no rule, a schedule is bounded by the
//! limit, and in a final machine only the mutex and semaphores are awaited. It says nothing of orders
//! that workers choose.
#![tactic(auto)]

mod actor;
mod conclusion;
mod ending;
mod journal;
mod laws;
mod machine;
mod opening;
mod putting;
mod run_list;
mod runs;
mod serial;
mod start;
mod stepping;
mod stretching;
mod taking;
#[cfg(test)]
mod tests;

pub use actor::Actor;
pub use conclusion::Ending;
pub use journal::{Journal, Run};
pub use laws::{
    final_machines_rest, journal_spells, one_serial_schedule, opening_is_sound,
    running_out_is_at_the_limit, schedules_are_bounded, schedules_run, traces_are_paths,
};
pub use machine::Machine;
pub use runs::{JournalRuns, Runs};
pub use start::Start;
pub use stepping::program_at;
pub use stretching::stretch;
