//! Rounds by join: the serial order, with the long local stretches of a round run at once.
//!
//! In the serial order nobody but processor q changes processor q, so its local words can be run before
//! its turn, away from the machine, and put back in its turn. The machine and the journal are those of
//! the serial order, whatever the number of workers; that words do run at once isn't claimed.
#![tactic(auto)]

mod away;
mod looking;
mod rounds;
mod sending;
mod stretching;

pub use rounds::run_rounds;
