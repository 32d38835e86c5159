//! The mutex and the sixteen semaphores that processors share.
//!
//! A call that stalls answers false and changes nothing; whoever called waits and tries again. The
//! unit knows no processor but by its number.
#![tactic(auto)]

mod unit;

pub use unit::SyncUnit;
