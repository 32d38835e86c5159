//! The text of a job, read, and the machine that it describes.
//!
//! A job asks for memory, a limit, values in memory, programs and the processors that run them.
//! `read_job` reads its text, and answers a text that is none with the first failing line. The
//! texts that it takes are exactly those of a grammar (specs/Grammar), and each job that it answers
//! keeps the bounds on its parts (specs/ReadJob). Programs are taken as they stand: reading doesn't
//! judge them. `make_machine` assembles and checks them, and answers the machine that the job
//! describes, or the first refusal (specs/Opening).
#![tactic(auto)]

mod above;
mod checking;
mod code;
mod fault;
mod faulty;
mod job;
mod laws;
mod line;
mod making;
mod number;
mod reading;
mod reason;
mod shape;
mod stage;
mod word;

pub use fault::JobFault;
pub use job::{Job, MOST_NAME, MOST_PROGRAMS, MOST_TEXT, ProgramText, Value};
pub use laws::{clean_jobs_are_accepted, one_refusal, read_jobs_may_open, reads_the_grammar};
pub use making::make_machine;
pub use reading::read_job;

#[cfg(test)]
mod tests;
