//! The program's commands, from their words and input to a status and an output.
//!
//! Today there are five: `run -w 0`, which runs a job in the serial order; `replay`, which runs a record
//! again; `asm`, which gives the words of assembly text; `dis`, which gives the lines of words; and
//! `check`, which judges assembly text. The promise of a run, and the cause of every answer, are the
//! contract of `plain`.
#![tactic(auto)]

mod answer;
mod answering;
mod ascii;
mod assembling;
mod checking;
mod code;
mod command;
mod comparing;
mod counted;
mod disassembling;
mod ended;
mod holding;
mod laws;
mod lines;
mod name;
mod opening;
mod printing;
mod refusal;
mod refusing;
mod replaying;
mod running;
mod status;
mod words;

pub use answer::Answer;
pub use code::Code;
pub use command::{MOST_INPUT, MOST_RECORD, plain};
pub use counted::Counted;
pub use ended::{EndedMachine, EndedRun};
pub use laws::{due_is_of_the_bytes, one_answer_is_due};
pub use name::ProgramName;
pub use refusal::Refusal;
pub use status::Status;
pub use words::Command;
