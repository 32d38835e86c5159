//! Instruction words of the quad processors, and the written machine of one processor: the
//! definitions in `specs/` that every crate above cites.
//!
//! Here stand the types of words, lanes, setups and a processor's parts, and what can be told of
//! a word alone: its fields. It holds no processor and no memory.
#![tactic(auto)]

mod activity;
mod alone;
mod book;
mod byte;
mod canonical;
mod canonical_word;
pub mod code;
mod fault;
mod form;
mod lanes;
mod laws;
mod looking;
mod masks;
mod memory;
mod name;
mod needs;
mod operation;
mod packed;
mod port;
mod program;
mod reading;
mod sending;
mod setup;
pub mod slot;
mod state;
mod traffic;
mod word;

pub use byte::{byte_of, number_of};
pub use canonical::file_matters;
pub use fault::{FaultKind, SetupFault, WordFault};
pub use form::Form;
pub use lanes::{LANES, Lanes};
pub use laws::{books_stay_sound, canonical_words_do_the_same};
pub use looking::is_look_address;
pub use masks::{lesser, negatives, passing, zeros};
pub use memory::NoMemory;
pub use name::{Place, read_address, read_name, write_address, write_name};
pub use needs::Needs;
pub use operation::{AddOp, MulOp};
pub use port::Port;
pub use program::Program;
pub use sending::Sent;
pub use setup::{Book, ReadSetup, Vectors, WriteSetup, read_setup, write_setup};
pub use state::{Flags, Halt, Rest};
pub use traffic::{Ins, Outs};
pub use word::{Fields, Word};

#[cfg(test)]
mod canonical_tests;
#[cfg(test)]
mod tests;
