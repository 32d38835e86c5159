//! Where bytes come from and go to: sources and sinks in memory and of the standard streams,
//! reading to the end of input, and writing texts piece by piece.
//!
//! A source shows the bytes left, where it tells them, and a sink the bytes held; both show a count
//! of faults. A call that fails raises the count, and no other call moves it. All of it is this
//! project's own; the two standard streams are a few lines each, and what is trusted here.
#![tactic(auto)]

mod filling;
mod gate;
mod gathering;
mod mem;
mod pieces;
mod plain;
mod reading;
mod standard;
mod stream;
mod waiting;
mod writing;

pub use gate::{Gate, OpenGate};
pub use gathering::Gathering;
pub use mem::{MemSink, MemSource};
pub use pieces::{Piece, put_all};
pub use plain::{PlainSink, PlainSource};
pub use reading::{MOST_BYTES, ReadAllError, read_all};
pub use standard::{StdSink, StdSource};
pub use stream::{Sink, SinkFailed, Source, SourceFailed};
pub use writing::write_all_of;

#[cfg(test)]
mod tests;
