//! What a job asks for.

use qpu_machine::Start;

/// How many programs a job has at most.
pub const MOST_PROGRAMS: usize = 16;

/// Bytes of the longest name.
pub const MOST_NAME: usize = 32;

/// Bytes of the longest text of a job.
pub const MOST_TEXT: usize = 268_435_456;

/// A word of memory and its value before any step.
#[derive(Clone, Copy, Debug, PartialEq, Eq)]
pub struct Value {
    /// The word's index in memory.
    pub at: u32,
    /// Its value.
    pub value: u32,
}

/// A program of a job, as it is written.
#[derive(Debug, Drop)]
pub struct ProgramText {
    /// Its name: 1 to 32 letters, digits or `_`.
    pub name: String,
    /// The lines between `program` and `endprogram` as they stand, each with its line feed.
    pub text: String,
    /// The line of the job in which its text begins, from 1.
    pub line: u32,
}

/// What a job asks for.
#[derive(Debug, Drop)]
pub struct Job {
    /// Words of memory, 1 to 1,048,576.
    pub words: u32,
    /// How many instructions a processor executes at most, up to 1,000,000.
    pub limit: u32,
    /// Values of words in memory, in the order of the text: of two for one word the later stands.
    pub values: Vec<Value>,
    /// At most 16 programs, each with another name, in the order of the text.
    pub programs: Vec<ProgramText>,
    /// The processors that are started, each once, in the order of the text.
    pub starts: Vec<Start>,
}
