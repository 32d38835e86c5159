//! Why a text is no job, or a job no machine.

ghost use Rattle.std.specs.Prelude.{◌≡◌};
ghost use Rattle.qpu_job.specs.declared.fault.JobFault.TheVariants.{Memory};

use qpu_hazard::CheckFault;
use qpu_token::AsmFault;
use qpu_word::NoMemory;

/// Why a text is no job, or why there is no machine for a job. Lines count from 1. Of a text that is
/// no job the first failing line is told, and in it the first of the order in which the causes stand
/// here; `Asm` and `Check` are of jobs that were read.
#[derive(Clone, Copy, Debug, PartialEq, Eq)]
pub enum JobFault {
    /// The line has no shape that stands there, or a number of 2^32 or more; or the text ends
    /// before the limit or inside a program, and this is the line after the last.
    Line(u32),
    /// Memory isn't 1 to 1,048,576 words.
    Size(u32),
    /// The limit is above 1,000,000, or the program is the seventeenth.
    Limit(u32),
    /// A program of this name, or a start of this processor, stands above.
    Twice(u32),
    /// The processor's number is above 11.
    Processor(u32),
    /// No program of this name stands above.
    NoProgram(u32),
    /// The address is no multiple of 4, or a value lies outside memory.
    Place(u32),
    /// A program isn't assembled: the fault of its text, with its line in the job. It is never want of
    /// memory.
    Asm(AsmFault),
    /// The words of a program are refused.
    Check {
        /// The program's index.
        program: u32,
        /// Why.
        fault: CheckFault,
    },
    /// Want of memory.
    Memory,
}

impl From<NoMemory> for JobFault {
    ghost from_gives = { λ _ fault. fault ≡ Memory };

    fn from(_want: NoMemory) -> JobFault {
        JobFault::Memory
    }
}
