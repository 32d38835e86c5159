//! Why a line fails.

ghost use Rattle.std.specs.Prelude.{◌≡◌};
ghost use Rattle.qpu_job.specs.Faults.{fault_at};

use crate::fault::JobFault;

/// Why a line fails, in the order in which they count.
#[derive(Clone, Copy, Debug, PartialEq, Eq)]
pub(crate) enum Reason {
    Line,
    Size,
    Limit,
    Twice,
    Processor,
    NoProgram,
    Place,
}

impl Reason {
    /// The fault of this cause in a line.
    pub(crate) fn at(self, number: u32) -> JobFault
        ensures { result ≡ fault_at number self }
    {
        match self {
            Reason::Line => JobFault::Line(number),
            Reason::Size => JobFault::Size(number),
            Reason::Limit => JobFault::Limit(number),
            Reason::Twice => JobFault::Twice(number),
            Reason::Processor => JobFault::Processor(number),
            Reason::NoProgram => JobFault::NoProgram(number),
            Reason::Place => JobFault::Place(number),
        }
    }
}
