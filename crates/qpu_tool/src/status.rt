ghost use Rattle.std.specs.Prelude.{◌≡◌};
ghost use Rattle.qpu_tool.specs.Statuses.{status_code, status_for};

use qpu_machine::Ending;

/// How the program answers; its exit status is the code (this project's own).
#[derive(Clone, Copy, Debug, PartialEq, Eq)]
pub enum Status {
    /// The answer was written; a run ended Done.
    Done,
    /// The words are no command.
    Usage,
    /// Assembly text is refused.
    AsmRefused,
    /// A job is refused.
    JobRefused,
    /// A word is outside the profile, or a hazard rule is broken.
    HazardRefused,
    /// Reading failed.
    ReadFault,
    /// Writing failed.
    WriteFault,
    /// Memory was wanting; nothing was written.
    NoMemory,
    /// A run ended Stuck.
    Stuck,
    /// A run ended RanOut.
    RanOut,
    /// A run ended Faulted.
    Faulted,
    /// A record is refused.
    RecordRefused,
    /// The input is longer than its limit.
    TooLong,
    /// A byte above 127 stands in the input.
    NotAscii,
}

impl Status {
    /// The exit status: 0 Done, 1 Usage, 2 AsmRefused, 3 JobRefused, 4 HazardRefused, 5 ReadFault,
    /// 6 WriteFault, 7 NoMemory, 8 Stuck, 9 RanOut, 10 Faulted, 11 RecordRefused, 12 TooLong, 13 NotAscii.
    pub fn code(self) -> u8
        ensures { result ≡ status_code self }
    {
        match self {
            Status::Done => 0,
            Status::Usage => 1,
            Status::AsmRefused => 2,
            Status::JobRefused => 3,
            Status::HazardRefused => 4,
            Status::ReadFault => 5,
            Status::WriteFault => 6,
            Status::NoMemory => 7,
            Status::Stuck => 8,
            Status::RanOut => 9,
            Status::Faulted => 10,
            Status::RecordRefused => 11,
            Status::TooLong => 12,
            Status::NotAscii => 13,
        }
    }
}

/// The status of a run with an ending.
pub(crate) fn status_for(ending: Ending) -> Status
    ensures { result ≡ status_for ending }
{
    match ending {
        Ending::Done => Status::Done,
        Ending::Stuck => Status::Stuck,
        Ending::RanOut => Status::RanOut,
        Ending::Faulted => Status::Faulted,
    }
}
