//! Why an input, or the words of a command, are refused.
ghost use Rattle.std.specs.Prelude.{◌≡◌};
ghost use Rattle.qpu_io.specs.Output.{Prints};
ghost use Rattle.qpu_tool.specs.Refusals.{refusal_status, refusal_line};

use crate::lines::{
    put_asm_line, put_hazard_line, put_job_line, put_numbered, put_record_line, put_schedule_line,
};
use crate::name::ProgramName;
use crate::status::Status;
use qpu_hazard::CheckFault;
use qpu_io::{Sink, SinkFailed, write_all_of};
use qpu_job::JobFault;
use qpu_record::RecordFault;
use qpu_replay::ReplayFault;
use qpu_token::AsmFault;

/// Why there is no other answer; each is told in one line (this project's own).
#[derive(Debug, Drop)]
pub enum Refusal {
    /// The words are no command.
    Usage,
    /// Reading failed.
    ReadFault,
    /// The input is longer than its limit.
    TooLong,
    /// The byte at this place, from 0, is above 127, and none before it is.
    NotAscii(usize),
    /// Assembly text, or a line with a word, has this fault first.
    Asm(AsmFault),
    /// A line of a job has this fault, and none before it has one.
    Job(JobFault),
    /// The words of a program have this fault; the name is that of a job's program.
    Hazard(Option<ProgramName>, CheckFault),
    /// A line of a record has this fault, and none before it has one.
    Record(RecordFault),
    /// The schedule of a record isn't a complete permitted one.
    Schedule(ReplayFault),
    /// The report behind a record isn't the machine's, in this line first.
    Report(u64),
}

impl Refusal {
    /// The status.
    pub(crate) fn status(&self) -> Status
        ensures { result ≡ refusal_status self.now }
    {
        match self {
            Refusal::Usage => Status::Usage,
            Refusal::ReadFault => Status::ReadFault,
            Refusal::TooLong => Status::TooLong,
            Refusal::NotAscii(_) => Status::NotAscii,
            Refusal::Asm(_) => Status::AsmRefused,
            Refusal::Job(_) => Status::JobRefused,
            Refusal::Hazard(_, _) => Status::HazardRefused,
            Refusal::Record(_) => Status::RecordRefused,
            Refusal::Schedule(_) => Status::RecordRefused,
            Refusal::Report(_) => Status::RecordRefused,
        }
    }

    /// Writes the line.
    pub(crate) fn put<K: Sink>(&self, sink: &mut K) -> Result<(), SinkFailed>
        ensures { Prints (K.shown sink.old) (K.shown sink.new) (refusal_line self.now) result }
    {
        match self {
            Refusal::Usage => write_all_of(sink, b"usage\n"),
            Refusal::ReadFault => write_all_of(sink, b"read fault\n"),
            Refusal::TooLong => write_all_of(sink, b"too long\n"),
            Refusal::NotAscii(at) => put_numbered(b"not ascii at ", *at as u64, sink),
            Refusal::Asm(fault) => put_asm_line(*fault, sink),
            Refusal::Job(fault) => put_job_line(*fault, sink),
            Refusal::Hazard(None, fault) => put_hazard_line(b"", b"", *fault, sink),
            Refusal::Hazard(Some(name), fault) => {
                put_hazard_line(b" in ", name.bytes(), *fault, sink)
            }
            Refusal::Record(fault) => put_record_line(*fault, sink),
            Refusal::Schedule(fault) => put_schedule_line(*fault, sink),
            Refusal::Report(line) => put_numbered(b"refused record report at line ", *line, sink),
        }
    }
}
