//! Machines and runs that came to their end.
ghost use Rattle.std.specs.Prelude.{◌≡◌};
ghost use Rattle.qpu_io.specs.Output.{Prints};
ghost use Rattle.qpu_machine.specs.Ending.{IsFinal, ending_of};
ghost use Rattle.qpu_machine.specs.Journal.{steps_of};
ghost use Rattle.qpu_report.specs.Report.{report_text};
ghost use Rattle.qpu_tool.specs.Run.{run_text};
ghost use Rattle.qpu_tool.specs.Statuses.{status_for};

use crate::status::{Status, status_for};
use qpu_io::{Sink, SinkFailed};
use qpu_machine::{Ending, Journal, Machine};
use qpu_record::write_record;
use qpu_report::write_report;
use std::marker::Model;

/// A machine in which nothing can move.
#[derive(Debug, Drop)]
pub struct EndedMachine {
    machine: Machine,
    ending: Ending,
}

impl Model for EndedMachine {
    ghost use Rattle.std.specs.Prelude.{◌≡◌};
    ghost use Rattle.qpu_machine.specs.Machine.{MachineState};
    ghost use Rattle.qpu_machine.specs.Ending.{IsFinal, ending_of};

    ghost Value = { MachineState };

    ghost view = { λ end. end.machine.state };

    ghost invariant = { λ end. IsFinal end.machine.state × (end.ending ≡ ending_of end.machine.state) };
}

impl EndedMachine {
    /// This machine, with its ending.
    pub(crate) fn new(machine: Machine, ending: Ending) -> Self
        requires stands { IsFinal machine.state }
        requires ending { ending ≡ ending_of machine.state }
        ensures { result ≡ machine.state }
    {
        EndedMachine { machine, ending }
    }

    /// The status of its ending.
    pub(crate) fn status(&self) -> Status
        ensures { result ≡ status_for (ending_of self.now) }
    {
        status_for(self.ending)
    }

    /// Writes its report.
    pub(crate) fn put<K: Sink>(&self, sink: &mut K) -> Result<(), SinkFailed>
        ensures { Prints (K.shown sink.old) (K.shown sink.new) (report_text self.now) result }
    {
        write_report(&self.machine, sink)
    }
}

/// A run that came to its end: its job's text, its steps, and the machine after them.
#[derive(Debug, Drop)]
pub struct EndedRun<'a> {
    job: &'a str,
    journal: Journal,
    end: EndedMachine,
}

impl<'a> Model for EndedRun<'a> {
    ghost use Rattle.qpu_machine.specs.Journal.{steps_of};
    ghost use Rattle.qpu_tool.specs.Run.{Ran};

    ghost Value = { Ran };

    ghost view = { λ run. record { job = run.job.now; steps = steps_of run.journal; machine = run.end } };
}

impl<'a> EndedRun<'a> {
    /// The run of a job with these steps, that came to this end.
    pub(crate) fn new(job: &'a str, journal: Journal, end: EndedMachine) -> Self
        ensures { result ≡ record { job = job.now; steps = steps_of journal; machine = end } }
    {
        EndedRun { job, journal, end }
    }

    /// The status of its ending.
    pub(crate) fn status(&self) -> Status
        ensures { result ≡ status_for (ending_of self.now.machine) }
    {
        self.end.status()
    }

    /// Writes its record, and the report of its machine.
    #[tactic(auto, using(qpu_io::proofs::Outputs::turns), unfolding(crate::specs::Run::run_text))]
    pub(crate) fn put<K: Sink>(&self, sink: &mut K) -> Result<(), SinkFailed>
        ensures { Prints (K.shown sink.old) (K.shown sink.new) (run_text self.now.job self.now.steps self.now.machine) result }
    {
        write_record(self.job, &self.journal, sink)?;
        self.end.put(sink)
    }
}
