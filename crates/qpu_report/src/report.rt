//! Writing the report of a final machine.
ghost use Rattle.std.specs.Prelude.{◌≡◌};
ghost use Rattle.qpu_io.specs.Output.{Prints};
ghost use Rattle.qpu_machine.specs.Ending.{IsFinal, ending_of};
ghost use Rattle.qpu_report.specs.Report.{ending_line, shared_text, report_text};

use crate::parts::{put_memory, put_mutex, put_semaphores, put_vpm};
use crate::processors::put_processors;
use qpu_io::{Sink, SinkFailed, write_all_of};
use qpu_machine::{Ending, Machine};
use qpu_shared::Shared;

/// Writes the report of a final machine: its processors in the order of their numbers, the VPM's
/// rows, memory in groups of eight words, the semaphores, the mutex, the ending. What is 0 has no
/// line. The one error is the sink's: then a front of the text was written. It takes no memory.
#[tactic(auto, using(qpu_io::proofs::Outputs::turns), unfolding(crate::specs::Report::report_text))]
pub fn write_report<K: Sink>(machine: &Machine, sink: &mut K) -> Result<(), SinkFailed>
    requires { IsFinal machine.now.state }
    ensures { Prints (K.shown sink.old) (K.shown sink.new) (report_text machine.now.state) result }
{
    write_all_of(sink, b"report\n")?;
    put_processors(machine, sink)?;
    put_shared(machine.shared(), sink)?;
    put_ending(machine, sink)?;
    write_all_of(sink, b"endreport\n")
}

/// Writes the lines of what the processors share.
#[tactic(auto, using(qpu_io::proofs::Outputs::turns), unfolding(crate::specs::Report::shared_text))]
fn put_shared<K: Sink>(shared: &Shared, sink: &mut K) -> Result<(), SinkFailed>
    ensures { Prints (K.shown sink.old) (K.shown sink.new) (shared_text shared.now) result }
{
    put_vpm(shared.vpm(), sink)?;
    put_memory(shared.memory(), sink)?;
    put_semaphores(shared.sync().counts(), sink)?;
    put_mutex(shared.sync().holder(), sink)
}

/// The line of an ending.
fn line_of(ending: Ending) -> &'static [u8]
    ensures { result.now ≡ ending_line ending }
{
    match ending {
        Ending::Done => b"ending done\n",
        Ending::Stuck => b"ending stuck\n",
        Ending::RanOut => b"ending ranout\n",
        Ending::Faulted => b"ending faulted\n",
    }
}

/// Writes the line of the ending of a final machine.
fn put_ending<K: Sink>(machine: &Machine, sink: &mut K) -> Result<(), SinkFailed>
    requires { IsFinal machine.now.state }
    ensures { Prints (K.shown sink.old) (K.shown sink.new) (ending_line (ending_of machine.now.state)) result }
{
    let Some(ending) = machine.ending() else {
        unreachable!()
    };
    write_all_of(sink, line_of(ending))
}
