//! The answer to the text of a record.
ghost use Rattle.std.specs.Prelude.{◌≡◌, ◌≢◌, ◌≤◌, ◌⊎◌, [], Some, Ok, IfErr, IfOk, IfSome, IsNone, List, length, ℕ};
ghost use Rattle.qpu_machine.specs.Machine.{MachineState};
ghost use Rattle.qpu_machine.specs.Ending.{IsFinal, ending_of};
ghost use Rattle.qpu_record.specs.Reading.{Parts, record_of};
ghost use Rattle.qpu_record.specs.Told.{parts_of};
ghost use Rattle.qpu_machine.specs.Schedule.{After};
ghost use Rattle.qpu_replay.specs.Replay.{IsComplete};
ghost use Rattle.qpu_replay.specs.Widened.{AfterWhole, FailsBy};
ghost use Rattle.qpu_report.specs.Report.{report_text};
ghost use Rattle.qpu_tool.specs.declared.command.TheConstants.{MOST_RECORD};
ghost use Rattle.qpu_tool.specs.Opening.{OpensJob};
ghost use Rattle.qpu_tool.specs.Replaying.{RecordAnswer, OpensRecord, differing_line, IsUnlike, leads_by};

use crate::answer::Answer;
use crate::comparing::differing_line;
use crate::ended::EndedMachine;
use crate::holding::HoldingSink;
use crate::opening::opened;
use crate::refusal::Refusal;
use qpu_machine::{Ending, Machine, Runs};
use qpu_record::{RecordParts, Version, read_record};
use qpu_replay::{WidenFault, replay, widen};
use qpu_word::NoMemory;
use std::alloc::Global;

/// The report of a machine, in memory.
fn report_of(alloc: Global, end: &EndedMachine) -> Result<HoldingSink, NoMemory>
    ensures { IfOk result (λ report. report.bytes ≡ report_text end.now) }
{
    let mut report = HoldingSink::new(alloc);
    match end.put(&mut report) {
        Ok(()) => Ok(report),
        Err(_) => Err(NoMemory),
    }
}

/// The line in which what stands behind a record isn't the machine's report; none where nothing
/// stands there.
fn unlike(
    alloc: Global,
    parts: &RecordParts<'_>,
    end: &EndedMachine,
) -> Result<Option<u64>, NoMemory>
    ensures { IfOk result (IsUnlike (parts_of parts.now) (report_text end.now)) }
{
    let rest = parts.rest.as_bytes();
    if rest.is_empty() {
        return Ok(None);
    }
    let report = report_of(alloc, end)?;
    Ok(differing_line(parts.rest_line, rest, report.bytes()))
}

/// The report of the machine after a record's steps, where what stands behind the record allows it.
fn reported(
    alloc: Global,
    text: &str,
    parts: &RecordParts<'_>,
    end: EndedMachine,
) -> Result<Answer<'static>, NoMemory>
    requires { (m : MachineState) × OpensRecord text.now (parts_of parts.now) m × IsComplete (leads_by (parts_of parts.now).version) m (parts_of parts.now).runs end }
    ensures { IfOk result (RecordAnswer text.now) }
{
    match unlike(alloc, parts, &end)? {
        None => Ok(Answer::Report(end)),
        Some(line) => Ok(Answer::Refused(Refusal::Report(line))),
    }
}

/// Lets a machine take the steps of runs.
fn take_steps<R: Runs + Drop>(machine: &mut Machine, runs: R) -> Result<Ending, WidenFault>
    ensures ok { IfOk result (λ ending. IsComplete After machine.old.state (R.left runs) machine.new.state × (ending ≡ ending_of machine.new.state)) }
    ensures err { IfErr result (λ fault. FailsBy After fault machine.old.state (R.left runs)) }
{
    match replay(machine, runs) {
        Ok(ending) => Ok(ending),
        Err(fault) => Err(WidenFault::Replay(fault)),
    }
}

/// Lets a machine take the steps that those of runs of whole transfers stand for.
fn take_whole_steps<R: Runs + Drop>(
    alloc: Global,
    machine: &mut Machine,
    runs: R,
) -> Result<Ending, WidenFault>
    ensures ok { IfOk result (λ ending. IsComplete AfterWhole machine.old.state (R.left runs) machine.new.state × (ending ≡ ending_of machine.new.state)) }
    ensures err { IfErr result (λ fault. FailsBy AfterWhole fault machine.old.state (R.left runs)) }
{
    let wide = widen(alloc, machine, runs)?;
    match replay(machine, wide.iter()) {
        Ok(ending) => Ok(ending),
        Err(_) => unreachable!(),
    }
}

/// Lets a machine take the steps of a record.
fn take_record(
    alloc: Global,
    machine: &mut Machine,
    parts: &RecordParts<'_>,
) -> Result<Ending, WidenFault>
    ensures ok { IfOk result (λ ending. IsComplete (leads_by parts.now.version) machine.old.state parts.now.items machine.new.state × (ending ≡ ending_of machine.new.state)) }
    ensures err { IfErr result (λ fault. FailsBy (leads_by parts.now.version) fault machine.old.state parts.now.items) }
{
    match parts.version {
        Version::First => take_whole_steps(alloc, machine, parts.items.again()),
        Version::Second => take_steps(machine, parts.items.again()),
    }
}

/// The answer to a record whose steps aren't a complete permitted schedule.
fn not_taken(fault: WidenFault) -> Result<Answer<'static>, NoMemory>
    ensures { (text : List ℕ) (parts : Parts) (m : MachineState) → OpensRecord text parts m → FailsBy (leads_by parts.version) fault m parts.runs → IfOk result (RecordAnswer text) }
{
    match fault {
        WidenFault::Replay(fault) => Ok(Answer::Refused(Refusal::Schedule(fault))),
        WidenFault::Memory => Err(NoMemory),
    }
}

/// Lets the machine of a record take its steps.
fn replay_on(
    alloc: Global,
    text: &str,
    parts: &RecordParts<'_>,
    machine: Machine,
) -> Result<Answer<'static>, NoMemory>
    requires { OpensRecord text.now (parts_of parts.now) machine.state }
    ensures { IfOk result (RecordAnswer text.now) }
{
    let mut machine = machine;
    match take_record(alloc, &mut machine, parts) {
        Ok(ending) => reported(alloc, text, parts, EndedMachine::new(machine, ending)),
        Err(fault) => not_taken(fault),
    }
}

/// Makes the machine of a record's job, and lets it take the record's steps.
fn replay_record(
    alloc: Global,
    text: &str,
    parts: &RecordParts<'_>,
) -> Result<Answer<'static>, NoMemory>
    requires most { length parts.now.job.now ≤ MOST_RECORD }
    requires is_record { record_of text.now ≡ Ok (parts_of parts.now) }
    ensures { IfOk result (RecordAnswer text.now) }
{
    match opened(alloc, parts.job)? {
        Ok(machine) => replay_on(alloc, text, parts, machine),
        Err(refusal) => Ok(Answer::Refused(refusal)),
    }
}

/// Reads a record, and lets the machine of its job take its steps.
pub(crate) fn replay_text(alloc: Global, text: &str) -> Result<Answer<'static>, NoMemory>
    requires { length text.now ≤ MOST_RECORD }
    ensures { IfOk result (RecordAnswer text.now) }
{
    match read_record(text) {
        Ok(parts) => replay_record(alloc, text, &parts),
        Err(fault) => Ok(Answer::Refused(Refusal::Record(fault))),
    }
}
