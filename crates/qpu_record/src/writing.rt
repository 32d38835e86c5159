//! Writing a record.
ghost use Rattle.std.specs.Prelude.{◌≡◌, [], ◌∷◌, decimal, codes, flat_map};
ghost use Rattle.qpu_io.specs.Output.{Prints};
ghost use Rattle.qpu_io.specs.Text.{joined};
ghost use Rattle.qpu_machine.specs.Journal.{steps_of};
ghost use Rattle.qpu_record.specs.Record.{item_text, ends_line, missing_line_end, runs_text, record_text};

use qpu_io::{Piece, Sink, SinkFailed, put_all, write_all_of};
use qpu_machine::{Actor, Journal, Run};

/// Writes the record, of version 2, of a job and of the steps that a journal spells. The one error is the sink's:
/// then a front of the text was written. It takes no memory.
pub fn write_record<K: Sink>(job: &str, journal: &Journal, sink: &mut K) -> Result<(), SinkFailed>
    ensures { Prints (K.shown sink.old) (K.shown sink.new) (record_text job.now (steps_of journal.now)) result }
{
    write_runs(job.as_bytes(), journal.runs(), sink)
}

/// Writes the record of a job and of runs of steps.
#[tactic(auto, unfolding(crate::specs::Record::runs_text))]
fn write_runs<K: Sink>(job: &[u8], runs: &[Run], sink: &mut K) -> Result<(), SinkFailed>
    ensures { Prints (K.shown sink.old) (K.shown sink.new) (runs_text job.now runs.now) result }
{
    write_all_of(sink, b"qpurecord 2\n")?;
    put_size(job.len(), sink)?;
    write_all_of(sink, job)?;
    put_missing_line_end(job, sink)?;
    write_all_of(sink, b"schedule\n")?;
    put_runs(runs, sink)?;
    write_all_of(sink, b"endrecord\n")
}

// The line with the job's size in bytes.
fn put_size<K: Sink>(size: usize, sink: &mut K) -> Result<(), SinkFailed>
    ensures { Prints (K.shown sink.old) (K.shown sink.new)
        (joined (codes "job " ∷ decimal size ∷ codes "\n" ∷ [])) result }
{
    let pieces = [
        Piece::Text(b"job "),
        Piece::Decimal(size as u64),
        Piece::Text(b"\n"),
    ];
    put_all(&pieces, sink)
}

// The line feed that the job lacks at its end.
#[tactic(auto, using(qpu_io::proofs::Outputs::appended_none))]
fn put_missing_line_end<K: Sink>(job: &[u8], sink: &mut K) -> Result<(), SinkFailed>
    ensures { Prints (K.shown sink.old) (K.shown sink.new) (missing_line_end job.now) result }
{
    if ends_line(job) {
        return Ok(());
    }
    write_all_of(sink, b"\n")
}

#[tactic(auto, using(crate::proofs::EndLemmas::ends_line_last))]
pub(crate) fn ends_line(job: &[u8]) -> bool
    ensures { result ≡ ends_line job.now }
{
    match job {
        [] => false,
        [.., last] => *last == b'\n',
    }
}

fn put_runs<K: Sink>(runs: &[Run], sink: &mut K) -> Result<(), SinkFailed>
    ensures { Prints (K.shown sink.old) (K.shown sink.new) (flat_map item_text runs.now) result }
{
    for run in runs {
        put_run(run, sink)?;
    }
    Ok(())
}

fn put_run<K: Sink>(run: &Run, sink: &mut K) -> Result<(), SinkFailed>
    ensures { Prints (K.shown sink.old) (K.shown sink.new) (item_text run.now) result }
{
    match run.actor {
        Actor::Exec(q) => put_item(b"q ", q, run.count, sink),
        Actor::Load(q) => put_item(b"l ", q, run.count, sink),
        Actor::Store(q) => put_item(b"s ", q, run.count, sink),
        Actor::Fetch(q, unit) => put_fetch(q, unit, run.count, sink),
    }
}

// An item of steps under a name.
fn put_item<K: Sink>(name: &[u8], q: u32, count: u64, sink: &mut K) -> Result<(), SinkFailed>
    ensures { Prints (K.shown sink.old) (K.shown sink.new)
        (joined (name.now ∷ decimal q ∷ codes " " ∷ decimal count ∷ codes "\n" ∷ [])) result }
{
    let pieces = [
        Piece::Text(name),
        Piece::Decimal(u64::from(q)),
        Piece::Text(b" "),
        Piece::Decimal(count),
        Piece::Text(b"\n"),
    ];
    put_all(&pieces, sink)
}

// The item of look-up moves.
fn put_fetch<K: Sink>(q: u32, unit: u32, count: u64, sink: &mut K) -> Result<(), SinkFailed>
    ensures { Prints (K.shown sink.old) (K.shown sink.new)
        (joined (codes "t " ∷ decimal q ∷ codes " " ∷ decimal unit ∷ codes " " ∷ decimal count ∷ codes "\n" ∷ []))
        result }
{
    let pieces = [
        Piece::Text(b"t "),
        Piece::Decimal(u64::from(q)),
        Piece::Text(b" "),
        Piece::Decimal(u64::from(unit)),
        Piece::Text(b" "),
        Piece::Decimal(count),
        Piece::Text(b"\n"),
    ];
    put_all(&pieces, sink)
}
