//! The lines of the processors.
ghost use Rattle.std.specs.Prelude.{◌≡◌, ◌∷◌, [], Some, codes, decimal, length, slice_index};
ghost use Rattle.qpu_io.specs.Output.{Prints};
ghost use Rattle.qpu_io.specs.Text.{joined, numbered};
ghost use Rattle.qpu_word.specs.declared.state.Halt.TheVariants.{Going};
ghost use Rattle.qpu_word.specs.Words.{fields_of};
ghost use Rattle.qpu_shared.specs.Instruction.{first_cause, is_running};
ghost use Rattle.qpu_machine.specs.Machine.{processor_of, words_of};
ghost use Rattle.qpu_report.specs.Report.{row_line, going_text, counts_text, halt_of, processor_line, processor_text, started_text};

use crate::halts::{put_cause, put_fault};
use crate::rows::{put_flags, put_row};
use qpu_io::{Piece, Sink, SinkFailed, put_all, write_all_of};
use qpu_local::{Halt, Processor};
use qpu_machine::Machine;
use qpu_word::code::{PROCESSORS, ROWS};

/// Accumulators, r0 to r5.
const ACCUMULATORS: u32 = 6;

/// Writes the lines of the processors that were started, in the order of their numbers.
pub(crate) fn put_processors<K: Sink>(machine: &Machine, sink: &mut K) -> Result<(), SinkFailed>
    ensures { Prints (K.shown sink.old) (K.shown sink.new) (numbered (started_text machine.now.state) 0 machine.now.state.processors) result }
{
    for q in 0..PROCESSORS {
        put_started(machine, q, sink)?;
    }
    Ok(())
}

/// Writes the lines of processor q, where it was started.
#[tactic(auto, using(qpu_io::proofs::Outputs::appended_none))]
fn put_started<K: Sink>(machine: &Machine, q: u32, sink: &mut K) -> Result<(), SinkFailed>
    ensures text { Prints (K.shown sink.old) (K.shown sink.new) (started_text machine.now.state q (processor_of machine.now.state q)) result }
    ensures twelve { length machine.now.state.processors ≡ 12 }
{
    match machine.processor(q) {
        Some(processor) => put_processor(machine, q, processor, sink),
        None => Ok(()),
    }
}

/// Writes the lines of a processor: its line, both files, the accumulators, the flags.
#[tactic(auto, using(qpu_io::proofs::Outputs::turns), unfolding(crate::specs::Report::processor_text))]
fn put_processor<K: Sink>(
    machine: &Machine,
    q: u32,
    p: &Processor,
    sink: &mut K,
) -> Result<(), SinkFailed>
    requires { processor_of machine.now.state q ≡ Some p.now }
    ensures { Prints (K.shown sink.old) (K.shown sink.new) (processor_text machine.now.state q p.now) result }
{
    put_line(machine, q, p, sink)?;
    put_file_a(p, sink)?;
    put_file_b(p, sink)?;
    put_accumulators(p, sink)?;
    put_flags(&p.flags(), sink)
}

/// Writes the line of a processor: its number, how it stands, its counts.
#[tactic(auto, using(qpu_io::proofs::Outputs::turns), unfolding(crate::specs::Report::processor_line))]
fn put_line<K: Sink>(
    machine: &Machine,
    q: u32,
    p: &Processor,
    sink: &mut K,
) -> Result<(), SinkFailed>
    requires { processor_of machine.now.state q ≡ Some p.now }
    ensures { Prints (K.shown sink.old) (K.shown sink.new) (processor_line machine.now.state q p.now) result }
{
    put_number(q, sink)?;
    put_halt(machine, q, p, sink)?;
    put_counts(p, sink)
}

/// Writes the number of a processor.
fn put_number<K: Sink>(q: u32, sink: &mut K) -> Result<(), SinkFailed>
    ensures { Prints (K.shown sink.old) (K.shown sink.new) (joined (codes "qpu " ∷ decimal q ∷ codes " " ∷ [])) result }
{
    let pieces = [
        Piece::Text(b"qpu "),
        Piece::Decimal(u64::from(q)),
        Piece::Text(b" "),
    ];
    put_all(&pieces, sink)
}

/// Writes how a processor stands: that it ended, faulted, ran out, or what it awaits.
#[tactic(auto, unfolding(crate::specs::Report::halt_of))]
fn put_halt<K: Sink>(
    machine: &Machine,
    q: u32,
    p: &Processor,
    sink: &mut K,
) -> Result<(), SinkFailed>
    requires { processor_of machine.now.state q ≡ Some p.now }
    ensures { Prints (K.shown sink.old) (K.shown sink.new) (halt_of machine.now.state q p.now) result }
{
    match p.halt() {
        Halt::Ended => write_all_of(sink, b"ended"),
        Halt::Faulted(kind, at) => put_fault(kind, at, sink),
        Halt::Going => put_going(machine, q, p, sink),
    }
}

/// Writes what a processor that goes on awaits, or that it ran out.
fn put_going<K: Sink>(
    machine: &Machine,
    q: u32,
    p: &Processor,
    sink: &mut K,
) -> Result<(), SinkFailed>
    requires there { processor_of machine.now.state q ≡ Some p.now }
    requires going { p.now.halt ≡ Going }
    ensures { Prints (K.shown sink.old) (K.shown sink.new) (going_text (is_running machine.now.state.limit p.now) (first_cause (fields_of (slice_index (words_of machine.now.state q) p.now.place)) q machine.now.state.shared) p.now.place) result }
{
    if p.executed() >= machine.limit() {
        return write_all_of(sink, b"ran out");
    }
    put_cause(machine.awaits(q), p.place(), sink)
}

/// Writes how many instructions a processor executed, and how many interrupts it raised.
fn put_counts<K: Sink>(p: &Processor, sink: &mut K) -> Result<(), SinkFailed>
    ensures { Prints (K.shown sink.old) (K.shown sink.new) (counts_text p.now) result }
{
    let pieces = [
        Piece::Text(b" executed "),
        Piece::Decimal(u64::from(p.executed())),
        Piece::Text(b" interrupts "),
        Piece::Decimal(u64::from(p.interrupts())),
        Piece::Text(b"\n"),
    ];
    put_all(&pieces, sink)
}

fn put_file_a<K: Sink>(p: &Processor, sink: &mut K) -> Result<(), SinkFailed>
    ensures { Prints (K.shown sink.old) (K.shown sink.new) (numbered (row_line (codes "ra")) 0 p.now.file_a) result }
{
    for k in 0..ROWS {
        put_row(b"ra", k, &p.row(false, k).v, sink)?;
    }
    Ok(())
}

fn put_file_b<K: Sink>(p: &Processor, sink: &mut K) -> Result<(), SinkFailed>
    ensures { Prints (K.shown sink.old) (K.shown sink.new) (numbered (row_line (codes "rb")) 0 p.now.file_b) result }
{
    for k in 0..ROWS {
        put_row(b"rb", k, &p.row(true, k).v, sink)?;
    }
    Ok(())
}

fn put_accumulators<K: Sink>(p: &Processor, sink: &mut K) -> Result<(), SinkFailed>
    ensures { Prints (K.shown sink.old) (K.shown sink.new) (numbered (row_line (codes "r")) 0 p.now.accumulators) result }
{
    for k in 0..ACCUMULATORS {
        put_row(b"r", k, &p.accumulator(k).v, sink)?;
    }
    Ok(())
}
