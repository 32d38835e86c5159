//! The lines that refuse an input.
ghost use Rattle.std.specs.Prelude.{◌≡◌, [], ◌∷◌, codes, decimal};
ghost use Rattle.qpu_io.specs.Output.{Prints};
ghost use Rattle.qpu_io.specs.Text.{joined};
ghost use Rattle.qpu_tool.specs.Refusals.{asm_kind_name, asm_line, kind_line, job_line, word_fault_name, hazard_line, record_line, schedule_line};

use qpu_hazard::CheckFault;
use qpu_io::{Piece, Sink, SinkFailed, put_all, write_all_of};
use qpu_job::JobFault;
use qpu_record::RecordFault;
use qpu_replay::ReplayFault;
use qpu_token::{AsmFault, AsmKind};
use qpu_word::WordFault;

/// Writes a line of words and a number.
pub(crate) fn put_numbered<K: Sink>(
    words: &[u8],
    number: u64,
    sink: &mut K,
) -> Result<(), SinkFailed>
    ensures { Prints (K.shown sink.old) (K.shown sink.new) (joined (words.now ∷ decimal number ∷ codes "\n" ∷ [])) result }
{
    let pieces = [
        Piece::Text(words),
        Piece::Decimal(number),
        Piece::Text(b"\n"),
    ];
    put_all(&pieces, sink)
}

/// The name of a kind of fault; want of memory has none.
fn asm_kind_name(kind: AsmKind) -> &'static [u8]
    ensures { result.now ≡ asm_kind_name kind }
{
    match kind {
        AsmKind::BadByte => b"BadByte",
        AsmKind::NumberTooLarge => b"NumberTooLarge",
        AsmKind::UnknownName => b"UnknownName",
        AsmKind::Twice => b"Twice",
        AsmKind::TooDeep => b"TooDeep",
        AsmKind::TooLong => b"TooLong",
        AsmKind::DivideByZero => b"DivideByZero",
        AsmKind::Shape => b"Shape",
        AsmKind::UnknownOp => b"UnknownOp",
        AsmKind::Operands => b"Operands",
        AsmKind::TwoImmediates => b"TwoImmediates",
        AsmKind::TwoReads => b"TwoReads",
        AsmKind::Label => b"Label",
        AsmKind::Range => b"Range",
        AsmKind::Memory => b"",
    }
}

/// Writes the line of a text's fault.
pub(crate) fn put_asm_line<K: Sink>(fault: AsmFault, sink: &mut K) -> Result<(), SinkFailed>
    ensures { Prints (K.shown sink.old) (K.shown sink.new) (asm_line fault) result }
{
    let pieces = [
        Piece::Text(b"refused asm "),
        Piece::Text(asm_kind_name(fault.kind)),
        Piece::Text(b" at line "),
        Piece::Decimal(u64::from(fault.line)),
        Piece::Text(b" column "),
        Piece::Decimal(u64::from(fault.column)),
        Piece::Text(b"\n"),
    ];
    put_all(&pieces, sink)
}

/// Writes the line of a kind of a job's fault.
fn put_kind_line<K: Sink>(kind: &[u8], line: u32, sink: &mut K) -> Result<(), SinkFailed>
    ensures { Prints (K.shown sink.old) (K.shown sink.new) (kind_line kind.now line) result }
{
    let pieces = [
        Piece::Text(b"refused job "),
        Piece::Text(kind),
        Piece::Text(b" at line "),
        Piece::Decimal(u64::from(line)),
        Piece::Text(b"\n"),
    ];
    put_all(&pieces, sink)
}

/// Writes the line of a fault of a job's line; of other faults there is none.
#[tactic(auto, using(qpu_io::proofs::Outputs::appended_none))]
pub(crate) fn put_job_line<K: Sink>(fault: JobFault, sink: &mut K) -> Result<(), SinkFailed>
    ensures { Prints (K.shown sink.old) (K.shown sink.new) (job_line fault) result }
{
    match fault {
        JobFault::Line(line) => put_kind_line(b"Line", line, sink),
        JobFault::Size(line) => put_kind_line(b"Size", line, sink),
        JobFault::Limit(line) => put_kind_line(b"Limit", line, sink),
        JobFault::Twice(line) => put_kind_line(b"Twice", line, sink),
        JobFault::Processor(line) => put_kind_line(b"Processor", line, sink),
        JobFault::NoProgram(line) => put_kind_line(b"NoProgram", line, sink),
        JobFault::Place(line) => put_kind_line(b"Place", line, sink),
        JobFault::Asm(_) => Ok(()),
        JobFault::Check { .. } => Ok(()),
        JobFault::Memory => Ok(()),
    }
}

/// The name of a word's fault.
fn word_fault_name(fault: WordFault) -> &'static [u8]
    ensures { result.now ≡ word_fault_name fault }
{
    match fault {
        WordFault::Signal => b"Signal",
        WordFault::FloatOp => b"FloatOp",
        WordFault::ReservedOp => b"ReservedOp",
        WordFault::ReadAddress => b"ReadAddress",
        WordFault::WriteAddress => b"WriteAddress",
        WordFault::Packing => b"Packing",
        WordFault::BranchCond => b"BranchCond",
        WordFault::LoadKind => b"LoadKind",
        WordFault::Rotation => b"Rotation",
        WordFault::SemaphoreTarget => b"SemaphoreTarget",
        WordFault::NoSource => b"NoSource",
    }
}

/// Writes the line of a word outside the profile, with a word before the program's name.
fn put_word_line<'a, K: Sink>(
    within: &'a [u8],
    name: &'a [u8],
    at: u32,
    fault: WordFault,
    sink: &mut K,
) -> Result<(), SinkFailed>
    ensures { Prints (K.shown sink.old) (K.shown sink.new) (hazard_line within.now name.now (CheckFault.Word at fault)) result }
{
    let pieces = [
        Piece::Text(b"refused word "),
        Piece::Text(word_fault_name(fault)),
        Piece::Text(within),
        Piece::Text(name),
        Piece::Text(b" at "),
        Piece::Decimal(u64::from(at)),
        Piece::Text(b"\n"),
    ];
    put_all(&pieces, sink)
}

/// Writes the line of a broken rule, with a word before the program's name.
fn put_rule_line<'a, K: Sink>(
    within: &'a [u8],
    name: &'a [u8],
    rule: u32,
    at: u32,
    before: u32,
    sink: &mut K,
) -> Result<(), SinkFailed>
    ensures { Prints (K.shown sink.old) (K.shown sink.new) (hazard_line within.now name.now (CheckFault.Hazard rule at before)) result }
{
    let pieces = [
        Piece::Text(b"refused hazard H"),
        Piece::Decimal(u64::from(rule)),
        Piece::Text(within),
        Piece::Text(name),
        Piece::Text(b" at "),
        Piece::Decimal(u64::from(at)),
        Piece::Text(b" after "),
        Piece::Decimal(u64::from(before)),
        Piece::Text(b"\n"),
    ];
    put_all(&pieces, sink)
}

/// Writes the line of what the checker refuses, with a word before the program's name; of want of
/// memory there is none.
#[tactic(auto, using(qpu_io::proofs::Outputs::appended_none))]
pub(crate) fn put_hazard_line<'a, K: Sink>(
    within: &'a [u8],
    name: &'a [u8],
    fault: CheckFault,
    sink: &mut K,
) -> Result<(), SinkFailed>
    ensures { Prints (K.shown sink.old) (K.shown sink.new) (hazard_line within.now name.now fault) result }
{
    match fault {
        CheckFault::Word(at, fault) => put_word_line(within, name, at, fault, sink),
        CheckFault::Hazard { rule, at, before } => {
            put_rule_line(within, name, rule, at, before, sink)
        }
        CheckFault::Memory => Ok(()),
    }
}

/// Writes the line of a record's fault.
#[tactic(auto, using(qpu_io::proofs::Outputs::appended_none))]
pub(crate) fn put_record_line<K: Sink>(fault: RecordFault, sink: &mut K) -> Result<(), SinkFailed>
    ensures { Prints (K.shown sink.old) (K.shown sink.new) (record_line fault) result }
{
    match fault {
        RecordFault::Version => write_all_of(sink, b"refused record version\n"),
        RecordFault::Line(line) => put_numbered(b"refused record line ", u64::from(line), sink),
        RecordFault::Number(line) => {
            put_numbered(b"refused record number at line ", u64::from(line), sink)
        }
    }
}

/// Writes the line of a step that isn't enabled.
fn put_step_line<K: Sink>(item: u64, step: u64, sink: &mut K) -> Result<(), SinkFailed>
    ensures { Prints (K.shown sink.old) (K.shown sink.new) (schedule_line (ReplayFault.NotEnabled item step)) result }
{
    let pieces = [
        Piece::Text(b"refused record item "),
        Piece::Decimal(item),
        Piece::Text(b" step "),
        Piece::Decimal(step),
        Piece::Text(b"\n"),
    ];
    put_all(&pieces, sink)
}

/// Writes the line of a schedule that isn't a complete permitted one.
pub(crate) fn put_schedule_line<K: Sink>(fault: ReplayFault, sink: &mut K) -> Result<(), SinkFailed>
    ensures { Prints (K.shown sink.old) (K.shown sink.new) (schedule_line fault) result }
{
    match fault {
        ReplayFault::NotEnabled { item, step } => put_step_line(item, step, sink),
        ReplayFault::NotFinished => write_all_of(sink, b"refused record not finished\n"),
    }
}
