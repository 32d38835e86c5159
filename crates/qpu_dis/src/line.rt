//! Lines of words.
ghost use Rattle.std.specs.Prelude.{◌≡◌, ◌++◌, codes, map};
ghost use Rattle.qpu_io.specs.Output.{Prints};
ghost use Rattle.qpu_dis.specs.Text.{line_text, plain_text, canonical_line, ended_line, disassembly};

use crate::branch::put_branch;
use crate::load::{put_load, put_semaphore};
use crate::units::put_units;
use qpu_io::{Piece, Sink, SinkFailed, put_all, write_all_of};
use qpu_line::Instruction;
use qpu_word::Word;

/// Writes the line of an instruction.
#[tactic(auto, unfolding(qpu_line::specs::Lines::line_bits))]
fn put_instruction<K: Sink>(instruction: &Instruction, sink: &mut K) -> Result<(), SinkFailed>
    ensures { Prints (K.shown sink.old) (K.shown sink.new) (line_text instruction.now) result }
{
    match instruction {
        Instruction::Both(units) => put_units(units, sink),
        Instruction::Load(load) => put_load(load, sink),
        Instruction::Semaphore(semaphore) => put_semaphore(*semaphore, sink),
        Instruction::Branch(branch) => put_branch(branch, sink),
    }
}

/// Writes a word as it stands.
fn put_word<K: Sink>(word: Word, sink: &mut K) -> Result<(), SinkFailed>
    ensures { Prints (K.shown sink.old) (K.shown sink.new) (plain_text word.0) result }
{
    put_all(
        &[Piece::Text(b".word 0x"), Piece::Instruction(word.0)],
        sink,
    )
}

/// Writes the line of a canonical word without its end, and `.word 0x` with sixteen lower-case digits
/// exactly where the word isn't canonical. The one error is the sink's: then a front of the line was
/// written. It takes no memory. The lines are this project's own.
#[tactic(auto, unfolding(crate::specs::Text::canonical_line))]
pub fn line_of<K: Sink>(word: Word, sink: &mut K) -> Result<(), SinkFailed>
    ensures { Prints (K.shown sink.old) (K.shown sink.new) (canonical_line word.0) result }
{
    match Instruction::of(word) {
        Some(instruction) => put_instruction(&instruction, sink),
        None => put_word(word, sink),
    }
}

/// Writes the line of a word with its end.
#[tactic(auto, using(crate::proofs::TextLemmas::texts))]
fn put_line<K: Sink>(word: Word, sink: &mut K) -> Result<(), SinkFailed>
    ensures { Prints (K.shown sink.old) (K.shown sink.new) (ended_line word.0) result }
{
    line_of(word, sink)?;
    write_all_of(sink, b"\n")
}

/// Writes the lines of words in their order, each with a line feed. The one error is the sink's: then
/// a front of the text was written. It takes no memory. The text is this project's own.
#[tactic(auto, unfolding(crate::specs::Text::disassembly))]
pub fn disassemble<K: Sink>(words: &[Word], sink: &mut K) -> Result<(), SinkFailed>
    ensures { Prints (K.shown sink.old) (K.shown sink.new) (disassembly (map (λ word. word.0) words.now)) result }
{
    for word in words {
        put_line(*word, sink)?;
    }
    Ok(())
}
