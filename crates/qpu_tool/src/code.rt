//! The words of a program, as an answer has them.
ghost use Rattle.std.specs.Prelude.{◌≡◌, ◌≤◌};
ghost use Rattle.qpu_word.specs.Words.{numbers_of};
ghost use Rattle.qpu_io.specs.Output.{Prints};
ghost use Rattle.qpu_dis.specs.Text.{disassembly};
ghost use Rattle.qpu_tool.specs.Code.{word_line, words_text};

use qpu_dis::disassemble;
use qpu_io::{Piece, Sink, SinkFailed, put_all};
use qpu_word::Word;
use std::marker::Model;

/// The words of a program, in their order.
#[derive(Debug, Drop)]
pub struct Code {
    words: Vec<Word>,
}

impl Model for Code {
    ghost use Rattle.std.specs.Prelude.{ℕ, List};
    ghost use Rattle.qpu_word.specs.Words.{numbers_of};

    ghost Value = { List ℕ };

    ghost view = { λ code. numbers_of code.words.items };
}

impl Code {
    /// These words.
    pub(crate) fn new(words: Vec<Word>) -> Self
        ensures { result ≡ numbers_of words.items }
    {
        Code { words }
    }

    /// Writes a line for each word: `0x` and sixteen digits.
    pub(crate) fn put_words<K: Sink>(&self, sink: &mut K) -> Result<(), SinkFailed>
        ensures { Prints (K.shown sink.old) (K.shown sink.new) (words_text self.now) result }
    {
        put_words(&self.words, sink)
    }

    /// Writes the line of each word.
    #[tactic(auto, unfolding(qpu_word::specs::Words::numbers_of))]
    pub(crate) fn put_lines<K: Sink>(&self, sink: &mut K) -> Result<(), SinkFailed>
        ensures { Prints (K.shown sink.old) (K.shown sink.new) (disassembly self.now) result }
    {
        disassemble(&self.words, sink)
    }
}

/// Writes the line of a word.
fn put_word<K: Sink>(word: Word, sink: &mut K) -> Result<(), SinkFailed>
    ensures { Prints (K.shown sink.old) (K.shown sink.new) (word_line word.0) result }
{
    let pieces = [
        Piece::Text(b"0x"),
        Piece::Instruction(word.0),
        Piece::Text(b"\n"),
    ];
    put_all(&pieces, sink)
}

/// Writes the lines of words.
#[tactic(auto, unfolding(crate::specs::Code::words_text, qpu_word::specs::Words::numbers_of))]
fn put_words<K: Sink>(words: &[Word], sink: &mut K) -> Result<(), SinkFailed>
    ensures { Prints (K.shown sink.old) (K.shown sink.new) (words_text (numbers_of words.now)) result }
{
    for word in words {
        put_word(*word, sink)?;
    }
    Ok(())
}
