//! How many words a program has, and what is said of it.
ghost use Rattle.std.specs.Prelude.{◌≡◌};
ghost use Rattle.qpu_io.specs.Output.{Prints};
ghost use Rattle.qpu_tool.specs.Counted.{count_line};

use qpu_io::{Piece, Sink, SinkFailed, put_all};
use std::marker::Model;

/// What is said of a program, and how many words it has.
#[derive(Debug, Drop)]
pub struct Counted {
    said: &'static str,
    words: usize,
}

impl Model for Counted {
    ghost use Rattle.qpu_tool.specs.Counted.{Count};

    ghost Value = { Count };

    ghost view = { λ counted. record { said = counted.said.now; words = counted.words } };
}

impl Counted {
    /// This is said of a program of so many words.
    pub(crate) fn new(said: &'static str, words: usize) -> Self
        ensures { result ≡ record { said = said.now; words = words } }
    {
        Counted { said, words }
    }

    /// Writes the line.
    pub(crate) fn put<K: Sink>(&self, sink: &mut K) -> Result<(), SinkFailed>
        ensures { Prints (K.shown sink.old) (K.shown sink.new) (count_line self.now) result }
    {
        let pieces = [
            Piece::Text(self.said.as_bytes()),
            Piece::Text(b" "),
            Piece::Decimal(self.words as u64),
            Piece::Text(b" words\n"),
        ];
        put_all(&pieces, sink)
    }
}
