//! Standard input and output. They tell no bytes, and are what this crate trusts.

ghost use Rattle.std.specs.Prelude.{◌≡◌, ℕ, IfOk, OnErr};
ghost use Rattle.qpu_io.specs.Input.{Reads, ReadFails};
ghost use Rattle.qpu_io.specs.Output.{Writes, WriteFails};

use crate::filling::fill;
use crate::stream::{Sink, SinkFailed, Source, SourceFailed};
use std::io::{Read, Stdin, Stdout, Write};
use std::marker::Model;

/// How many bytes at most are taken from standard input at once.
const AT_ONCE: usize = 65536;

/// Standard input. Its count of faults stands at the last value of 64 bits.
#[derive(Drop)]
pub struct StdSource {
    input: Stdin,
    faults: u64,
}

impl Model for StdSource {
    ghost Value = { ℕ };

    ghost view = { λ s. s.faults };
}

impl StdSource {
    /// Standard input with no fault yet.
    pub fn new(input: Stdin) -> Self
        ensures { result ≡ 0 }
    {
        StdSource { input, faults: 0 }
    }
}

impl Source for StdSource {
    ghost use Rattle.qpu_io.specs.Input.{input_untold};

    ghost shown = { input_untold };

    /// Reads what standard input has, or counts its failure.
    fn read(&mut self, buf: &mut [u8]) -> Result<usize, SourceFailed> {
        let mut piece = [0; AT_ONCE];
        let wanted = buf.len().min(AT_ONCE);
        match self.input.read(&mut piece[..wanted]) {
            Ok(count) => Ok(fill(buf, &piece[..count])),
            Err(_) => {
                self.faults = self.faults.saturating_add(1);
                Err(SourceFailed)
            }
        }
    }
}

/// Standard output, written with no buffer of its own. Its count of faults stands at the last value
/// of 64 bits.
#[derive(Drop)]
pub struct StdSink {
    output: Stdout,
    faults: u64,
}

impl Model for StdSink {
    ghost Value = { ℕ };

    ghost view = { λ s. s.faults };
}

impl StdSink {
    /// Standard output with no fault yet.
    pub fn new(output: Stdout) -> Self
        ensures { result ≡ 0 }
    {
        StdSink { output, faults: 0 }
    }
}

impl Sink for StdSink {
    ghost use Rattle.qpu_io.specs.Output.{output_untold};

    ghost shown = { output_untold };

    /// Writes to standard output, or counts its failure; taking nothing of a piece is one.
    fn write(&mut self, bytes: &[u8]) -> Result<usize, SinkFailed> {
        match self.output.write(bytes) {
            Ok(count) if count > 0 || bytes.is_empty() => Ok(count),
            _ => {
                self.faults = self.faults.saturating_add(1);
                Err(SinkFailed)
            }
        }
    }
}
