//! A sink in memory that grows with what is written to it.
ghost use Rattle.std.specs.Prelude.{◌≡◌, [], IfOk, OnErr};
ghost use Rattle.qpu_io.specs.Output.{Writes, WriteFails};
ghost use Rattle.qpu_tool.specs.Holding.{held_shown};

use qpu_io::{Sink, SinkFailed};
use std::alloc::Global;
use std::marker::Model;

/// A sink that holds what is written to it. A write fails, and counts a fault, where memory is wanting.
#[derive(Drop)]
pub(crate) struct HoldingSink {
    bytes: Vec<u8>,
    faults: u64,
}

impl Model for HoldingSink {
    ghost use Rattle.qpu_tool.specs.Holding.{Held};

    ghost Value = { Held };

    ghost view = { λ s. record { bytes = s.bytes.items; faults = s.faults } };
}

impl HoldingSink {
    /// A sink that holds nothing.
    pub(crate) fn new(alloc: Global) -> Self
        ensures { result ≡ record { bytes = []; faults = 0 } }
    {
        HoldingSink {
            bytes: Vec::new(alloc),
            faults: 0,
        }
    }

    /// The bytes held.
    pub(crate) fn bytes(&self) -> &[u8]
        ensures { result.now ≡ self.now.bytes }
    {
        self.bytes.as_slice()
    }
}

impl Sink for HoldingSink {
    ghost shown = { held_shown };

    /// Appends all bytes.
    fn write(&mut self, bytes: &[u8]) -> Result<usize, SinkFailed>
        ensures ok { IfOk result (λ n. Writes (held_shown self.old) (held_shown self.new) bytes.now n) }
        ensures err { OnErr result (WriteFails (held_shown self.old) (held_shown self.new)) }
    {
        if self.bytes.extend_from_slice(bytes).is_err() {
            self.faults = self.faults.saturating_add(1);
            return Err(SinkFailed);
        }
        Ok(bytes.len())
    }
}
