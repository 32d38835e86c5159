//! Sources and sinks of bytes.

ghost use Rattle.std.specs.Prelude.{IfOk, OnErr};
ghost use Rattle.qpu_io.specs.Input.{Input, Reads, ReadFails};
ghost use Rattle.qpu_io.specs.Output.{Output, Writes, WriteFails};

/// A read failed: the source counted a fault, and no byte was taken.
#[derive(Clone, Copy, Debug, PartialEq, Eq)]
pub struct SourceFailed;

/// A write failed: the sink counted a fault, and nothing was appended.
#[derive(Clone, Copy, Debug, PartialEq, Eq)]
pub struct SinkFailed;

/// Where bytes come from.
pub trait Source {
    ghost shown: { Self → Input };

    /// Reads the next bytes left into the front of `buf` and says how many; 0 for a buffer that
    /// isn't empty is the end of input.
    fn read(&mut self, buf: &mut [u8]) -> Result<usize, SourceFailed>
        ensures ok { IfOk result (λ n. Reads (shown self.old) (shown self.new) buf.old buf.new n) }
        ensures err { OnErr result (ReadFails (shown self.old) (shown self.new)) };
}

/// Where bytes go.
pub trait Sink {
    ghost shown: { Self → Output };

    /// Appends bytes from the front of `bytes` and says how many, at least one where there are any.
    fn write(&mut self, bytes: &[u8]) -> Result<usize, SinkFailed>
        ensures ok { IfOk result (λ n. Writes (shown self.old) (shown self.new) bytes.now n) }
        ensures err { OnErr result (WriteFails (shown self.old) (shown self.new)) };
}
