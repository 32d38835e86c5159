//! Writing the whole of some bytes.

ghost use Rattle.qpu_io.specs.Output.{Prints};

use crate::stream::{Sink, SinkFailed};

/// Writes all the bytes, in as many writes as the sink needs.
pub fn write_all_of<K: Sink>(sink: &mut K, bytes: &[u8]) -> Result<(), SinkFailed>
    ensures { Prints (K.shown sink.old) (K.shown sink.new) bytes.now result }
{
    let mut at = 0;
    while at < bytes.len() {
        at += sink.write(&bytes[at..])?;
    }
    Ok(())
}
