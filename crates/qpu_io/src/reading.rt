//! Reading to the end of input.

ghost use Rattle.std.specs.Prelude.{◌≡◌, ◌≤◌, IfOk, IsErrOf};
ghost use Rattle.qpu_io.specs.Input.{ReadsToEnd, ReadsPast, ReadsPart, ReadBreaks};

use crate::stream::{Source, SourceFailed};
use std::alloc::{AllocError, Global};

/// The greatest limit that a reading may have, in bytes.
pub const MOST_BYTES: u64 = 268_435_456;

/// How many bytes at most are read at once.
const AT_ONCE: usize = 65536;

/// Why an input wasn't read to its end.
#[derive(Clone, Copy, Debug, PartialEq, Eq)]
pub enum ReadAllError {
    /// A read failed, and the source counted a fault.
    Source,
    /// More bytes were read than the limit allows.
    TooLong,
    /// Memory ran out, after at most as many bytes as the limit allows.
    Memory,
}

/// Reads to the end of input, at most `limit` bytes, and gives them.
///
/// Where more come it stops, with up to 65,536 bytes more than `limit` taken. An error gives no
/// bytes back; those that were taken are lost.
pub fn read_all<S: Source>(
    alloc: Global,
    source: &mut S,
    limit: u64,
) -> Result<Vec<u8>, ReadAllError>
    requires { limit ≤ MOST_BYTES }
    ensures whole { IfOk result (λ bytes.
        ReadsToEnd (S.shown source.old) (S.shown source.new) limit bytes.items) }
    ensures too_long { IsErrOf result ReadAllError.TooLong
        → ReadsPast (S.shown source.old) (S.shown source.new) limit }
    ensures broken { IsErrOf result ReadAllError.Source
        → ReadBreaks (S.shown source.old) (S.shown source.new) limit }
    ensures memory { IsErrOf result ReadAllError.Memory
        → ReadsPart (S.shown source.old) (S.shown source.new) limit }
{
    let mut bytes = Vec::new(alloc);
    let mut buffer = [0; AT_ONCE];
    loop {
        let count = source.read(&mut buffer)?;
        if count == 0 {
            return Ok(bytes);
        }
        if bytes.len() as u64 + count as u64 > limit {
            return Err(ReadAllError::TooLong);
        }
        bytes.extend_from_slice(&buffer[..count])?;
    }
}

impl From<SourceFailed> for ReadAllError {
    ghost use Rattle.qpu_io.specs.declared.reading.ReadAllError.{ReadAllError};

    ghost from_gives = { λ _ e. e ≡ ReadAllError.Source };

    fn from(_failed: SourceFailed) -> Self {
        ReadAllError::Source
    }
}

impl From<AllocError> for ReadAllError {
    ghost use Rattle.qpu_io.specs.declared.reading.ReadAllError.{ReadAllError};

    ghost from_gives = { λ _ e. e ≡ ReadAllError.Memory };

    fn from(_failed: AllocError) -> Self {
        ReadAllError::Memory
    }
}
