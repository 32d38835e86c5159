use crate::cause::Cause;
use qpu_word::FaultKind;

/// What became of a shared instruction.
#[derive(Clone, Copy, Debug, PartialEq, Eq)]
pub enum Did {
    /// It was done whole.
    Stepped,
    /// It awaits, and nothing changed.
    Awaits(Cause),
    /// It faulted, and the processor's halt alone changed.
    Faulted(FaultKind),
}
