/// Why a word is outside the profile, in the order in which the faults are tried (this project's
/// own).
#[derive(Clone, Copy, Debug, PartialEq, Eq)]
pub enum WordFault {
    /// The signal is none of the profile's.
    Signal,
    /// An operation on floating numbers.
    FloatOp,
    /// An operation that the manual reserves.
    ReservedOp,
    /// A read address that has no name.
    ReadAddress,
    /// A write address that has no name, or that a branch can't link to.
    WriteAddress,
    /// A packing that the word's units can't do.
    Packing,
    /// A branch condition that the manual reserves.
    BranchCond,
    /// A load immediate of no kind.
    LoadKind,
    /// A rotation of an operand that can't be rotated.
    Rotation,
    /// A semaphore word that writes.
    SemaphoreTarget,
    /// An operand from a read address that reads nothing.
    NoSource,
}

/// Why a value written to a setup register is refused.
#[derive(Clone, Copy, Debug, PartialEq, Eq)]
pub enum SetupFault {
    /// A vector setup whose elements aren't 8, 16 or 32 bits wide.
    Size,
    /// A setup of no kind.
    Kind,
    /// A store whose width is the reserved one.
    Width,
    /// A store stride in block mode.
    Block,
}

/// Why a processor stopped at a word.
#[derive(Clone, Copy, Debug, PartialEq, Eq)]
pub enum FaultKind {
    /// The uniforms address lies outside memory.
    Uniform,
    /// An access that no setup was given for.
    NoSetup,
    /// A third read setup while two are unfinished.
    SetupsFull,
    /// A value that a setup register refuses.
    Setup(SetupFault),
    /// A transfer that doesn't fit the VPM or memory.
    Transfer,
    /// A look-up of a word outside memory.
    LookUp,
    /// A register branch to a place that is no link point.
    Branch,
}
