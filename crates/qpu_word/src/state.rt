use crate::fault::FaultKind;

/// The flags of all lanes as masks, lane i at bit i; none where a mask is undefined.
#[derive(Clone, Copy, Debug, PartialEq, Eq)]
pub struct Flags {
    /// Z and N, which are set together.
    pub zn: Option<(u32, u32)>,
    /// C.
    pub c: Option<u32>,
}

/// What is in progress after a branch or program end.
#[derive(Clone, Copy, Debug, PartialEq, Eq)]
pub enum Rest {
    /// Nothing: the next word follows.
    Straight,
    /// Program end, with so many slots left.
    Ending(u32),
    /// A taken branch, with so many slots left, and then the word at this place.
    To(u32, u32),
}

/// Whether a processor still goes on.
#[derive(Clone, Copy, Debug, PartialEq, Eq)]
pub enum Halt {
    /// It goes on.
    Going,
    /// It executed program end and its two slots.
    Ended,
    /// It faulted at the word of this place.
    Faulted(FaultKind, u32),
}
