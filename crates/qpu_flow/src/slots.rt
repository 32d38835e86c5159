//! Slots in progress, and the successors that they leave.

/// The slots in progress after a branch or program end.
#[derive(Clone, Copy, Debug, PartialEq, Eq, Hash)]
pub struct Slots {
    /// The place of the branch or program end.
    pub place: u32,
    /// How many slots are still to execute: 0 directly after the last one.
    pub left: u32,
}

/// What may follow a word: the addresses that control asks for, whether words stand there or not.
#[derive(Clone, Copy, Debug, PartialEq, Eq)]
pub struct Successors {
    /// The place of the next word, where control may go on to it.
    pub ahead: Option<u32>,
    /// The byte address of a branch's target, where control may go there.
    pub jump: Option<u32>,
    /// Whether control may go to any link point.
    pub any_link: bool,
}
