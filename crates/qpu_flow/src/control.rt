//! Control with its choices made: where it stands, and what is in progress there.

/// Where a taken branch goes.
#[derive(Clone, Copy, Debug, PartialEq, Eq)]
pub enum Target {
    /// To this byte address.
    Byte(u32),
    /// To any link point.
    AnyLink,
}

/// What is in progress after a branch or program end.
#[derive(Clone, Copy, Debug, PartialEq, Eq)]
pub enum Progress {
    /// Nothing: the next word follows.
    Straight,
    /// Program end, with so many slots still to execute.
    Ending(u32),
    /// A taken branch, with so many slots still to execute, and then its target.
    To(u32, Target),
}

/// Where control stands: the place of the word that comes next, counted in words from 0, and what
/// is in progress there.
#[derive(Clone, Copy, Debug, PartialEq, Eq)]
pub struct Control {
    /// The place of the word that comes next.
    pub place: u32,
    /// What is in progress there.
    pub rest: Progress,
}

/// Where control goes after a word.
#[derive(Clone, Copy, Debug, PartialEq, Eq)]
pub enum Next {
    /// To a word of the program.
    At(Control),
    /// To any link point.
    AnyLink,
    /// To no word: program end's second slot was executed.
    Ended,
    /// To an address that is no word of the program.
    Outside,
}
