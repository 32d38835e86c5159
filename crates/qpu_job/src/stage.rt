//! How far a job's text is read, of the lines that stand in order.

/// The last of the lines in order that stands above.
#[derive(Clone, Copy, Debug, PartialEq, Eq)]
pub(crate) enum Stage {
    /// None of them.
    Nothing,
    /// `qpujob 1`.
    Opened,
    /// `memory`.
    Sized,
    /// `limit`.
    Limited,
}
