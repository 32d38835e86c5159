//! Why a text is no record.

/// Why a text is no record. Lines count from 1, in the whole text, and the first failing line is
/// told.
#[derive(Clone, Copy, Debug, PartialEq, Eq)]
pub enum RecordFault {
    /// The first line begins with `qpurecord ` and is neither `qpurecord 1` nor `qpurecord 2`.
    Version,
    /// The line isn't the one that has to stand there, or lacks its line feed, or tells a job of more
    /// bytes than follow; or the text ends early, and this is the line after the last.
    Line(u32),
    /// The line is an item, and one of its numbers is out of its range.
    Number(u32),
}
