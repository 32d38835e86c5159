//! What a record has.

use crate::items::Items;

/// Bytes of the longest text with a record.
pub const MOST_TEXT: usize = 268_435_456;

/// How a record counts moves of transfers (this project's own).
#[derive(Clone, Copy, Debug, PartialEq, Eq)]
pub enum Version {
    /// An item of loads or stores counts whole transfers.
    First,
    /// An item of loads or stores counts moves of one row. Records are written so.
    Second,
}

/// What a text with a record at its front has, as parts of that text.
#[derive(Drop)]
pub struct RecordParts<'a> {
    /// How its items count moves of transfers.
    pub version: Version,
    /// The job's text.
    pub job: &'a str,
    /// The items of the schedule, neighbours of one actor put together.
    pub items: Items<'a>,
    /// What stands behind the line `endrecord`.
    pub rest: &'a str,
    /// The number of the line with which that begins, from 1.
    pub rest_line: u32,
}
