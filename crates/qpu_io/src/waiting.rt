//! Bytes that wait in a buffer to be written on.

ghost use Rattle.std.specs.Prelude.{◌≡◌, ◌≤◌, ◌<◌, ◌++◌, [], length, take, drop, true};

use crate::filling::fill;
use std::marker::Model;

/// Bytes that a buffer has room for.
pub const ROOM: usize = 65_536;

/// Bytes that wait to be written on, at most `ROOM`. They are those of the buffer from `start` on, up
/// to `end`; where there is none, both are 0. Contracts see them as a list.
#[derive(Drop)]
pub(crate) struct Waiting {
    buffer: [u8; ROOM],
    start: usize,
    end: usize,
}

impl Model for Waiting {
    ghost use Rattle.std.specs.Prelude.{◌≡◌, ℕ, List, ◌≤◌, length, take, drop};

    ghost Value = { List ℕ };

    ghost view = { λ w. drop w.start (take w.end w.buffer) };

    ghost invariant = { λ w. (w.start ≤ w.end) × ((w.end ≤ length w.buffer) × (w.start ≡ w.end → w.end ≡ 0)) };
}

impl Waiting {
    /// A buffer in which nothing waits.
    pub(crate) fn new() -> Waiting
        ensures { result ≡ [] }
    {
        Waiting {
            buffer: [0; ROOM],
            start: 0,
            end: 0,
        }
    }

    /// The bytes that wait.
    pub(crate) fn bytes(&self) -> &[u8]
        ensures { result.now ≡ self.now }
    {
        &self.buffer[self.start..self.end]
    }

    /// Puts as many of the bytes as there is room for behind those that wait, and says how many; at
    /// least one, where there are any and nothing waits.
    pub(crate) fn put(&mut self, bytes: &[u8]) -> usize
        ensures within { result ≤ length bytes.now }
        ensures put { self.new ≡ self.old ++ take result bytes.now }
        ensures some { self.old ≡ [] → 0 < length bytes.now → 0 < result }
    {
        let count = fill(&mut self.buffer[self.end..], bytes);
        self.end += count;
        count
    }

    /// Takes bytes from the front of those that wait.
    pub(crate) fn take(&mut self, count: usize)
        requires { count ≤ length self.old }
        ensures { self.new ≡ drop count self.old }
    {
        let start = self.start + count;
        if start < self.end {
            self.start = start;
            return;
        }
        // Nothing waits: the whole buffer is there for what comes.
        self.start = 0;
        self.end = 0;
    }
}
