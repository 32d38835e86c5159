//! A source and a sink in memory that fail at no call of choice.

ghost use Rattle.std.specs.Prelude.{◌≡◌, ◌↔◌, ◌+◌, ◌-◌, ◌<◌, ◌≤◌, ◌++◌, [], length, min, max, take, drop, List, ℕ, vec_len, vec_capacity, IfOk, OnErr, OnOk, IsOk, IsErr};
ghost use Rattle.qpu_io.specs.Faults.{Rose};
ghost use Rattle.qpu_io.specs.Input.{Reads};
ghost use Rattle.qpu_io.specs.Output.{Writes, WriteFails};
ghost use Rattle.qpu_io.specs.Stores.{plain_shown, shelf_shown, shelf_written, shelf_failed};

use crate::filling::fill;
use crate::stream::{Sink, SinkFailed, Source, SourceFailed};
use qpu_word::NoMemory;
use std::alloc::Global;
use std::marker::Model;

/// A source in memory that never fails. It tells the bytes left.
#[derive(Drop)]
pub struct PlainSource {
    bytes: Vec<u8>,
    at: usize,
}

impl Model for PlainSource {
    ghost Value = { List ℕ };

    ghost view = { λ s. drop s.at s.bytes.items };

    ghost invariant = { λ s. s.at ≤ vec_len s.bytes };
}

impl PlainSource {
    /// A source with these bytes left.
    pub fn new(_alloc: Global, bytes: Vec<u8>) -> Self
        ensures { result ≡ bytes.items }
    {
        PlainSource { bytes, at: 0 }
    }
}

impl Source for PlainSource {
    ghost shown = { plain_shown };

    /// Reads as many of the bytes left as fit.
    fn read(&mut self, buf: &mut [u8]) -> Result<usize, SourceFailed>
        ensures ok { IfOk result (λ n.
            Reads (plain_shown self.old) (plain_shown self.new) buf.old buf.new n) }
        ensures never_fails { IsOk result }
        ensures count { IfOk result (λ n. n ≡ min (length buf.old) (length self.old)) }
        ensures left { IfOk result (λ n. self.new ≡ drop n self.old) }
    {
        let count = fill(buf, &self.bytes[self.at..]);
        self.at += count;
        Ok(count)
    }
}

/// A sink in memory, with room for as many bytes as were reserved. It tells the bytes held.
#[derive(Drop)]
pub struct PlainSink {
    bytes: Vec<u8>,
    spare: usize,
    faults: u64,
}

impl Model for PlainSink {
    ghost use Rattle.std.specs.Prelude.{◌+◌, ◌≤◌, vec_len, vec_capacity};
    ghost use Rattle.qpu_io.specs.Stores.{Shelf};

    ghost Value = { Shelf };

    ghost view = { λ s. record { bytes = s.bytes.items; spare = s.spare; faults = s.faults } };

    ghost invariant = { λ s. vec_len s.bytes + s.spare ≤ vec_capacity s.bytes };
}

impl PlainSink {
    /// A sink that holds nothing and has room for nothing.
    pub fn new(alloc: Global) -> Self
        ensures { result ≡ record { bytes = []; spare = 0; faults = 0 } }
    {
        PlainSink {
            bytes: Vec::new(alloc),
            spare: 0,
            faults: 0,
        }
    }

    /// Makes room for at least `n` more bytes.
    pub fn reserve(&mut self, n: usize) -> Result<(), NoMemory>
        ensures ok { OnOk result (self.new ≡ record self.old { spare = max self.old.spare n }) }
        ensures err { OnErr result (self.new ≡ self.old) }
    {
        if self.spare < n {
            if self.bytes.reserve(n).is_err() {
                return Err(NoMemory);
            }
            self.spare = n;
        }
        Ok(())
    }

    /// The bytes held.
    pub fn bytes(&self) -> &[u8]
        ensures { result.now ≡ self.now.bytes }
    {
        self.bytes.as_slice()
    }

    /// Counts a fault. The count stands at the last value of 64 bits.
    pub(crate) fn fail(&mut self) -> SinkFailed
        ensures failed { self.new ≡ shelf_failed self.old }
        ensures rose { Rose self.old.faults self.new.faults }
    {
        self.faults = self.faults.saturating_add(1);
        SinkFailed
    }
}

impl Sink for PlainSink {
    ghost shown = { shelf_shown };

    /// Appends as many bytes as there is room for. It fails, and counts a fault, where there are
    /// bytes and no room.
    fn write(&mut self, bytes: &[u8]) -> Result<usize, SinkFailed>
        ensures ok { IfOk result (λ n.
            Writes (shelf_shown self.old) (shelf_shown self.new) bytes.now n) }
        ensures err { OnErr result (WriteFails (shelf_shown self.old) (shelf_shown self.new)) }
        ensures fails { IsErr result ↔ ((0 < length bytes.now) × (self.old.spare ≡ 0)) }
        ensures count { IfOk result (λ n. n ≡ min (length bytes.now) self.old.spare) }
        ensures stored { IfOk result (λ n. self.new ≡ shelf_written self.old bytes.now n) }
        ensures refused { OnErr result (self.new ≡ shelf_failed self.old) }
    {
        if self.spare == 0 && !bytes.is_empty() {
            return Err(self.fail());
        }
        let count = bytes.len().min(self.spare);
        if self.bytes.extend_from_slice(&bytes[..count]).is_err() {
            // The room was reserved.
            unreachable!()
        }
        self.spare -= count;
        Ok(count)
    }
}
