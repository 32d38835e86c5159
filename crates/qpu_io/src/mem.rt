//! A source and a sink in memory that fail at listed calls, to show what a program does then.
//!
//! Calls are numbered from 0. Their number and the count of faults stand at the last value of 64
//! bits.

ghost use Rattle.std.specs.Prelude.{◌≡◌, ◌↔◌, ◌⊎◌, ◌-◌, ◌<◌, ◌++◌, [], length, min, max, take, Contains, IfOk, OnErr, OnOk, IsErr};
ghost use Rattle.qpu_io.specs.Input.{Reads, ReadFails};
ghost use Rattle.qpu_io.specs.Output.{Writes, WriteFails};
ghost use Rattle.qpu_io.specs.Stores.{stock_shown, stock_read, stock_failed, store_shown, store_written, store_failed};

use crate::plain::{PlainSink, PlainSource};
use crate::stream::{Sink, SinkFailed, Source, SourceFailed};
use qpu_word::NoMemory;
use std::alloc::Global;
use std::marker::Model;

/// A source in memory that fails exactly at its listed calls. It tells the bytes left.
#[derive(Drop)]
pub struct MemSource {
    source: PlainSource,
    fails: Vec<u64>,
    calls: u64,
    faults: u64,
}

impl Model for MemSource {
    ghost use Rattle.qpu_io.specs.Stores.{Stock};

    ghost Value = { Stock };

    ghost view = { λ s. record {
      left = s.source;
      fails = s.fails.items;
      calls = s.calls;
      faults = s.faults;
    } };
}

impl MemSource {
    /// A source with these bytes left that fails at the calls that `fails` lists.
    pub fn new(alloc: Global, bytes: Vec<u8>, fails: Vec<u64>) -> Self
        ensures { result ≡ record {
          left = bytes.items;
          fails = fails.items;
          calls = 0;
          faults = 0;
        } }
    {
        MemSource {
            source: PlainSource::new(alloc, bytes),
            fails,
            calls: 0,
            faults: 0,
        }
    }
}

impl Source for MemSource {
    ghost shown = { stock_shown };

    /// Reads as many of the bytes left as fit, or fails at a listed call.
    fn read(&mut self, buf: &mut [u8]) -> Result<usize, SourceFailed>
        ensures ok { IfOk result (λ n.
            Reads (stock_shown self.old) (stock_shown self.new) buf.old buf.new n) }
        ensures err { OnErr result (ReadFails (stock_shown self.old) (stock_shown self.new)) }
        ensures fails { IsErr result ↔ Contains self.old.fails self.old.calls }
        ensures count { IfOk result (λ n. n ≡ min (length buf.old) (length self.old.left)) }
        ensures taken { IfOk result (λ n. self.new ≡ stock_read self.old n) }
        ensures refused { OnErr result (self.new ≡ stock_failed self.old) }
    {
        let call = self.calls;
        self.calls = call.saturating_add(1);
        if self.fails.contains(&call) {
            self.faults = self.faults.saturating_add(1);
            return Err(SourceFailed);
        }
        self.source.read(buf)
    }
}

/// A sink in memory that fails at its listed calls, and where there are bytes and no room. It tells
/// the bytes held.
#[derive(Drop)]
pub struct MemSink {
    sink: PlainSink,
    fails: Vec<u64>,
    calls: u64,
}

impl Model for MemSink {
    ghost use Rattle.qpu_io.specs.Stores.{Store};

    ghost Value = { Store };

    ghost view = { λ s. record {
      bytes = s.sink.bytes;
      spare = s.sink.spare;
      faults = s.sink.faults;
      fails = s.fails.items;
      calls = s.calls;
    } };
}

impl MemSink {
    /// A sink that holds nothing, has room for nothing, and fails at the calls that `fails` lists.
    pub fn new(alloc: Global, fails: Vec<u64>) -> Self
        ensures { result ≡ record {
          bytes = [];
          spare = 0;
          faults = 0;
          fails = fails.items;
          calls = 0;
        } }
    {
        MemSink {
            sink: PlainSink::new(alloc),
            fails,
            calls: 0,
        }
    }

    /// Makes room for at least `n` more bytes.
    pub fn reserve(&mut self, n: usize) -> Result<(), NoMemory>
        ensures ok { OnOk result (self.new ≡ record self.old { spare = max self.old.spare n }) }
        ensures err { OnErr result (self.new ≡ self.old) }
    {
        self.sink.reserve(n)
    }

    /// The bytes held.
    pub fn bytes(&self) -> &[u8]
        ensures { result.now ≡ self.now.bytes }
    {
        self.sink.bytes()
    }
}

impl Sink for MemSink {
    ghost shown = { store_shown };

    /// Appends as many bytes as there is room for, or fails and counts a fault.
    fn write(&mut self, bytes: &[u8]) -> Result<usize, SinkFailed>
        ensures ok { IfOk result (λ n.
            Writes (store_shown self.old) (store_shown self.new) bytes.now n) }
        ensures err { OnErr result (WriteFails (store_shown self.old) (store_shown self.new)) }
        ensures fails { IsErr result ↔ (Contains self.old.fails self.old.calls
            ⊎ ((0 < length bytes.now) × (self.old.spare ≡ 0))) }
        ensures count { IfOk result (λ n. n ≡ min (length bytes.now) self.old.spare) }
        ensures stored { IfOk result (λ n. self.new ≡ store_written self.old bytes.now n) }
        ensures refused { OnErr result (self.new ≡ store_failed self.old) }
    {
        let call = self.calls;
        self.calls = call.saturating_add(1);
        if self.fails.contains(&call) {
            return Err(self.sink.fail());
        }
        self.sink.write(bytes)
    }
}
