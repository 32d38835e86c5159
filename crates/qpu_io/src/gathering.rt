//! A sink that gathers what it is given and hands it on in large pieces.

ghost use Rattle.std.specs.Prelude.{◌≡◌, [], OnOk, OnErr};
ghost use Rattle.qpu_io.specs.Gathered.{HandsOn, KeepsBack};

use crate::stream::{Sink, SinkFailed};
use crate::waiting::Waiting;
use std::marker::Model;

/// A sink that gathers up to 65,536 bytes and hands them on when there is no room for more, and when
/// it is asked to finish. Its buffer is there from the beginning, so it takes no memory. It shows
/// what its sink shows, with the bytes that wait behind; what still waits when it is dropped is lost.
#[derive(Drop)]
pub struct Gathering<K: Drop> {
    sink: K,
    waiting: Waiting,
}

impl<K: Drop> Model for Gathering<K> {
    ghost use Rattle.qpu_io.specs.Gathered.{Gathered};

    ghost Value = { Gathered K };

    ghost view = { λ g. record { sink = g.sink; waiting = g.waiting } };
}

impl<K: Sink + Drop> Gathering<K> {
    /// A sink that hands on to this one, and in which nothing waits.
    pub fn new(sink: K) -> Self
        ensures { result ≡ record { sink = sink; waiting = [] } }
    {
        Gathering {
            sink,
            waiting: Waiting::new(),
        }
    }

    /// The sink that it hands on to.
    pub fn sink(&self) -> &K
        ensures { result.now ≡ self.now.sink }
    {
        &self.sink
    }

    /// Hands on all bytes that wait, in as many writes as the sink needs. Where one fails, the bytes
    /// that it didn't take wait still.
    pub fn finish(&mut self) -> Result<(), SinkFailed>
        ensures ok { OnOk result (HandsOn K.shown self.old self.new) }
        ensures err { OnErr result (KeepsBack K.shown self.old self.new) }
    {
        while !self.waiting.bytes().is_empty() {
            let count = self.sink.write(self.waiting.bytes())?;
            self.waiting.take(count);
        }
        Ok(())
    }
}

impl<K: Sink + Drop> Sink for Gathering<K> {
    ghost use Rattle.qpu_io.specs.Gathered.{gathered_shown};

    ghost shown = { gathered_shown K.shown };

    /// Puts as many bytes as there is room for behind those that wait; where there is none, it hands
    /// those on first, and fails where that fails.
    fn write(&mut self, bytes: &[u8]) -> Result<usize, SinkFailed> {
        let count = self.waiting.put(bytes);
        if count > 0 {
            return Ok(count);
        }
        self.finish()?;
        Ok(self.waiting.put(bytes))
    }
}
