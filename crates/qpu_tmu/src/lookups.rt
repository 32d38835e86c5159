ghost use Rattle.std.specs.Prelude.{◌≡◌, ◌<◌, ◌≤◌, length, is_some, option_map, IsSome};
ghost use Rattle.qpu_tmu.specs.Looks.{opening_lookups, queue_of, with_queue, oldest_words, next_look, with_look, with_words, after_taken};

use crate::queue::{LOOK_UPS, Queue};
use qpu_word::Lanes;
use std::marker::Model;

/// What both TMU units of one processor have outstanding. Contracts see two lists of look-ups, the
/// oldest first.
#[derive(Debug, Drop)]
pub struct Lookups {
    unit0: Queue,
    unit1: Queue,
}

impl Model for Lookups {
    ghost use Rattle.qpu_tmu.specs.Looks.{LookupsState};

    ghost Value = { LookupsState };

    ghost view = { λ lookups. record { looks0 = lookups.unit0; looks1 = lookups.unit1 } };
}

impl Lookups {
    /// Nothing outstanding in either unit.
    pub fn new() -> Lookups
        ensures { result ≡ opening_lookups }
    {
        Lookups {
            unit0: Queue::new(),
            unit1: Queue::new(),
        }
    }

    /// How many look-ups unit u, 0 or 1, has outstanding, fetched or not: at most four.
    pub fn outstanding(&self, u: u32) -> u32
        requires { u < 2 }
        ensures count { result ≡ length (queue_of self.now u) }
        ensures most { result ≤ LOOK_UPS }
    {
        self.queue(u).outstanding()
    }

    /// Puts a look-up of the words at sixteen indexes of memory behind the others of unit u, 0 or 1,
    /// which has fewer than four.
    pub fn issue(&mut self, u: u32, at: &Lanes)
        requires unit { u < 2 }
        requires room { length (queue_of self.old u) < LOOK_UPS }
        ensures { self.new ≡ with_queue self.old u (with_look at.now.v (queue_of self.old u)) }
    {
        if u == 0 {
            self.unit0.issue(at);
        } else {
            self.unit1.issue(at);
        }
    }

    /// The indexes of the words of the oldest look-up of unit u, 0 or 1, that isn't fetched; none
    /// exactly where all are.
    pub fn next(&self, u: u32) -> Option<Lanes>
        requires { u < 2 }
        ensures { option_map (λ at. at.v) result ≡ next_look (queue_of self.now u) }
    {
        self.queue(u).next()
    }

    /// Gives the oldest look-up of unit u, 0 or 1, that isn't fetched its sixteen words. There is
    /// such a one.
    pub fn fetched(&mut self, u: u32, words: &Lanes)
        requires unit { u < 2 }
        requires waiting { IsSome (next_look (queue_of self.old u)) }
        ensures { self.new ≡ with_queue self.old u (with_words words.now.v (queue_of self.old u)) }
    {
        if u == 0 {
            self.unit0.fetched(words);
        } else {
            self.unit1.fetched(words);
        }
    }

    /// Whether the oldest look-up of unit u, 0 or 1, is there and is fetched.
    pub fn ready(&self, u: u32) -> bool
        requires { u < 2 }
        ensures { result ≡ is_some (oldest_words (queue_of self.now u)) }
    {
        self.queue(u).ready()
    }

    /// The sixteen words of the oldest look-up of unit u, 0 or 1; none exactly where it isn't
    /// fetched or none is there.
    pub fn oldest(&self, u: u32) -> Option<Lanes>
        requires { u < 2 }
        ensures { option_map (λ words. words.v) result ≡ oldest_words (queue_of self.now u) }
    {
        self.queue(u).oldest()
    }

    /// Takes the oldest look-up of unit u, 0 or 1, out and gives its sixteen words. None exactly
    /// where it isn't fetched or none is there; then nothing changes.
    pub fn take(&mut self, u: u32) -> Option<Lanes>
        requires { u < 2 }
        ensures words { option_map (λ words. words.v) result ≡ oldest_words (queue_of self.old u) }
        ensures lookups { self.new ≡ with_queue self.old u (after_taken (queue_of self.old u)) }
    {
        if u == 0 {
            self.unit0.take()
        } else {
            self.unit1.take()
        }
    }

    /// Equal look-ups.
    pub fn copy(&self) -> Lookups
        ensures { result ≡ self.now }
    {
        Lookups {
            unit0: self.unit0.copy(),
            unit1: self.unit1.copy(),
        }
    }

    fn queue(&self, u: u32) -> &Queue
        requires { u < 2 }
        ensures { result.now ≡ queue_of self.now u }
    {
        if u == 0 { &self.unit0 } else { &self.unit1 }
    }
}
