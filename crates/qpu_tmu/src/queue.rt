ghost use Rattle.std.specs.Prelude.{◌≡◌, ◌<◌, ◌≤◌, [], length, map, position, is_none, is_some, option_map, IsSome};
ghost use Rattle.qpu_tmu.specs.Looks.{is_waiting, oldest_words, next_look, with_look, with_words, after_taken};

use crate::look_up::LookUp;
use arrayvec::ArrayVec;
use qpu_word::{Lanes, code};
use std::marker::Model;

/// How many look-ups a unit may have outstanding, fetched or not.
pub const LOOK_UPS: usize = code::LOOK_UPS as usize;

/// The look-ups of one unit, seen as a list, the oldest first.
#[derive(Debug, Drop)]
pub(crate) struct Queue {
    looks: ArrayVec<LookUp, LOOK_UPS>,
}

impl Model for Queue {
    ghost use Rattle.std.specs.Prelude.{List};
    ghost use Rattle.qpu_tmu.specs.declared.look_up.LookUp.{LookUp};

    ghost Value = { List LookUp };

    ghost view = { λ queue. queue.looks.items };
}

impl Queue {
    /// Nothing outstanding.
    pub(crate) fn new() -> Queue
        ensures { result ≡ [] }
    {
        Queue {
            looks: ArrayVec::new(),
        }
    }

    /// How many look-ups are outstanding.
    pub(crate) fn outstanding(&self) -> u32
        ensures count { result ≡ length self.now }
        ensures most { result ≤ LOOK_UPS }
    {
        self.looks.len() as u32
    }

    /// Puts a look-up behind the others; there is room for it.
    pub(crate) fn issue(&mut self, at: &Lanes)
        requires { length self.old < LOOK_UPS }
        ensures { self.new ≡ with_look at.now.v self.old }
    {
        self.looks.push(LookUp {
            at: at.v,
            words: None,
        });
    }

    /// The position of the oldest look-up that isn't fetched.
    fn waiting(&self) -> Option<usize>
        ensures { result ≡ position is_waiting self.now }
    {
        self.looks.iter().position(|look| look.words.is_none())
    }

    /// The places of the oldest look-up that isn't fetched; none exactly where all are.
    pub(crate) fn next(&self) -> Option<Lanes>
        ensures { option_map (λ at. at.v) result ≡ next_look self.now }
    {
        let look = self.looks.iter().find(|look| look.words.is_none())?;
        Some(Lanes { v: look.at })
    }

    /// Gives the oldest look-up that isn't fetched its words; there is one.
    pub(crate) fn fetched(&mut self, words: &Lanes)
        requires { IsSome (next_look self.old) }
        ensures { self.new ≡ with_words words.now.v self.old }
    {
        if let Some(waiting) = self.waiting() {
            self.looks[waiting].words = Some(words.v);
        }
    }

    /// Whether the oldest look-up is there and is fetched.
    pub(crate) fn ready(&self) -> bool
        ensures { result ≡ is_some (oldest_words self.now) }
    {
        self.looks.first().is_some_and(|look| look.words.is_some())
    }

    /// The words of the oldest look-up, where it is there and is fetched.
    pub(crate) fn oldest(&self) -> Option<Lanes>
        ensures { option_map (λ words. words.v) result ≡ oldest_words self.now }
    {
        let look = self.looks.first()?;
        Some(Lanes { v: look.words? })
    }

    /// Takes the oldest look-up out where it is fetched, and gives its words; else nothing changes.
    pub(crate) fn take(&mut self) -> Option<Lanes>
        ensures words { option_map (λ words. words.v) result ≡ oldest_words self.old }
        ensures queue { self.new ≡ after_taken self.old }
    {
        let words = self.looks.first()?.words?;
        self.looks.remove(0);
        Some(Lanes { v: words })
    }

    /// An equal queue.
    pub(crate) fn copy(&self) -> Queue
        ensures { result ≡ self.now }
    {
        match ArrayVec::try_from(self.looks.as_slice()) {
            Ok(looks) => Queue { looks },
            Err(_) => unreachable!(),
        }
    }
}
