//! The trails that a search found, in the order in which it found them.
ghost use Rattle.std.specs.Prelude.{◌≡◌, ◌<◌, ◌^◌, ◌++◌, ◌∷◌, ◌⊎◌, [], length, OnOk, Contains, slice_index_or};

use crate::trail::Trail;
use indexmap::IndexSet;
use std::alloc::{AllocError, Global};
use std::marker::Model;

/// Trails, each once. Contracts see their list.
#[derive(Drop)]
pub(crate) struct Seen {
    trails: IndexSet<Trail>,
}

impl Model for Seen {
    ghost use Rattle.std.specs.Prelude.{List};
    ghost use Rattle.qpu_hazard.specs.declared.trail.Trail.{Trail};

    ghost Value = { List Trail };

    ghost view = { λ seen. seen.trails.keys };
}

impl Seen {
    /// No trail.
    pub(crate) fn new(alloc: Global) -> Seen
        ensures { result ≡ [] }
    {
        Seen {
            trails: IndexSet::new(alloc),
        }
    }

    /// How many trails there are.
    pub(crate) fn len(&self) -> usize
        ensures count { result ≡ length self.now }
        ensures small { result < 2 ^ 63 }
    {
        self.trails.len()
    }

    /// The trail at an index.
    pub(crate) fn at(&self, index: usize) -> Trail
        requires { index < length self.now }
        ensures { (d : Trail) → result ≡ slice_index_or self.now index d }
    {
        match self.trails.get_index(index) {
            Some(r) => *r,
            None => unreachable!(),
        }
    }

    /// Adds a trail, unless it is there.
    pub(crate) fn add(&mut self, r: Trail) -> Result<(), AllocError>
        ensures has { OnOk result (Contains self.new r) }
        ensures one { OnOk result ((self.new ≡ self.old) ⊎ (self.new ≡ self.old ++ r ∷ [])) }
    {
        self.trails.insert_full(r)?;
        Ok(())
    }
}
