//! Runs of steps, with room for more.
ghost use Rattle.std.specs.Prelude.{◌≡◌, ◌+◌, ◌^◌, ◌<◌, ◌≤◌, ◌++◌, ◌∷◌, [], IsOk, OnOk, OnErr};
ghost use Rattle.std.specs.Bool.{OnTrue, OnFalse};
ghost use Rattle.qpu_machine.specs.Journal.{IsMerged, pushed, last_count};

use crate::actor::Actor;
use crate::journal::Run;
use qpu_word::NoMemory;
use std::alloc::Global;
use std::marker::Model;

/// Runs of steps: neighbouring runs are of different actors, and each has at least one step.
/// Contracts see the runs, and for how many more there is room.
#[derive(Debug, Drop)]
pub(crate) struct RunList {
    runs: Vec<Run>,
}

impl Model for RunList {
    ghost use Rattle.std.specs.Prelude.{◌-◌, vec_len, vec_capacity};
    ghost use Rattle.qpu_machine.specs.Journal.{IsMerged};
    ghost use Rattle.qpu_machine.specs.RunList.{RunListState};

    ghost Value = { RunListState };

    ghost view = { λ list. record { runs = list.runs.items; room = vec_capacity list.runs - vec_len list.runs } };

    ghost invariant = { λ list. IsMerged list.runs.items };
}

impl RunList {
    /// No runs. They take no memory yet.
    pub(crate) fn new(alloc: Global) -> RunList
        ensures { result.runs ≡ [] }
    {
        RunList {
            runs: Vec::new(alloc),
        }
    }

    /// The runs, in order.
    pub(crate) fn runs(&self) -> &[Run]
        ensures runs { result.now ≡ self.now.runs }
        ensures merged { IsMerged self.now.runs }
    {
        &self.runs
    }

    /// Takes room for one more run. The one error is want of memory; the runs stay as they are.
    pub(crate) fn make_room(&mut self) -> Result<(), NoMemory>
        ensures runs { self.new.runs ≡ self.old.runs }
        ensures room { OnOk result (0 < self.new.room) }
    {
        match self.runs.reserve(1) {
            Ok(()) => Ok(()),
            Err(_) => Err(NoMemory),
        }
    }

    /// Lets the last run count on, where it is the actor's.
    fn count_on(&mut self, actor: Actor, count: u64) -> bool
        requires some { 1 ≤ count }
        requires fits { last_count self.old.runs actor + count < 2 ^ 64 }
        ensures on { OnTrue result (self.new.runs ≡ pushed self.old.runs actor count) }
        ensures same { OnFalse result (self.new ≡ self.old) }
        ensures apart { OnFalse result (last_count self.old.runs actor ≡ 0) }
        ensures one_more { OnFalse result (self.old.runs ++ (record { actor = actor; count = count }) ∷ [] ≡ pushed self.old.runs actor count) }
    {
        let Some(last) = self.runs.last_mut() else {
            return false;
        };
        if last.actor != actor {
            return false;
        }
        last.count += count;
        true
    }

    /// Adds more steps of an actor, at least 1, where there is room for a run. The last run counts on
    /// where it is the actor's; else there is one more run.
    pub(crate) fn add(&mut self, actor: Actor, count: u64)
        requires some { 1 ≤ count }
        requires fits { last_count self.old.runs actor + count < 2 ^ 64 }
        requires room { 0 < self.old.room }
        ensures { self.new.runs ≡ pushed self.old.runs actor count }
    {
        if !self.count_on(actor, count) {
            self.runs.push_reserved(Run { actor, count });
        }
    }

    /// The same, with room taken where it is wanted: where the last run counts on it is not. The one
    /// error is want of memory; then the runs stay as they are.
    pub(crate) fn push(&mut self, actor: Actor, count: u64) -> Result<(), NoMemory>
        requires some { 1 ≤ count }
        requires fits { last_count self.old.runs actor + count < 2 ^ 64 }
        ensures ok { OnOk result (self.new.runs ≡ pushed self.old.runs actor count) }
        ensures counts_on { 0 < last_count self.old.runs actor → IsOk result }
        ensures err { OnErr result (self.new.runs ≡ self.old.runs) }
    {
        if self.count_on(actor, count) {
            return Ok(());
        }
        self.make_room()?;
        self.add(actor, count);
        Ok(())
    }
}
