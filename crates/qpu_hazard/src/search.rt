//! The search over all trails that the paths of a program leave.
ghost use Rattle.std.specs.Prelude.{◌≡◌, ◌<◌, ◌*◌, ℕ, true, length, OnOk, IfOk, IsTrue, All};
ghost use Rattle.qpu_flow.specs.Control.{asks_for, next_from, link_points};
ghost use Rattle.qpu_hazard.specs.Trails.{follows_from};
ghost use Rattle.qpu_hazard.specs.Needs.{IsSparing};
ghost use Rattle.qpu_hazard.specs.Search.{Known, IsSoundSearch, Settled, AllSettled, Grows, IsClosed};

use crate::best::keep_all;
use crate::breaks::Hazard;
use crate::needs::Needs;
use crate::rules::breaks_after;
use crate::seen::Seen;
use crate::trail::Trail;
use qpu_flow::Flow;
use std::alloc::{AllocError, Global};

/// What a search found: trails, and the first hazard.
#[derive(Drop)]
pub(crate) struct Search {
    /// The trails, in the order in which they are looked at.
    pub(crate) seen: Seen,
    /// The first hazard of those found.
    pub(crate) best: Option<Hazard>,
}

impl Search {
    /// Looks at a word that may follow a trail.
    fn visit(
        &mut self,
        alloc: Global,
        flow: &Flow,
        needs: Needs,
        r: &Trail,
        at: u32,
    ) -> Result<(), AllocError>
        requires known { Known needs flow.now r.now }
        requires follows { IsTrue (follows_from flow.now r.now at) }
        requires sound { IsSoundSearch needs flow.now self.old }
        ensures sound { OnOk result (IsSoundSearch needs flow.now self.new) }
        ensures grows { OnOk result (Grows self.old self.new) }
        ensures settled { OnOk result (Settled needs flow.now self.new r.now at) }
    {
        let breaks = breaks_after(alloc, flow, r, at)?;
        let told = breaks.as_slice();
        keep_all(&mut self.best, told, at);
        if !told.is_empty() {
            return Ok(());
        }
        self.seen.add(needs.further(flow, r, at))
    }

    /// Looks at the next word, where it may follow.
    fn visit_ahead(
        &mut self,
        alloc: Global,
        flow: &Flow,
        needs: Needs,
        r: &Trail,
        ahead: Option<u32>,
    ) -> Result<(), AllocError>
        requires known { Known needs flow.now r.now }
        requires follows { (a : ℕ) → asks_for ahead a ≡ true → a < length flow.now → IsTrue (follows_from flow.now r.now a) }
        requires sound { IsSoundSearch needs flow.now self.old }
        ensures sound { OnOk result (IsSoundSearch needs flow.now self.new) }
        ensures grows { OnOk result (Grows self.old self.new) }
        ensures settled { OnOk result ((a : ℕ) → asks_for ahead a ≡ true → a < length flow.now → Settled needs flow.now self.new r.now a) }
    {
        let Some(at) = ahead else {
            return Ok(());
        };
        if at >= flow.len() {
            return Ok(());
        }
        self.visit(alloc, flow, needs, r, at)
    }

    /// Looks at the word at a branch's target, where it may follow.
    fn visit_jump(
        &mut self,
        alloc: Global,
        flow: &Flow,
        needs: Needs,
        r: &Trail,
        jump: Option<u32>,
    ) -> Result<(), AllocError>
        requires known { Known needs flow.now r.now }
        requires follows { (a : ℕ) → asks_for jump (8 * a) ≡ true → a < length flow.now → IsTrue (follows_from flow.now r.now a) }
        requires sound { IsSoundSearch needs flow.now self.old }
        ensures sound { OnOk result (IsSoundSearch needs flow.now self.new) }
        ensures grows { OnOk result (Grows self.old self.new) }
        ensures settled { OnOk result ((a : ℕ) → asks_for jump (8 * a) ≡ true → a < length flow.now → Settled needs flow.now self.new r.now a) }
    {
        let Some(byte) = jump else {
            return Ok(());
        };
        let Some(at) = flow.place_of(byte) else {
            return Ok(());
        };
        self.visit(alloc, flow, needs, r, at)
    }

    /// Looks at all link points, where they may follow.
    fn visit_links(
        &mut self,
        alloc: Global,
        flow: &Flow,
        needs: Needs,
        r: &Trail,
    ) -> Result<(), AllocError>
        requires known { Known needs flow.now r.now }
        requires any { (next_from flow.now r.now.slots r.now.last).any_link ≡ true }
        requires sound { IsSoundSearch needs flow.now self.old }
        ensures sound { OnOk result (IsSoundSearch needs flow.now self.new) }
        ensures grows { OnOk result (Grows self.old self.new) }
        ensures settled { OnOk result (All (Settled needs flow.now self.new r.now) (link_points flow.now)) }
    {
        for at in flow.links() {
            self.visit(alloc, flow, needs, r, *at)?;
        }
        Ok(())
    }

    /// Looks at each word that may follow a trail.
    fn visit_all(
        &mut self,
        alloc: Global,
        flow: &Flow,
        needs: Needs,
        r: &Trail,
    ) -> Result<(), AllocError>
        requires known { Known needs flow.now r.now }
        requires sound { IsSoundSearch needs flow.now self.old }
        ensures sound { OnOk result (IsSoundSearch needs flow.now self.new) }
        ensures grows { OnOk result (Grows self.old self.new) }
        ensures settled { OnOk result (AllSettled needs flow.now self.new r.now) }
    {
        let next = flow.next_from(r.slots, r.last);
        self.visit_ahead(alloc, flow, needs, r, next.ahead)?;
        self.visit_jump(alloc, flow, needs, r, next.jump)?;
        if !next.any_link {
            return Ok(());
        }
        self.visit_links(alloc, flow, needs, r)
    }
}

/// Looks at each word of each path of a program that isn't empty, until no trail is new. Of each
/// trail it keeps what has to be followed.
pub(crate) fn explore(alloc: Global, flow: &Flow, needs: Needs) -> Result<Search, AllocError>
    requires some { 0 < length flow.now }
    requires sparing { IsSparing flow.now needs }
    ensures { IfOk result (IsClosed needs flow.now) }
{
    let mut search = Search {
        seen: Seen::new(alloc),
        best: None,
    };
    search.seen.add(needs.opening())?;
    let mut next = 0;
    while next < search.seen.len() {
        let r = search.seen.at(next);
        search.visit_all(alloc, flow, needs, &r)?;
        next += 1;
    }
    Ok(search)
}
