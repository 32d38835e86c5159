//! Which parts of the rules a search over trails has to follow.
ghost use Rattle.std.specs.Prelude.{◌≡◌, ◌<◌, false, length};
ghost use Rattle.qpu_hazard.specs.Parts.{IsPartClean};
ghost use Rattle.qpu_hazard.specs.Needs.{IsSparing, IsNoNeed, followed, further};
ghost use Rattle.qpu_hazard.specs.Fitting.{Fits, opening_trail};

use crate::marks::show_part;
use crate::part::Part;
use crate::trail::{Trail, opening_trail};
use qpu_flow::Flow;
use std::alloc::Global;

/// Which parts of the rules some way of a program may break. All others are clean on all ways, so
/// that a search need not follow them.
#[derive(Clone, Copy, Debug, PartialEq, Eq)]
pub(crate) struct Needs {
    /// What asks for the last word and the slots.
    pub(crate) near: bool,
    /// H4, after the last word but one.
    pub(crate) uniforms: bool,
    /// H12, for r4.
    pub(crate) r4: bool,
    /// H12, for Z and N.
    pub(crate) flags: bool,
    /// H12, for C.
    pub(crate) carry: bool,
    /// H13, for unit 0.
    pub(crate) looks_0: bool,
    /// H13, for unit 1.
    pub(crate) looks_1: bool,
}

/// Whether a part has to be followed: it wasn't shown to be clean.
fn is_needed(alloc: Global, flow: &Flow, part: Part) -> bool
    ensures { result ≡ false → IsPartClean part flow.now }
{
    match show_part(alloc, flow, part) {
        Ok(_) => false,
        Err(_) => true,
    }
}

impl Needs {
    /// What a program has to be searched for.
    pub(crate) fn of(alloc: Global, flow: &Flow) -> Needs
        ensures { IsSparing flow.now result }
    {
        Needs {
            near: is_needed(alloc, flow, Part::Near),
            uniforms: is_needed(alloc, flow, Part::Uniforms),
            r4: is_needed(alloc, flow, Part::R4),
            flags: is_needed(alloc, flow, Part::Flags),
            carry: is_needed(alloc, flow, Part::Carry),
            looks_0: is_needed(alloc, flow, Part::Looks0),
            looks_1: is_needed(alloc, flow, Part::Looks1),
        }
    }

    /// Whether there are any.
    pub(crate) fn are_any(self) -> bool
        ensures { result ≡ false → IsNoNeed self }
    {
        self.near
            || self.uniforms
            || self.r4
            || self.flags
            || self.carry
            || self.looks_0
            || self.looks_1
    }

    /// A trail with neutral values for what isn't followed.
    fn followed(self, r: &Trail) -> Trail
        ensures { result ≡ followed self r.now }
    {
        Trail {
            last: r.last,
            earlier: if self.uniforms { r.earlier } else { None },
            slots: r.slots,
            r4: !self.r4 || r.r4,
            flags: !self.flags || r.flags,
            carry: !self.carry || r.carry,
            looks_0: if self.looks_0 { r.looks_0 } else { 2 },
            looks_1: if self.looks_1 { r.looks_1 } else { 2 },
        }
    }

    /// What is kept before any word.
    pub(crate) fn opening(self) -> Trail
        ensures { result ≡ followed self opening_trail }
    {
        self.followed(&opening_trail())
    }

    /// What is kept of a trail one word further.
    #[tactic(auto, unfolding(crate::specs::Needs::further))]
    pub(crate) fn further(self, flow: &Flow, r: &Trail, at: u32) -> Trail
        requires fits { Fits flow.now r.now }
        requires there { at < length flow.now }
        ensures { result ≡ further self flow.now r.now at }
    {
        self.followed(&r.onward(flow, at))
    }
}
