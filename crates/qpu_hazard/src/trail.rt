//! Trails: what later words depend on.
ghost use Rattle.std.specs.Prelude.{◌≡◌, ◌<◌, ◌≤◌, length, IfSome};
ghost use Rattle.qpu_hazard.specs.Paths.{carry_after, looks_after};
ghost use Rattle.qpu_hazard.specs.Trails.{advance, remembered, forget, onward};
ghost use Rattle.qpu_hazard.specs.Fitting.{Fits, opening_trail};

use crate::demands::{defines_carry, loads_r4, looks_made, looks_taken, sets_flags};
use qpu_flow::{Flow, Slots};
use qpu_word::Fields;
use qpu_word::code::WRITE_UNIFORMS_ADDRESS;

/// What later words depend on after the words of a path.
#[derive(Clone, Copy, Debug, PartialEq, Eq, Hash)]
pub struct Trail {
    /// The place of the last word; none before any.
    pub last: Option<u32>,
    /// The place of the last word but one.
    pub earlier: Option<u32>,
    /// The slots in progress.
    pub slots: Option<Slots>,
    /// Whether r4 is defined: some word was a TMU load.
    pub r4: bool,
    /// Whether Z and N are defined: some word set the flags.
    pub flags: bool,
    /// Whether C is defined: the last setting of the flags defined it.
    pub carry: bool,
    /// Outstanding look-ups of unit 0.
    pub looks_0: u32,
    /// Outstanding look-ups of unit 1.
    pub looks_1: u32,
}

/// The trail before any word.
pub(crate) fn opening_trail() -> Trail
    ensures { result ≡ opening_trail }
{
    Trail {
        last: None,
        earlier: None,
        slots: None,
        r4: false,
        flags: false,
        carry: false,
        looks_0: 0,
        looks_1: 0,
    }
}

/// Whether C is defined after a word.
fn carry_after(f: &Fields, before: bool) -> bool
    ensures { result ≡ carry_after f.now before }
{
    if sets_flags(f) {
        defines_carry(f)
    } else {
        before
    }
}

/// The outstanding look-ups of a unit, 0 or 1, after a word.
pub(crate) fn looks_after(f: &Fields, unit: u32, looks: u32) -> u32
    requires unit { unit < 2 }
    requires few { looks ≤ 4 }
    ensures { result ≡ looks_after f.now unit looks }
{
    (looks + looks_made(f, unit)).saturating_sub(looks_taken(f, unit))
}

impl Trail {
    /// The trail one word further.
    #[tactic(auto, unfolding(crate::specs::Trails::advance))]
    fn advance(&self, flow: &Flow, at: u32) -> Trail
        requires fits { Fits flow.now self.now }
        requires there { at < length flow.now }
        ensures { result ≡ advance flow.now self.now at }
    {
        let f = flow.fields(at);
        Trail {
            last: Some(at),
            earlier: self.last,
            slots: flow.slots_after(self.slots, at),
            r4: loads_r4(&f) || self.r4,
            flags: sets_flags(&f) || self.flags,
            carry: carry_after(&f, self.carry),
            looks_0: looks_after(&f, 0, self.looks_0),
            looks_1: looks_after(&f, 1, self.looks_1),
        }
    }

    /// The trail one word further, without what no later word depends on.
    #[tactic(auto, unfolding(crate::specs::Trails::onward, crate::specs::Trails::forget, crate::specs::Trails::advance))]
    pub(crate) fn onward(&self, flow: &Flow, at: u32) -> Trail
        requires fits { Fits flow.now self.now }
        requires there { at < length flow.now }
        ensures { result ≡ onward flow.now self.now at }
    {
        let further = self.advance(flow, at);
        Trail {
            earlier: remembered(flow, self.last),
            ..further
        }
    }
}

/// The last word but one, where it wrote the uniforms address.
fn remembered(flow: &Flow, earlier: Option<u32>) -> Option<u32>
    requires { IfSome earlier (λ a. a < length flow.now) }
    ensures { result ≡ remembered flow.now earlier }
{
    let at = earlier?;
    if flow.fields(at).writes(WRITE_UNIFORMS_ADDRESS) {
        Some(at)
    } else {
        None
    }
}
