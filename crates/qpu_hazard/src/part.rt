//! The parts of the hazard rules: what each keeps of the words before, and what it asks of the next.
ghost use Rattle.std.specs.Prelude.{◌≡◌, ◌<◌, ◌≤◌, [], length, IsTrue};
ghost use Rattle.qpu_hazard.specs.Parts.{is_by_value, carry_value, value_after, near_trail, Holds, mark_after, IsFitMark};
ghost use Rattle.qpu_hazard.specs.declared.part.Part.TheVariants.{Near, Uniforms, R4, Flags, Carry, Looks0, Looks1};
ghost use Rattle.qpu_hazard.specs.Rules.{h13};

use crate::demands::{
    defines_carry, loads_r4, looks_made, looks_taken, sets_flags, tests_carry, tests_zn, uses_r4,
};
use crate::mark::Mark;
use crate::rules::breaks_after;
use crate::trail::{Trail, looks_after};
use qpu_flow::{Flow, Slots};
use qpu_word::Fields;
use qpu_word::code::{LOOK_UPS, READ_UNIFORM, WRITE_UNIFORMS_ADDRESS};
use std::alloc::Global;

/// A part of the hazard rules, by what it asks of the words before.
#[derive(Clone, Copy, Debug, PartialEq, Eq)]
pub(crate) enum Part {
    /// The last word and the slots in progress: all rules but those below.
    Near,
    /// How long since the uniforms address was written: H4.
    Uniforms,
    /// Whether r4 is defined: H12.
    R4,
    /// Whether Z and N are defined: H12.
    Flags,
    /// Whether C is defined: H12.
    Carry,
    /// The outstanding look-ups of unit 0: H13.
    Looks0,
    /// The outstanding look-ups of unit 1: H13.
    Looks1,
}

/// The trail on which the near rules are asked.
fn near_trail(last: Option<u32>, slots: Option<Slots>) -> Trail
    ensures { result ≡ near_trail last slots }
{
    Trail {
        last,
        earlier: None,
        slots,
        r4: true,
        flags: true,
        carry: true,
        looks_0: 2,
        looks_1: 2,
    }
}

/// Whether a word breaks no near rule after a mark; want of memory answers no too.
fn holds_near(alloc: Global, flow: &Flow, m: &Mark, at: u32) -> bool
    requires fits { IsFitMark flow.now m.now }
    requires there { at < length flow.now }
    ensures { IsTrue result → Holds Near flow.now m.now at }
{
    match breaks_after(alloc, flow, &near_trail(m.last, m.slots), at) {
        Ok(breaks) => breaks.is_empty(),
        Err(_) => false,
    }
}

/// Whether a word keeps H13 by a unit, 0 or 1.
fn holds_looks(f: &Fields, unit: u32, looks: u32, at: u32) -> bool
    requires unit { unit < 2 }
    requires few { looks ≤ 4 }
    ensures { IsTrue result → h13 unit looks f.now at ≡ [] }
{
    let looks = looks + looks_made(f, unit);
    looks <= LOOK_UPS && looks_taken(f, unit) <= looks
}

/// 1 where C is defined after a word, else 0.
fn carry_value(f: &Fields, value: u32) -> u32
    ensures { result ≡ carry_value f.now value }
{
    if !sets_flags(f) {
        return value;
    }
    if defines_carry(f) { 1 } else { 0 }
}

impl Part {
    /// Whether all that a part asks of the words before is its value.
    pub(crate) fn is_by_value(self) -> bool
        ensures { result ≡ is_by_value self }
    {
        match self {
            Part::Near => false,
            _ => true,
        }
    }

    /// The value after a word.
    fn value_after(self, f: &Fields, value: u32) -> u32
        requires { value ≤ 4 }
        ensures { result ≡ value_after self f.now value }
    {
        match self {
            Part::Near => 0,
            Part::Uniforms => if f.writes(WRITE_UNIFORMS_ADDRESS) {
                2
            } else {
                value.saturating_sub(1)
            },
            Part::R4 => if loads_r4(f) { 1 } else { value },
            Part::Flags => if sets_flags(f) { 1 } else { value },
            Part::Carry => carry_value(f, value),
            Part::Looks0 => looks_after(f, 0, value),
            Part::Looks1 => looks_after(f, 1, value),
        }
    }

    /// Whether a word breaks no rule of the part after a mark; want of memory answers no too.
    pub(crate) fn holds(self, alloc: Global, flow: &Flow, m: &Mark, at: u32) -> bool
        requires fits { IsFitMark flow.now m.now }
        requires there { at < length flow.now }
        ensures { IsTrue result → Holds self flow.now m.now at }
    {
        let f = flow.fields(at);
        match self {
            Part::Near => holds_near(alloc, flow, m, at),
            Part::Uniforms => !(0 < m.value && f.reads(READ_UNIFORM)),
            Part::R4 => !(uses_r4(&f) && m.value == 0),
            Part::Flags => !(tests_zn(&f) && m.value == 0),
            Part::Carry => !(tests_carry(&f) && m.value == 0),
            Part::Looks0 => holds_looks(&f, 0, m.value, at),
            Part::Looks1 => holds_looks(&f, 1, m.value, at),
        }
    }

    /// The mark one word further.
    pub(crate) fn mark_after(self, flow: &Flow, m: &Mark, at: u32) -> Mark
        requires fits { IsFitMark flow.now m.now }
        requires there { at < length flow.now }
        ensures { result ≡ mark_after self flow.now m.now at }
    {
        Mark {
            links: false,
            last: Some(at),
            slots: flow.slots_after(m.slots, at),
            value: self.value_after(&flow.fields(at), m.value),
        }
    }
}
