//! The call that judges a program, and what it answers.
ghost use Rattle.std.specs.Prelude.{◌≡◌, ◌<◌, ◌≤◌, length, IfOk, OnOk, IfErr, slice_index};
ghost use Rattle.std.specs.Option.{SomeIff};
ghost use Rattle.qpu_word.specs.Instruction.{is_link_point};
ghost use Rattle.qpu_word.specs.Words.{numbers_of};
ghost use Rattle.qpu_decoded.specs.Units.{decoded_of};
ghost use Rattle.qpu_flow.specs.Code.{AllInProfile};
ghost use Rattle.qpu_hazard.specs.Paths.{IsClean};
ghost use Rattle.qpu_hazard.specs.Refusal.{NoneRefusable};
ghost use Rattle.qpu_hazard.specs.Faults.{IsHazardFault, IsCheckFault};

use crate::needs::Needs;
use crate::rules::H10;
use crate::search::explore;
use qpu_decoded::Decoded;
use qpu_flow::{Flow, FlowFault};
use qpu_word::{Program, Word, WordFault};
use std::alloc::Global;
use std::marker::Model;

/// Why words are refused.
#[derive(Clone, Copy, Debug, PartialEq, Eq)]
pub enum CheckFault {
    /// The word at this place is outside the profile, and none before it is.
    Word(u32, WordFault),
    /// All words are in the profile, and this is the first break that a path leads to.
    Hazard {
        /// The number of the rule, 1 to 16.
        rule: u32,
        /// The place of the breaking word, counted in words from 0.
        at: u32,
        /// The place told with it, as in `Break`.
        before: u32,
    },
    /// Want of memory.
    Memory,
}

/// A program of at most 4,096 words, all in the profile, no path of which breaks a rule. Contracts
/// see the list of its words' numbers.
#[derive(Debug, Drop)]
pub struct Checked {
    flow: Flow,
}

impl Model for Checked {
    ghost use Rattle.std.specs.Prelude.{ℕ, List};
    ghost use Rattle.qpu_hazard.specs.Paths.{IsClean};

    ghost Value = { List ℕ };

    ghost view = { λ checked. checked.flow };

    ghost invariant = { λ checked. IsClean checked.flow };
}

/// Judges a program of the profile over all paths. It is refused where a path leads to a break: with
/// the break of the least place, of these with the least rule, of these with the least place told
/// with it. All other programs are checked ones. The one error beside want of memory is `Hazard`.
pub fn judge(alloc: Global, flow: Flow) -> Result<Checked, CheckFault>
    ensures words { IfOk result (λ checked. checked ≡ flow) }
    ensures clean { OnOk result (NoneRefusable flow) }
    ensures first { IfErr result (IsHazardFault flow) }
{
    if flow.len() == 0 {
        return Err(CheckFault::Hazard {
            rule: H10,
            at: 0,
            before: 0,
        });
    }
    let needs = Needs::of(alloc, &flow);
    if !needs.are_any() {
        return Ok(Checked { flow });
    }
    let Ok(search) = explore(alloc, &flow, needs) else {
        return Err(CheckFault::Memory);
    };
    match search.best {
        Some(h) => Err(CheckFault::Hazard {
            rule: h.rule,
            at: h.at,
            before: h.before,
        }),
        None => Ok(Checked { flow }),
    }
}

/// Judges words, at most 4,096, over all paths. Words outside the profile are refused first, at the
/// first of them in the text. Where there is none, the answer is that of `judge`.
pub fn check(alloc: Global, words: &[Word]) -> Result<Checked, CheckFault>
    requires { length words.now ≤ 4096 }
    ensures words { IfOk result (λ checked. checked ≡ numbers_of words.now) }
    ensures inside { OnOk result (AllInProfile (numbers_of words.now)) }
    ensures clean { OnOk result (NoneRefusable (numbers_of words.now)) }
    ensures first { IfErr result (IsCheckFault (numbers_of words.now)) }
{
    match Flow::of(alloc, words) {
        Ok(flow) => judge(alloc, flow),
        Err(FlowFault::Word(at, fault)) => Err(CheckFault::Word(at, fault)),
        Err(FlowFault::Memory) => Err(CheckFault::Memory),
    }
}

impl Checked {
    /// The words.
    pub fn words(&self) -> &[Word]
        ensures words { numbers_of result.now ≡ self.now }
        ensures short { length self.now ≤ 4096 }
        ensures inside { AllInProfile self.now }
        ensures clean { IsClean self.now }
    {
        self.flow.words()
    }

    /// The fields of the word at a place, and whether the word is local.
    pub fn decoded(&self, at: u32) -> &Decoded
        requires { at < length self.now }
        ensures { result.now ≡ decoded_of (slice_index self.now at) }
    {
        self.flow.decoded(at)
    }
}

impl Program for Checked {
    ghost len = { λ checked. length checked };

    ghost word = { λ checked at. slice_index checked at };

    ghost is_link = { λ checked at. is_link_point checked at };

    fn len(&self) -> u32 {
        self.flow.len()
    }

    fn word(&self, at: u32) -> Option<Word> {
        self.flow.word(at)
    }

    fn is_link(&self, at: u32) -> bool {
        self.flow.is_link(at)
    }
}

/// The checked programs of a machine.
#[derive(Debug, Drop)]
pub struct Programs {
    /// The programs, in their order.
    pub list: Vec<Checked>,
}
