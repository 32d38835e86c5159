//! A program of the profile, and where control goes in it.
ghost use Rattle.std.specs.Prelude.{◌≡◌, ◌<◌, ◌≤◌, length, filter, IfOk, OnOk, IfErr, IfSome, IfNone, slice_index};
ghost use Rattle.std.specs.Option.{SomeIff};
ghost use Rattle.std.specs.List.{range_with_len};
ghost use Rattle.qpu_word.specs.Instruction.{is_link_point};
ghost use Rattle.qpu_word.specs.Words.{word_fault, numbers_of};
ghost use Rattle.qpu_decoded.specs.Units.{decoded_of};
ghost use Rattle.qpu_flow.specs.Code.{fields_at, AllInProfile, IsFirstOutside};
ghost use Rattle.qpu_flow.specs.Faults.{IsFlowFault};
ghost use Rattle.qpu_flow.specs.Control.{link_points};

use crate::decoding::decode;
use qpu_decoded::Decoded;
use qpu_word::code::BRANCH_SLOTS;
use qpu_word::{Fields, NoMemory, Word, WordFault};
use std::alloc::{AllocError, Global};
use std::marker::Model;

/// The fields of the word at a place.
#[tactic(auto, unfolding(crate::specs::Code::fields_at), using(crate::proofs::CodeLemmas::number_at))]
fn fields_at(words: &[Word], at: u32) -> Fields
    requires { at < length words.now }
    ensures { result ≡ fields_at (numbers_of words.now) at }
{
    words[at as usize].fields()
}

/// Whether a place is a link point: the word after the slots of a branch that writes a link.
#[tactic(auto, unfolding(qpu_word::specs::Instruction::is_link_point), using(crate::proofs::CodeLemmas::length_numbers, crate::proofs::CodeLemmas::link_point_at, crate::proofs::CodeLemmas::no_link_past, crate::proofs::CodeLemmas::no_link_before))]
fn is_link_at(words: &[Word], at: u32) -> bool
    ensures { result ≡ is_link_point (numbers_of words.now) at }
{
    let first = 1 + BRANCH_SLOTS;
    if at as usize >= words.len() {
        return false;
    }
    if at < first {
        return false;
    }
    fields_at(words, at - first).writes_link()
}

/// The link points among the first places, in ascending order.
fn links_below(alloc: Global, words: &[Word], count: u32) -> Result<Vec<u32>, AllocError>
    ensures { IfOk result (λ links. links.items ≡ filter (is_link_point (numbers_of words.now)) (range_with_len 0 count)) }
{
    (0..count)
        .filter(|at| is_link_at(words, *at))
        .collect(alloc)
}

/// The link points, in ascending order.
#[tactic(auto, using(crate::proofs::CodeLemmas::links_below_all))]
fn links_of(alloc: Global, words: &[Word]) -> Result<Vec<u32>, NoMemory>
    requires { length words.now ≤ 4096 }
    ensures { IfOk result (λ links. links.items ≡ link_points (numbers_of words.now)) }
{
    match links_below(alloc, words, words.len() as u32) {
        Ok(links) => Ok(links),
        Err(_) => Err(NoMemory),
    }
}

/// The fault of a word outside the profile.
#[tactic(auto, unfolding(qpu_word::specs::Form::word_form))]
fn fault_of(word: Word) -> Option<WordFault>
    ensures { result ≡ word_fault word.0 }
{
    match word.form() {
        Ok(_) => None,
        Err(fault) => Some(fault),
    }
}

/// The least place, counted in words from 0, whose word is outside the profile, with that word's
/// fault. None exactly where all words, at most 4,096, are in the profile.
#[tactic(auto, using(crate::proofs::CodeLemmas::number_at, crate::proofs::CodeLemmas::length_numbers))]
fn first_outside(words: &[Word]) -> Option<(u32, WordFault)>
    requires { length words.now ≤ 4096 }
    ensures inside { IfNone result (AllInProfile (numbers_of words.now)) }
    ensures outside { IfSome result (λ first. IsFirstOutside (numbers_of words.now) first.0 first.1) }
{
    for at in 0..words.len() {
        if let Some(fault) = fault_of(words[at]) {
            return Some((at as u32, fault));
        }
    }
    None
}

/// Why words are no program.
#[derive(Clone, Copy, Debug, PartialEq, Eq)]
pub enum FlowFault {
    /// The word at this place is outside the profile, and none before it is.
    Word(u32, WordFault),
    /// Want of memory.
    Memory,
}

/// A program of at most 4,096 words, all in the profile. Contracts see the list of its words'
/// numbers.
#[derive(Debug, Drop)]
pub struct Flow {
    words: Vec<Word>,
    links: Vec<u32>,
    decoded: Vec<Decoded>,
}

impl Model for Flow {
    ghost use Rattle.std.specs.Prelude.{ℕ, List};
    ghost use Rattle.qpu_word.specs.Words.{numbers_of};
    ghost use Rattle.qpu_flow.specs.Control.{IsFlow};

    ghost Value = { List ℕ };

    ghost view = { λ flow. numbers_of flow.words.items };

    ghost invariant = { λ flow. IsFlow flow.words.items flow.links.items flow.decoded.items };
}

impl Flow {
    /// The program of words, at most 4,096. It is refused where a word is outside the profile.
    pub fn of(alloc: Global, words: &[Word]) -> Result<Flow, FlowFault>
        requires { length words.now ≤ 4096 }
        ensures words { IfOk result (λ flow. flow ≡ numbers_of words.now) }
        ensures inside { OnOk result (AllInProfile (numbers_of words.now)) }
        ensures outside { IfErr result (IsFlowFault (numbers_of words.now)) }
    {
        if let Some((at, fault)) = first_outside(words) {
            return Err(FlowFault::Word(at, fault));
        }
        let Ok(links) = links_of(alloc, words) else {
            return Err(FlowFault::Memory);
        };
        let Ok(decoded) = decode(alloc, words) else {
            return Err(FlowFault::Memory);
        };
        match Vec::from_slice(alloc, words) {
            Ok(words) => Ok(Flow {
                words,
                links,
                decoded,
            }),
            Err(_) => Err(FlowFault::Memory),
        }
    }

    /// The words.
    #[tactic(auto, using(crate::proofs::CodeLemmas::length_numbers))]
    pub fn words(&self) -> &[Word]
        ensures words { numbers_of result.now ≡ self.now }
        ensures inside { AllInProfile self.now }
        ensures short { length self.now ≤ 4096 }
    {
        &self.words
    }

    /// The word at a place; none exactly where no word stands there.
    #[tactic(auto, using(crate::proofs::CodeLemmas::word_at, crate::proofs::CodeLemmas::length_numbers))]
    pub fn word(&self, at: u32) -> Option<Word>
        ensures { SomeIff result (at < length self.now) (record { 0 = slice_index self.now at }) }
    {
        if at as usize >= self.words.len() {
            return None;
        }
        Some(self.words[at as usize])
    }

    /// How many words there are.
    #[tactic(auto, using(crate::proofs::CodeLemmas::length_numbers))]
    pub fn len(&self) -> u32
        ensures count { result ≡ length self.now }
        ensures short { result ≤ 4096 }
    {
        self.words.len() as u32
    }

    /// The word at a place, decoded.
    pub fn decoded(&self, at: u32) -> &Decoded
        requires { at < length self.now }
        ensures { result.now ≡ decoded_of (slice_index self.now at) }
    {
        &self.decoded[at as usize]
    }

    /// The fields of the word at a place.
    #[tactic(auto, unfolding(crate::specs::Code::fields_at))]
    pub fn fields(&self, at: u32) -> Fields
        requires { at < length self.now }
        ensures { result ≡ fields_at self.now at }
    {
        self.decoded(at).fields
    }

    /// The link points, in ascending order.
    pub fn links(&self) -> &[u32]
        ensures { result.now ≡ link_points self.now }
    {
        &self.links
    }

    /// Whether a place is a link point: the word after the slots of a branch that writes a link.
    pub fn is_link(&self, at: u32) -> bool
        ensures { result ≡ is_link_point self.now at }
    {
        is_link_at(&self.words, at)
    }
}
