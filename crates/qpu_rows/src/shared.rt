//! Processors that step, word by word, with what they share.
ghost use Rattle.std.specs.Prelude.{◌≡◌, ◌≤◌, length, slice_index};
ghost use Rattle.qpu_word.specs.Words.{fields_of, writes_link};
ghost use Rattle.qpu_word.specs.Instruction.{is_link_point};

use qpu_local::Processor;
use qpu_mem::Memory;
use qpu_shared::{Did, Shared};
use qpu_word::code::{BRANCH_SLOTS, PROCESSORS};
use qpu_word::{Halt, NoMemory, Program, Word};
use std::alloc::Global;

/// More instructions than a processor of these rows executes.
const MOST_STEPS: u32 = 1000;

/// A program of a few words.
#[derive(Drop)]
struct Listed<'a> {
    words: &'a [u64],
    ghost short: { length words.now ≤ 4096 },
}

/// Whether a word is a branch that writes a link.
fn links(word: u64) -> bool
    ensures { result ≡ writes_link (fields_of word) }
{
    Word(word).fields().writes_link()
}

impl Program for Listed<'_> {
    ghost len = { λ program. length program.words.now };

    ghost word = { λ program at. slice_index program.words.now at };

    ghost is_link = { λ program at. is_link_point program.words.now at };

    fn len(&self) -> u32 {
        self.words.len() as u32
    }

    fn word(&self, at: u32) -> Option<Word> {
        match self.words.get(at as usize) {
            Some(word) => Some(Word(*word)),
            None => None,
        }
    }

    #[tactic(auto, unfolding(qpu_word::specs::Instruction::is_link_point))]
    fn is_link(&self, at: u32) -> bool {
        let first = 1 + BRANCH_SLOTS;
        if at < first || self.words.len() <= at as usize {
            return false;
        }
        links(self.words[(at - first) as usize])
    }
}

/// One step of a processor in a program of at most 4,096 words: what became of it. None where it
/// can't step: it doesn't go on, or its word has no room for its look-up or isn't of the profile.
pub fn step(words: &[u64], processor: &mut Processor, shared: &mut Shared) -> Option<Did>
    requires { length words.now ≤ 4096 }
{
    let program = Listed { words };
    let word = program.word(processor.place())?;
    if processor.halt() != Halt::Going || processor.executed() >= MOST_STEPS {
        return None;
    }
    if word.form().is_err() {
        return None;
    }
    if word.is_local() {
        return match processor.step_local(&program) {
            Some(kind) => Some(Did::Faulted(kind)),
            None => Some(Did::Stepped),
        };
    }
    let q = processor.q();
    if q >= PROCESSORS || word.fields().is_branch() || !shared.has_room(q, word) {
        return None;
    }
    Some(shared.exec(q, processor, word))
}

/// Steps a processor until it doesn't step or so many steps were made, and tells what became of
/// the last.
pub fn run(words: &[u64], processor: &mut Processor, shared: &mut Shared, steps: u32) -> Option<Did>
    requires { length words.now ≤ 4096 }
{
    let mut last = None;
    for _ in 0..steps {
        last = step(words, processor, shared);
        if last != Some(Did::Stepped) {
            return last;
        }
    }
    last
}

/// Shared parts with a memory of so many words, 1 to 1,048,576, of which the first are given.
pub fn shared_with(alloc: Global, words: u32, first: &[u32]) -> Result<Shared, NoMemory>
    requires some { 1 ≤ words }
    requires most { words ≤ 1048576 }
{
    let mut memory = Memory::new(alloc, words)?;
    let mut at = 0u32;
    for word in first {
        memory.set(at, *word);
        at = at.wrapping_add(1);
    }
    Ok(Shared::new(alloc, memory))
}
