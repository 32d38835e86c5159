//! The faults of a line, given what stands above it.

ghost use Rattle.std.specs.Prelude.{◌≡◌, ◌+◌, ◌/◌, ◌%◌, ◌==◌, nat_le};
ghost use Rattle.std.specs.List.{list_any};
ghost use Rattle.qpu_job.specs.Shapes.{said};
ghost use Rattle.qpu_job.specs.Above.{above_of};
ghost use Rattle.qpu_job.specs.Faults.{stands, has_wrong_size, is_too_much, is_twice, is_no_processor, is_no_program, is_no_place, first_reason};

use crate::above::{Above, index_of};
use crate::job::MOST_PROGRAMS;
use crate::reason::Reason;
use crate::shape::Shape;
use crate::stage::Stage;
use qpu_machine::Start;
use qpu_word::code::{LIMIT_MOST, MEMORY_WORDS, PROCESSORS, WORD_BYTES};

impl Above {
    /// Why a line of this shape fails: the first of the causes that hold.
    #[tactic(auto, unfolding(crate::specs::Faults::first_reason))]
    pub(crate) fn first_reason(&self, shape: &Shape<'_>) -> Option<Reason>
        ensures { result ≡ first_reason (above_of self.now) (said shape.now) }
    {
        if !stands(self.stage, shape) {
            return Some(Reason::Line);
        }
        if has_wrong_size(shape) {
            return Some(Reason::Size);
        }
        if self.is_too_much(shape) {
            return Some(Reason::Limit);
        }
        if self.is_twice(shape) {
            return Some(Reason::Twice);
        }
        if is_no_processor(shape) {
            return Some(Reason::Processor);
        }
        if self.is_no_program(shape) {
            return Some(Reason::NoProgram);
        }
        if self.is_no_place(shape) {
            return Some(Reason::Place);
        }
        None
    }

    #[tactic(auto, unfolding(crate::specs::Faults::is_too_much))]
    fn is_too_much(&self, shape: &Shape<'_>) -> bool
        ensures { result ≡ is_too_much (above_of self.now) (said shape.now) }
    {
        match shape {
            Shape::Limit(limit) => LIMIT_MOST < *limit,
            Shape::Program(_) => MOST_PROGRAMS <= self.job.programs.len(),
            _ => false,
        }
    }

    #[tactic(auto, unfolding(crate::specs::Faults::is_twice))]
    fn is_twice(&self, shape: &Shape<'_>) -> bool
        ensures { result ≡ is_twice (above_of self.now) (said shape.now) }
    {
        match shape {
            Shape::Program(name) => index_of(&self.job.programs, name).is_some(),
            Shape::Start(q, _, _) => is_started(&self.job.starts, *q),
            _ => false,
        }
    }

    #[tactic(auto, unfolding(crate::specs::Faults::is_no_program))]
    fn is_no_program(&self, shape: &Shape<'_>) -> bool
        ensures { result ≡ is_no_program (above_of self.now) (said shape.now) }
    {
        match shape {
            Shape::Start(_, name, _) => index_of(&self.job.programs, name).is_none(),
            _ => false,
        }
    }

    #[tactic(auto, unfolding(crate::specs::Faults::is_no_place))]
    fn is_no_place(&self, shape: &Shape<'_>) -> bool
        ensures { result ≡ is_no_place (above_of self.now) (said shape.now) }
    {
        match shape {
            Shape::Data(address, values) => {
                !is_whole_word(*address) || !fits(self.job.words, *address, values.len())
            }
            _ => false,
        }
    }
}

#[tactic(auto, unfolding(crate::specs::Faults::stands))]
fn stands(stage: Stage, shape: &Shape<'_>) -> bool
    ensures { result ≡ stands stage (said shape.now) }
{
    match shape {
        Shape::Empty => true,
        Shape::Opening => matches!(stage, Stage::Nothing),
        Shape::Memory(_) => matches!(stage, Stage::Opened),
        Shape::Limit(_) => matches!(stage, Stage::Sized),
        Shape::Data(_, _) | Shape::Program(_) | Shape::Start(_, _, _) => {
            matches!(stage, Stage::Limited)
        }
    }
}

#[tactic(auto, unfolding(crate::specs::Faults::has_wrong_size))]
fn has_wrong_size(shape: &Shape<'_>) -> bool
    ensures { result ≡ has_wrong_size (said shape.now) }
{
    match shape {
        Shape::Memory(words) => *words == 0 || MEMORY_WORDS < *words,
        _ => false,
    }
}

#[tactic(auto, unfolding(crate::specs::Faults::is_no_processor))]
fn is_no_processor(shape: &Shape<'_>) -> bool
    ensures { result ≡ is_no_processor (said shape.now) }
{
    match shape {
        Shape::Start(q, _, _) => PROCESSORS <= *q,
        _ => false,
    }
}

fn is_started(starts: &[Start], q: u32) -> bool
    ensures { result ≡ list_any (λ start. start.q == q) starts.now }
{
    starts.iter().any(|start| start.q == q)
}

fn is_whole_word(address: u32) -> bool
    ensures { result ≡ (address % WORD_BYTES == 0) }
{
    address % WORD_BYTES == 0
}

/// Whether so many words from a byte address on lie in memory of so many words.
fn fits(words: u32, address: u32, count: usize) -> bool
    ensures { result ≡ nat_le (address / WORD_BYTES + count) words }
{
    let at = (address / WORD_BYTES) as usize;
    let words = words as usize;
    at <= words && count <= words - at
}
