//! What stands above a line of a job.

ghost use Rattle.std.specs.Prelude.{◌≡◌, ◌+◌, ◌^◌, ◌<◌, ◌≤◌, ◌++◌, ◌∷◌, [], None, length, IfOk, OnOk, position, string_bytes, bytes_eq};
ghost use Rattle.qpu_job.specs.Plan.{program_of, programs_of};
ghost use Rattle.qpu_job.specs.Shapes.{said};
ghost use Rattle.qpu_job.specs.Above.{above_of, at_first, above_next, index_in, values_from, new_program, new_start};
ghost use Rattle.qpu_job.specs.Faults.{first_reason};

use crate::job::{Job, MOST_PROGRAMS, ProgramText, Value};
use crate::shape::Shape;
use crate::stage::Stage;
use qpu_machine::Start;
use qpu_word::NoMemory;
use qpu_word::code::WORD_BYTES;
use std::alloc::Global;

/// What stands above a line.
#[derive(Debug, Drop)]
pub(crate) struct Above {
    /// The last of the lines in order.
    pub(crate) stage: Stage,
    /// What was asked for.
    pub(crate) job: Job,
    /// The program whose end isn't there yet.
    pub(crate) inside: Option<ProgramText>,
}

impl Above {
    /// Above the first line.
    pub(crate) fn at_first(alloc: Global) -> Above
        ensures { above_of result ≡ at_first }
    {
        let job = Job {
            words: 0,
            limit: 0,
            values: Vec::new(alloc),
            programs: Vec::new(alloc),
            starts: Vec::new(alloc),
        };
        Above {
            stage: Stage::Nothing,
            job,
            inside: None,
        }
    }

    /// Takes a line of a shape that has no fault.
    #[tactic(auto, unfolding(crate::specs::Above::above_next))]
    pub(crate) fn take(
        &mut self,
        alloc: Global,
        number: u32,
        shape: Shape<'_>,
    ) -> Result<(), NoMemory>
        requires number { number + 1 < 2 ^ 32 }
        requires few { length self.old.job.programs.items ≤ MOST_PROGRAMS }
        requires fits { first_reason (above_of self.old) (said shape) ≡ None }
        ensures { OnOk result (above_of self.new ≡ above_next number (above_of self.old) (said shape.entry)) }
    {
        match shape {
            Shape::Empty => {}
            Shape::Opening => self.stage = Stage::Opened,
            Shape::Memory(words) => {
                self.stage = Stage::Sized;
                self.job.words = words;
            }
            Shape::Limit(limit) => {
                self.stage = Stage::Limited;
                self.job.limit = limit;
            }
            Shape::Data(address, values) => {
                let at = address / WORD_BYTES;
                put_values(&mut self.job.values, self.job.words, at, &values)?;
            }
            Shape::Program(name) => self.inside = Some(new_program(alloc, number, name)?),
            Shape::Start(q, name, uniforms) => {
                let start = new_start(&self.job.programs, q, name, uniforms);
                put_start(&mut self.job.starts, start)?;
            }
        }
        Ok(())
    }
}

/// The index of the program of a name.
pub(crate) fn index_of(programs: &[ProgramText], name: &str) -> Option<usize>
    ensures { result ≡ index_in (programs_of programs.now) name.now }
{
    position_of(programs, name)
}

fn position_of(programs: &[ProgramText], name: &str) -> Option<usize>
    ensures { result ≡ position (λ program. bytes_eq (string_bytes program.name) name.now) programs.now }
{
    programs
        .iter()
        .position(|program| program.name.as_str() == name)
}

fn new_program(alloc: Global, number: u32, name: &str) -> Result<ProgramText, NoMemory>
    requires { number + 1 < 2 ^ 32 }
    ensures { IfOk result (λ program. program_of program ≡ new_program number name.now) }
{
    match String::from_str(alloc, name) {
        Ok(name) => Ok(ProgramText {
            name,
            text: String::new(alloc),
            line: number + 1,
        }),
        Err(_) => Err(NoMemory),
    }
}

fn new_start(programs: &[ProgramText], q: u32, name: &str, uniforms: u32) -> Start
    requires { length programs.now ≤ MOST_PROGRAMS }
    ensures { result ≡ new_start (index_in (programs_of programs.now) name.now) q uniforms }
{
    let program = match index_of(programs, name) {
        None => 0,
        Some(index) => index as u32,
    };
    Start {
        q,
        program,
        uniforms,
    }
}

/// Puts values for the words of memory from an index on.
fn put_values(values: &mut Vec<Value>, words: u32, at: u32, numbers: &[u32]) -> Result<(), NoMemory>
    requires { at + length numbers.now ≤ words }
    ensures { OnOk result (values.new.items ≡ values.old.items ++ values_from at numbers.now) }
{
    for (k, value) in numbers.iter().enumerate() {
        let at = at + k as u32;
        put_value(values, Value { at, value: *value })?;
    }
    Ok(())
}

fn put_value(values: &mut Vec<Value>, value: Value) -> Result<(), NoMemory>
    ensures { OnOk result (values.new.items ≡ values.old.items ++ value ∷ []) }
{
    match values.push(value) {
        Ok(()) => Ok(()),
        Err(_) => Err(NoMemory),
    }
}

fn put_start(starts: &mut Vec<Start>, start: Start) -> Result<(), NoMemory>
    ensures { OnOk result (starts.new.items ≡ starts.old.items ++ start ∷ []) }
{
    match starts.push(start) {
        Ok(()) => Ok(()),
        Err(_) => Err(NoMemory),
    }
}
