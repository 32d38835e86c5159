//! Reading a job, line after line.

ghost use Rattle.std.specs.Prelude.{◌≡◌, ◌+◌, ◌^◌, ◌<◌, ◌≤◌, ◌&&◌, ◌++◌, ◌∷◌, [], None, Some, length, is_none, IfOk, IfErr, string_bytes, OnOk};
ghost use Rattle.qpu_job.specs.Plan.{plan_of, program_of};
ghost use Rattle.qpu_job.specs.Shapes.{said};
ghost use Rattle.qpu_job.specs.Above.{above_of};
ghost use Rattle.qpu_job.specs.ReadJob.{IsReadJob};
ghost use Rattle.qpu_job.specs.Reading.{is_end, after_shape, after_outside, after_inside, after_line, is_limited, at_end, job_of, GivesJob, GoesOn, IsReadFault};

use crate::above::Above;
use crate::fault::JobFault;
use crate::job::{Job, MOST_PROGRAMS, MOST_TEXT, ProgramText};
use crate::line::content;
use crate::shape::{Shape, shape_of};
use crate::stage::Stage;
use crate::word::words_of;
use qpu_text::first_line;
use qpu_word::NoMemory;
use std::alloc::Global;

/// The job of a text of at most `MOST_TEXT` bytes. The one error beside want of memory is the fault
/// of the first failing line, or that the text ends too early: any kind but `Asm` and `Check`.
#[tactic(auto, unfolding(crate::specs::Reading::job_of))]
pub fn read_job(alloc: Global, text: &str) -> Result<Job, JobFault>
    requires { length text.now ≤ MOST_TEXT }
    ensures answer { GivesJob plan_of result (job_of text.now) }
    ensures keeps { IfOk result (λ job. IsReadJob (plan_of job)) }
    ensures kinds { IfErr result IsReadFault }
{
    let mut above = Above::at_first(alloc);
    let mut rest = text;
    let mut number = 1;
    while !rest.is_empty() {
        let line = first_line(rest);
        above.after_line(alloc, number, line.whole)?;
        rest = line.rest;
        number += 1;
    }
    above.at_end(number)
}

impl Above {
    /// Takes a line, with its line feed, or answers its fault.
    fn after_line(&mut self, alloc: Global, number: u32, line: &str) -> Result<(), JobFault>
        requires number { number + 1 < 2 ^ 32 }
        requires few { length self.old.job.programs.items ≤ MOST_PROGRAMS }
        ensures { GoesOn (above_of self.new) result (after_line number (above_of self.old) line.now) }
    {
        match self.inside.take() {
            None => self.after_outside(alloc, number, line),
            Some(program) => self.after_inside(program, line),
        }
    }

    /// Takes a line outside programs.
    #[tactic(auto, unfolding(crate::specs::Reading::after_outside, crate::specs::Reading::after_shape))]
    fn after_outside(&mut self, alloc: Global, number: u32, line: &str) -> Result<(), JobFault>
        requires number { number + 1 < 2 ^ 32 }
        requires few { length self.old.job.programs.items ≤ MOST_PROGRAMS }
        ensures { GoesOn (above_of self.new) result (after_outside number (above_of self.old) line.now) }
    {
        let words = words_of(alloc, content(line.as_bytes()))?;
        match shape_of(alloc, &words)? {
            None => Err(JobFault::Line(number)),
            Some(shape) => self.after_shape(alloc, number, shape),
        }
    }

    /// Takes a line of a shape.
    #[tactic(auto, unfolding(crate::specs::Reading::after_shape))]
    fn after_shape(&mut self, alloc: Global, number: u32, shape: Shape<'_>) -> Result<(), JobFault>
        requires number { number + 1 < 2 ^ 32 }
        requires few { length self.old.job.programs.items ≤ MOST_PROGRAMS }
        ensures { GoesOn (above_of self.new) result (after_shape number (above_of self.old) (Some (said shape.entry))) }
    {
        match self.first_reason(&shape) {
            None => Ok(self.take(alloc, number, shape)?),
            Some(cause) => Err(cause.at(number)),
        }
    }

    /// Takes a line of a program, or its end.
    #[tactic(auto, unfolding(crate::specs::Reading::after_inside))]
    fn after_inside(&mut self, program: ProgramText, line: &str) -> Result<(), JobFault>
        requires { self.old.inside ≡ None }
        ensures { GoesOn (above_of self.new) result (after_inside (program_of program) (above_of self.old) line.now) }
    {
        let mut program = program;
        if is_end(line) {
            return Ok(put_program(&mut self.job.programs, program)?);
        }
        put_line(&mut program.text, line)?;
        self.inside = Some(program);
        Ok(())
    }

    /// The job, at the end of the text; this is the line after the last.
    #[tactic(auto, unfolding(crate::specs::Reading::at_end))]
    fn at_end(self, number: u32) -> Result<Job, JobFault>
        ensures { GivesJob plan_of result (at_end number (above_of self)) }
    {
        if !self.is_ended() {
            return Err(JobFault::Line(number));
        }
        Ok(self.job)
    }

    /// Whether a job's text may end here.
    fn is_ended(&self) -> bool
        ensures { result ≡ (is_limited self.now.stage && is_none self.now.inside) }
    {
        matches!(self.stage, Stage::Limited) && self.inside.is_none()
    }
}

fn is_end(line: &str) -> bool
    ensures { result ≡ is_end line.now }
{
    content(line.as_bytes()) == b"endprogram".as_slice()
}

fn put_line(text: &mut String, line: &str) -> Result<(), NoMemory>
    ensures { OnOk result (string_bytes text.new ≡ string_bytes text.old ++ line.now) }
{
    match text.push_str(line) {
        Ok(()) => Ok(()),
        Err(_) => Err(NoMemory),
    }
}

fn put_program(programs: &mut Vec<ProgramText>, program: ProgramText) -> Result<(), NoMemory>
    ensures { OnOk result (programs.new.items ≡ programs.old.items ++ program ∷ []) }
{
    match programs.push(program) {
        Ok(()) => Ok(()),
        Err(_) => Err(NoMemory),
    }
}
