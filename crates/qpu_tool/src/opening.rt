//! The machine of a job's text.
ghost use Rattle.std.specs.Prelude.{◌≡◌, ◌≢◌, ◌≤◌, Err, IfOk, length, map};
ghost use Rattle.qpu_job.specs.Plan.{Program, plan_of, programs_of};
ghost use Rattle.qpu_job.specs.ReadJob.{IsReadJob};
ghost use Rattle.qpu_tool.specs.declared.refusal.Refusal.TheVariants as why;
ghost use Rattle.qpu_tool.specs.declared.command.TheConstants.{MOST_RECORD};
ghost use Rattle.qpu_tool.specs.Opening.{IsMade, IsOpened, refusal_of};

use crate::name::ProgramName;
use crate::refusal::Refusal;
use qpu_job::{Job, JobFault, ProgramText, make_machine, read_job};
use qpu_machine::Machine;
use qpu_word::NoMemory;
use std::alloc::Global;

/// What a job's text comes to: its machine before any step, or why it has none.
pub(crate) type Opened = Result<Machine, Refusal>;

/// Why a job with these programs is refused; want of memory is no refusal.
fn refused(alloc: Global, programs: &[ProgramText], fault: JobFault) -> Result<Refusal, NoMemory>
    ensures { IfOk result (λ refusal. (fault ≢ JobFault.Memory) × (refusal ≡ refusal_of (map (λ (p : Program). p.name) (programs_of programs.now)) fault)) }
{
    match fault {
        JobFault::Memory => Err(NoMemory),
        JobFault::Asm(told) => Ok(Refusal::Asm(told)),
        JobFault::Check { program, fault } => {
            let name = ProgramName::of(alloc, programs, program)?;
            Ok(Refusal::Hazard(Some(name), fault))
        }
        other => Ok(Refusal::Job(other)),
    }
}

/// Why a text is no job; want of memory is no refusal.
fn unread(fault: JobFault) -> Result<Opened, NoMemory>
    ensures { IfOk result (λ opened. (opened ≡ Err (why.Job fault)) × (fault ≢ JobFault.Memory)) }
{
    match fault {
        JobFault::Memory => Err(NoMemory),
        _ => Ok(Err(Refusal::Job(fault))),
    }
}

/// Makes the machine of a job that was read.
fn made(alloc: Global, job: &Job) -> Result<Opened, NoMemory>
    requires { IsReadJob (plan_of job.now) }
    ensures { IfOk result (IsMade (plan_of job.now)) }
{
    match make_machine(alloc, job) {
        Ok(machine) => Ok(Ok(machine)),
        Err(fault) => Ok(Err(refused(alloc, &job.programs, fault)?)),
    }
}

/// Reads a job, and makes its machine.
pub(crate) fn opened(alloc: Global, text: &str) -> Result<Opened, NoMemory>
    requires { length text.now ≤ MOST_RECORD }
    ensures { IfOk result (IsOpened text.now) }
{
    match read_job(alloc, text) {
        Ok(job) => made(alloc, &job),
        Err(fault) => unread(fault),
    }
}
