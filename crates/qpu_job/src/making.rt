//! The machine of a job before any step.
ghost use Rattle.std.specs.Prelude.{◌≡◌, ◌<◌, ◌≤◌, All, IfOk, IfErr, fold, length, replicate};
ghost use Rattle.std.specs.Arc.{arc_value};
ghost use Rattle.qpu_job.specs.declared.job.Value.{Value as ValueOf};
ghost use Rattle.qpu_word.specs.declared.code.TheConstants.{MEMORY_WORDS};
ghost use Rattle.qpu_job.specs.Plan.{plan_of};
ghost use Rattle.qpu_job.specs.ReadJob.{IsReadJob};
ghost use Rattle.qpu_job.specs.Opening.{with_value, IsMakeFault, Opens};

use crate::checking::check_programs;
use crate::code::read_codes;
use crate::fault::JobFault;
use crate::job::{Job, Value};
use arrayvec::ArrayVec;
use qpu_hazard::Programs;
use qpu_machine::{Machine, Start};
use qpu_mem::Memory;
use qpu_word::{NoMemory, code};
use std::alloc::Global;
use std::sync::Arc;

/// Processors of a machine.
const PROCESSORS: usize = code::PROCESSORS as usize;

/// So many words, with these values: of two for one word the later stands.
fn memory_of(alloc: Global, words: u32, values: &[Value]) -> Result<Memory, NoMemory>
    requires some { 0 < words }
    requires most { words ≤ MEMORY_WORDS }
    requires inside { All (λ (value : ValueOf). value.at < words) values.now }
    ensures { IfOk result (λ memory. memory ≡ fold with_value (replicate words 0) values.now) }
{
    let mut memory = Memory::new(alloc, words)?;
    for value in values {
        memory.set(value.at, value.value);
    }
    Ok(memory)
}

/// The starts, at most twelve.
fn starts_of(starts: &[Start]) -> ArrayVec<Start, PROCESSORS>
    requires { length starts.now ≤ 12 }
    ensures { result.items ≡ starts.now }
{
    match ArrayVec::try_from(starts) {
        Ok(starts) => starts,
        Err(_) => unreachable!(),
    }
}

/// Shared programs.
fn shared(alloc: Global, programs: Programs) -> Result<Arc<Programs>, NoMemory>
    ensures { IfOk result (λ shared. arc_value shared ≡ programs) }
{
    match Arc::new(alloc, programs) {
        Ok(shared) => Ok(shared),
        Err(_) => Err(NoMemory),
    }
}

/// The machine of a job before any step: its programs' words, all of which are in the profile and
/// no path of which breaks a hazard rule; its memory with its values; its processors at word 0.
///
/// The job keeps the bounds on its parts, as each that `read_job` answers does. All programs are
/// assembled before any is checked: `Asm` tells the fault of the first that isn't assembled, with its
/// line in the job. Then come words outside the profile, and then hazards, each of the first program
/// that has one: `Check`. Want of memory is `Memory` wherever it comes.
pub fn make_machine(alloc: Global, job: &Job) -> Result<Machine, JobFault>
    requires { IsReadJob (plan_of job.now) }
    ensures ok { IfOk result (λ machine. Opens (plan_of job.now) machine) }
    ensures err { IfErr result (λ fault. IsMakeFault (plan_of job.now) fault) }
{
    let codes = read_codes(alloc, &job.programs)?;
    let programs = shared(alloc, check_programs(alloc, &codes)?)?;
    let memory = memory_of(alloc, job.words, &job.values)?;
    Ok(Machine::new(alloc, memory, job.limit, programs, starts_of(&job.starts)))
}

#[cfg(test)]
mod tests;
