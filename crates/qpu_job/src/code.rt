//! The words of a job's programs.
ghost use Rattle.std.specs.Prelude.{◌≡◌, ◌≤◌, length, IfOk, IfErr};
ghost use Rattle.std.specs.List.{All};
ghost use Rattle.qpu_word.specs.Words.{numbers_of};
ghost use Rattle.qpu_job.specs.Plan.{program_of, programs_of};
ghost use Rattle.qpu_job.specs.ReadJob.{IsProgram};
ghost use Rattle.qpu_job.specs.Programs.{line_in_job, fault_in_job, IsCode, IsCodeFault, HaveCodes, IsCodesFault, codes_of};
ghost use Rattle.qpu_job.specs.Opening.{IsShort};

use crate::fault::JobFault;
use crate::job::ProgramText;
use qpu_asm::assemble;
use qpu_token::{AsmFault, AsmKind};
use qpu_word::Word;
use std::alloc::Global;

/// The words of a program.
#[derive(Debug, Drop)]
pub(crate) struct Code {
    /// The words, at most 4,096, from place 0 on.
    pub(crate) words: Vec<Word>,
}

/// The job's line of a line of a text that begins at this line of the job, where all count from 1.
fn line_in_job(first: u32, line: u32) -> u32
    ensures { result ≡ line_in_job first line }
{
    first.saturating_add(line.saturating_sub(1))
}

/// The fault of a text that begins at this line of the job, with its line in the job.
fn fault_in_job(first: u32, own: AsmFault) -> AsmFault
    ensures { result ≡ fault_in_job first own }
{
    AsmFault {
        kind: own.kind,
        line: line_in_job(first, own.line),
        column: own.column,
    }
}

/// The words of a program. The one error beside want of memory is `Asm`.
fn read_code(alloc: Global, program: &ProgramText) -> Result<Code, JobFault>
    requires { IsProgram (program_of program.now) }
    ensures ok { IfOk result (λ code. IsCode (program_of program.now).text (numbers_of code.words.items)) }
    ensures short { IfOk result (λ code. IsShort (numbers_of code.words.items)) }
    ensures err { IfErr result (λ fault. IsCodeFault (program_of program.now) fault) }
{
    match assemble(alloc, program.text.as_str()) {
        Ok(words) => Ok(Code { words }),
        Err(own) => {
            if own.kind == AsmKind::Memory {
                return Err(JobFault::Memory);
            }
            Err(JobFault::Asm(fault_in_job(program.line, own)))
        }
    }
}

/// The words of each program, or the fault of the first that isn't assembled.
pub(crate) fn read_codes(alloc: Global, programs: &[ProgramText]) -> Result<Vec<Code>, JobFault>
    requires { All IsProgram (programs_of programs.now) }
    ensures ok { IfOk result (λ codes. HaveCodes (programs_of programs.now) (codes_of codes.items)) }
    ensures short { IfOk result (λ codes. All IsShort (codes_of codes.items)) }
    ensures err { IfErr result (λ fault. IsCodesFault (programs_of programs.now) fault) }
{
    let mut codes = Vec::new(alloc);
    for program in programs {
        let code = read_code(alloc, program)?;
        let Ok(()) = codes.push(code) else {
            return Err(JobFault::Memory);
        };
    }
    Ok(codes)
}
