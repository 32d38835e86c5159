//! The name of a job's program, as a refusal has it.
ghost use Rattle.std.specs.Prelude.{◌≡◌, IfOk, map};
ghost use Rattle.qpu_job.specs.Plan.{Program, programs_of};
ghost use Rattle.qpu_tool.specs.Refusals.{name_at};

use qpu_job::ProgramText;
use qpu_word::NoMemory;
use std::alloc::Global;
use std::marker::Model;

/// The name of a program.
#[derive(Debug, Drop)]
pub struct ProgramName {
    name: String,
}

impl Model for ProgramName {
    ghost use Rattle.std.specs.Prelude.{ℕ, List, string_bytes};

    ghost Value = { List ℕ };

    ghost view = { λ name. string_bytes name.name };
}

impl ProgramName {
    /// The name of a program of the list; an empty one past its end.
    pub(crate) fn of(
        alloc: Global,
        programs: &[ProgramText],
        program: u32,
    ) -> Result<Self, NoMemory>
        ensures { IfOk result (λ name. name ≡ name_at (map (λ (p : Program). p.name) (programs_of programs.now)) program) }
    {
        let text = name_in(programs, program);
        match String::from_str(alloc, text) {
            Ok(name) => Ok(ProgramName { name }),
            Err(_) => Err(NoMemory),
        }
    }

    /// Its bytes.
    pub(crate) fn bytes(&self) -> &[u8]
        ensures { result.now ≡ self.now }
    {
        self.name.as_bytes()
    }
}

/// The name of a program of the list; none past its end.
fn name_in(programs: &[ProgramText], program: u32) -> &str
    ensures { result.now ≡ name_at (map (λ (p : Program). p.name) (programs_of programs.now)) program }
{
    let at = program as usize;
    if at >= programs.len() {
        return "";
    }
    programs[at].name.as_str()
}
