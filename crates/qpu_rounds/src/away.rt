//! A processor away from its machine.
ghost use Rattle.std.specs.Prelude.{◌≡◌, ◌≤◌};
ghost use Rattle.qpu_machine.specs.Local.{LocalSteps};
ghost use Rattle.qpu_rounds.specs.Away.{words_in, IsReady, IsReadyAt, HasRun, HasRunAt};

use qpu_hazard::Programs;
use qpu_local::Processor;
use qpu_machine::{program_at, stretch};

/// How many local words of a processor are run before others share in the work: a thread costs what
/// some thousands of words do.
pub(crate) const PORTION: u32 = 8192;

/// How many instructions a processor that has executed so many has executed after a portion, where the
/// limit allows it.
fn portion_end(limit: u32, executed: u32) -> u32
    ensures { result ≤ limit }
{
    limit.min(executed.saturating_add(PORTION))
}

/// A processor away from its machine, the index of its program, and how many local words it has taken
/// there.
#[derive(Clone, Copy, Debug)]
pub(crate) struct Away {
    pub(crate) processor: Processor,
    pub(crate) program: u32,
    pub(crate) steps: u64,
}

impl Away {
    /// Runs a portion of the local words of a processor that has taken none yet.
    pub(crate) fn begin(&mut self, programs: &Programs, limit: u32)
        requires limit { limit ≤ 1000000 }
        requires ready { IsReady programs.now.list.items self.old }
        ensures program { self.new.program ≡ self.old.program }
        ensures steps { LocalSteps (words_in programs.now.list.items self.old) limit self.old.processor self.new.steps self.new.processor }
        ensures few { self.new.steps ≤ limit }
    {
        let portion = portion_end(limit, self.processor.executed());
        self.steps = stretch(
            &mut self.processor,
            program_at(programs, self.program),
            portion,
        );
    }

    /// Runs the local words that are left.
    fn run(&mut self, programs: &Programs, limit: u32)
        requires limit { limit ≤ 1000000 }
        requires ready { IsReady programs.now.list.items self.old }
        ensures { HasRun programs.now.list.items limit self.old self.new }
    {
        self.steps += stretch(
            &mut self.processor,
            program_at(programs, self.program),
            limit,
        );
    }

    /// Whether it has used up its portion.
    pub(crate) fn is_long(&self) -> bool {
        self.steps >= PORTION as u64
    }
}

/// Runs the local words that are left of a processor that is away.
pub(crate) fn run_at(programs: &Programs, limit: u32, away: &mut Option<Away>)
    requires limit { limit ≤ 1000000 }
    requires ready { IsReadyAt programs.now.list.items away.old }
    ensures { HasRunAt programs.now.list.items limit away.old away.new }
{
    if let Some(away) = away {
        away.run(programs, limit);
    }
}
