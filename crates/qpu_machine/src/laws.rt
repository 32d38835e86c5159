ghost use Rattle.qpu_machine.specs.OneSerial.{HasOneSerialSchedule};
ghost use Rattle.qpu_machine.specs.Journal.{SpellsMore};
ghost use Rattle.qpu_machine.specs.Opening.{OpensSound, BoundsSchedules, TracesArePaths};
ghost use Rattle.qpu_machine.specs.Gains.{SchedulesRun};
ghost use Rattle.qpu_machine.specs.AtRest.{FinalIsAtRest, RunsOutAtLimit};

/// A law: a machine has one serial schedule, and it leads to one machine.
#[tactic(auto, using(crate::proofs::OneSerialLaw::one_serial))]
pub fn one_serial_schedule()
    ensures { HasOneSerialSchedule }
{}

/// A law: what a journal spells after more steps of an actor were added is what it spelled before,
/// and then those steps.
#[tactic(auto, using(crate::proofs::JournalLemmas::spells_more))]
pub fn journal_spells()
    ensures { SpellsMore }
{}

/// A law: each permitted schedule of a sound machine, and so each sequence of calls of `Machine::step`,
/// leaves it sound. It has no more steps than the
/// machine had left, and of each processor no more instructions; the words that it executes for a
/// processor go on the path that the processor comes from and break no rule, so no step reads an
/// undefined result.
#[tactic(auto, using(crate::proofs::RunLaw::schedules_run))]
pub fn schedules_run()
    ensures { SchedulesRun }
{}

/// A law: a machine before any step is sound.
#[tactic(auto, using(crate::proofs::OpeningLaw::sound_opening))]
pub fn opening_is_sound()
    ensures { OpensSound }
{}

/// A law: from a machine before any step on, each trace is a path of its program and breaks no rule.
#[tactic(auto, using(crate::proofs::OpeningLaw::traces_are_paths))]
pub fn traces_are_paths()
    ensures { TracesArePaths }
{}

/// A law: from a machine before any step on, a permitted schedule has at most the limit of
/// instructions for each processor, and 81 steps for each of these in all: the instruction, and the
/// rows of a load, the rows of a store or the look-up that it starts.
#[tactic(auto, using(crate::proofs::OpeningLaw::bounds_schedules))]
pub fn schedules_are_bounded()
    ensures { BoundsSchedules }
{}

/// A law: in a final machine no move is pending, and each running processor awaits the mutex or a
/// semaphore.
#[tactic(auto, using(crate::proofs::AtRestLaw::final_rests))]
pub fn final_machines_rest()
    ensures { FinalIsAtRest }
{}

/// A law: a processor ran out exactly where it neither ended nor faulted and has executed the limit.
#[tactic(auto, using(crate::proofs::AtRestLaw::runs_out))]
pub fn running_out_is_at_the_limit()
    ensures { RunsOutAtLimit }
{}
