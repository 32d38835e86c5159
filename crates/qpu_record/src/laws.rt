//! Laws of what records are.

ghost use Rattle.qpu_record.specs.Apart.{SpellsOneSchedule, KeepsSteps};
ghost use Rattle.qpu_record.specs.Grammar.{RecordsAreRead, ReadsRecordsAlone, ReadsEveryRecord};

/// A law: a record spells one schedule, up to how neighbouring steps of one actor are counted.
#[tactic(auto, using(crate::proofs::Apart::spells_one_schedule))]
pub fn spells_one_schedule()
    ensures { SpellsOneSchedule }
{}

/// A law: the runs of a record spell the steps of the schedule that it was written of.
pub fn keeps_steps()
    ensures { KeepsSteps }
{}

/// A law: a record that was written is read back, whatever follows it.
pub fn records_are_read()
    ensures { RecordsAreRead }
{}

/// A law: the texts that are read as records are exactly those of the grammar, each with what it
/// has.
pub fn reads_the_grammar()
    ensures alone { ReadsRecordsAlone }
    ensures every { ReadsEveryRecord }
{}
