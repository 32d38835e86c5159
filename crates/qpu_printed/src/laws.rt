//! Laws of the texts of records and reports, and of what a record gives back.

ghost use Rattle.qpu_printed.specs.Ascii.{AsciiHasNoneAbove, NoneAboveIsAscii, PrintedHasNoneAbove, RecordsAreAscii, ReportsAreAscii};
ghost use Rattle.qpu_printed.specs.Items.{MergedSpells, SchedulesHaveItems};
ghost use Rattle.qpu_printed.specs.Readable.{PrintedRecordsAreRead};

/// A law: a text of ASCII has no byte above the last of ASCII.
pub fn ascii_has_none_above()
    ensures { AsciiHasNoneAbove }
{}

/// A law: a text that has no byte above the last of ASCII is ASCII.
pub fn none_above_is_ascii()
    ensures { NoneAboveIsAscii }
{}

/// A law: the record of a job in ASCII is ASCII, whatever schedule it has.
pub fn records_are_ascii()
    ensures { RecordsAreAscii }
{}

/// A law: the report of a machine is ASCII, whatever its state.
pub fn reports_are_ascii()
    ensures { ReportsAreAscii }
{}

/// A law: a record and a report behind it have no byte above the last of ASCII, where the job has none.
pub fn printed_has_none_above()
    ensures { PrintedHasNoneAbove }
{}

/// A law: a schedule with neighbouring steps of one actor put together spells the schedule.
pub fn merged_spells()
    ensures { MergedSpells }
{}

/// A law: what a schedule that is permitted from a machine before any step is put together to are
/// items of a record: of processors and units that there are, and of no more steps than an item has.
pub fn schedules_have_items()
    ensures { SchedulesHaveItems }
{}

/// A law: the record of a job and a schedule that is permitted from a machine before any step is read
/// back, whatever follows it.
pub fn printed_records_are_read()
    ensures { PrintedRecordsAreRead }
{}
