//! Why a journal is not taken.

ghost use Rattle.std.specs.Prelude.{◌≡◌};
ghost use Rattle.qpu_replay.specs.declared.fault.WidenFault.TheVariants.{Memory};

use qpu_word::NoMemory;

/// Why a journal is no complete permitted schedule of a machine (this project's own).
#[derive(Clone, Copy, Debug, PartialEq, Eq)]
pub enum ReplayFault {
    /// A step isn't enabled where it stands, and each before it was.
    NotEnabled {
        /// The number of its run in the journal, counted from 1.
        item: u64,
        /// Its number among the steps of that run, counted from 1.
        step: u64,
    },
    /// Every step was taken, and something can still move.
    NotFinished,
}

/// Why a journal of whole transfers isn't widened (this project's own).
#[derive(Clone, Copy, Debug, PartialEq, Eq)]
pub enum WidenFault {
    /// It is no complete permitted schedule. Runs and steps are counted in it, before it is widened.
    Replay(ReplayFault),
    /// Want of memory.
    Memory,
}

impl From<NoMemory> for WidenFault {
    ghost from_gives = { λ _ fault. fault ≡ Memory };

    fn from(_want: NoMemory) -> WidenFault {
        WidenFault::Memory
    }
}
