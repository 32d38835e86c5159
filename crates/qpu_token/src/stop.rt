use crate::fault::{AsmFault, NO_MEMORY};
use std::alloc::AllocError;

/// Why a stage of the assembler stops early.
#[derive(Clone, Copy)]
pub enum Stop {
    /// A fault of the text.
    Fault(AsmFault),
    /// Want of memory.
    Memory,
}

impl From<AllocError> for Stop {
    ghost use Rattle.std.specs.Prelude.{◌≡◌};
    ghost use Rattle.qpu_token.specs.declared.stop.Stop.TheVariants.{Memory};

    ghost from_gives = { λ _ stop. stop ≡ Memory };

    fn from(_: AllocError) -> Stop {
        Stop::Memory
    }
}

impl From<AsmFault> for Stop {
    ghost use Rattle.std.specs.Prelude.{◌≡◌};
    ghost use Rattle.qpu_token.specs.declared.stop.Stop.TheVariants.{Fault};

    ghost from_gives = { λ fault stop. stop ≡ Fault fault };

    fn from(fault: AsmFault) -> Stop {
        Stop::Fault(fault)
    }
}

impl Stop {
    ghost use Rattle.std.specs.Prelude.{◌≡◌};
    ghost use Rattle.qpu_token.specs.Stops.{answered};

    /// What is answered.
    pub fn fault(self) -> AsmFault
        ensures { result ≡ answered self }
    {
        match self {
            Stop::Fault(fault) => fault,
            Stop::Memory => NO_MEMORY,
        }
    }
}
