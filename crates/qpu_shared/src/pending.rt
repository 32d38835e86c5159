//! What each processor has pending.
ghost use Rattle.std.specs.Prelude.{◌≡◌, replicate};
ghost use Rattle.qpu_shared.specs.SharedState.{nothing_pending};

use qpu_dma::Transfer;
use qpu_tmu::Lookups;
use qpu_word::code;

/// How many processors may have something pending.
pub(crate) const PROCESSORS: usize = code::PROCESSORS as usize;

/// What a processor has pending.
#[derive(Debug, Drop)]
pub struct Pending {
    /// A load that was started.
    pub load: Option<Transfer>,
    /// A store that was started.
    pub store: Option<Transfer>,
    /// The look-ups of both TMU units.
    pub looks: Lookups,
}

impl Pending {
    /// Nothing pending.
    fn new() -> Pending
        ensures { result ≡ nothing_pending }
    {
        Pending {
            load: None,
            store: None,
            looks: Lookups::new(),
        }
    }

    /// An equal one.
    fn copy(&self) -> Pending
        ensures { result ≡ self.now }
    {
        Pending {
            load: self.load,
            store: self.store,
            looks: self.looks.copy(),
        }
    }
}

/// Nothing pending for any processor.
pub(crate) fn clear() -> [Pending; PROCESSORS]
    ensures { result ≡ replicate 12 nothing_pending }
{
    [
        Pending::new(),
        Pending::new(),
        Pending::new(),
        Pending::new(),
        Pending::new(),
        Pending::new(),
        Pending::new(),
        Pending::new(),
        Pending::new(),
        Pending::new(),
        Pending::new(),
        Pending::new(),
    ]
}

/// Equal ones for all processors.
pub(crate) fn copies(all: &[Pending; PROCESSORS]) -> [Pending; PROCESSORS]
    ensures { result ≡ all.now }
{
    let mut copies = clear();
    for q in 0..PROCESSORS {
        copies[q] = all[q].copy();
    }
    copies
}
