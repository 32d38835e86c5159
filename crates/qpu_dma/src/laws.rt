ghost use Rattle.qpu_dma.specs.Once.{EachPlaceOnce};

/// A law: in a transfer that may start no place is written twice, whichever way it goes.
pub fn each_place_once()
    ensures { EachPlaceOnce }
{}
