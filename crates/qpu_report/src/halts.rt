//! How a processor of a final machine stands.
ghost use Rattle.std.specs.Prelude.{◌≡◌, true, [], ◌∷◌, codes, decimal};
ghost use Rattle.qpu_io.specs.Output.{Prints};
ghost use Rattle.qpu_io.specs.Text.{joined};
ghost use Rattle.qpu_report.specs.Report.{fault_text, setup_fault_text, going_text};

use qpu_io::{Piece, Sink, SinkFailed, put_all, write_all_of};
use qpu_shared::Cause;
use qpu_word::{FaultKind, SetupFault};

/// The name of a setup's fault.
fn setup_fault_name(fault: SetupFault) -> &'static [u8]
    ensures { result.now ≡ setup_fault_text fault }
{
    match fault {
        SetupFault::Size => b"Setup Size",
        SetupFault::Kind => b"Setup Kind",
        SetupFault::Width => b"Setup Width",
        SetupFault::Block => b"Setup Block",
    }
}

/// The name of a fault.
fn fault_name(kind: FaultKind) -> &'static [u8]
    ensures { result.now ≡ fault_text kind }
{
    match kind {
        FaultKind::Uniform => b"Uniform",
        FaultKind::NoSetup => b"NoSetup",
        FaultKind::SetupsFull => b"SetupsFull",
        FaultKind::Setup(fault) => setup_fault_name(fault),
        FaultKind::Transfer => b"Transfer",
        FaultKind::LookUp => b"LookUp",
        FaultKind::Branch => b"Branch",
    }
}

/// Writes that a processor faulted, and at which place.
pub(crate) fn put_fault<K: Sink>(kind: FaultKind, at: u32, sink: &mut K) -> Result<(), SinkFailed>
    ensures { Prints (K.shown sink.old) (K.shown sink.new)
        (joined (codes "faulted " ∷ fault_text kind ∷ codes " at " ∷ decimal at ∷ [])) result }
{
    let pieces = [
        Piece::Text(b"faulted "),
        Piece::Text(fault_name(kind)),
        Piece::Text(b" at "),
        Piece::Decimal(u64::from(at)),
    ];
    put_all(&pieces, sink)
}

/// Writes that a processor awaits a word without a number, and at which place.
fn put_awaits<K: Sink>(what: &[u8], place: u32, sink: &mut K) -> Result<(), SinkFailed>
    ensures { Prints (K.shown sink.old) (K.shown sink.new)
        (joined (codes "awaits " ∷ what.now ∷ codes " at " ∷ decimal place ∷ [])) result }
{
    let pieces = [
        Piece::Text(b"awaits "),
        Piece::Text(what),
        Piece::Text(b" at "),
        Piece::Decimal(u64::from(place)),
    ];
    put_all(&pieces, sink)
}

/// Writes that a processor awaits a semaphore to go a way, and at which place.
fn put_semaphore<K: Sink>(n: u32, way: &[u8], place: u32, sink: &mut K) -> Result<(), SinkFailed>
    ensures { Prints (K.shown sink.old) (K.shown sink.new)
        (joined (codes "awaits " ∷ (joined (codes "semaphore " ∷ decimal n ∷ way.now ∷ [])) ∷ codes " at " ∷ decimal place ∷ [])) result }
{
    let pieces = [
        Piece::Text(b"awaits semaphore "),
        Piece::Decimal(u64::from(n)),
        Piece::Text(way),
        Piece::Text(b" at "),
        Piece::Decimal(u64::from(place)),
    ];
    put_all(&pieces, sink)
}

/// Writes what a processor that is running awaits, and at which place.
pub(crate) fn put_cause<K: Sink>(
    cause: Option<Cause>,
    place: u32,
    sink: &mut K,
) -> Result<(), SinkFailed>
    ensures { Prints (K.shown sink.old) (K.shown sink.new) (going_text true cause place) result }
{
    match cause {
        Some(Cause::Mutex) => put_awaits(b"mutex", place, sink),
        Some(Cause::Up(n)) => put_semaphore(n, b" up", place, sink),
        Some(Cause::Down(n)) => put_semaphore(n, b" down", place, sink),
        _ => put_awaits(b"", place, sink),
    }
}
