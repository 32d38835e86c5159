//! The lines of what the processors share.
ghost use Rattle.std.specs.Prelude.{◌≡◌, ◌<◌, ◌/◌, ◌+◌, ◌-◌, ◌*◌, ◌∷◌, [], codes, decimal, length};
ghost use Rattle.qpu_io.specs.Output.{Prints};
ghost use Rattle.qpu_io.specs.Text.{joined, numbered};
ghost use Rattle.qpu_report.specs.Report.{vpm_text, memory_line, memory_text, semaphore_line, mutex_line};

use crate::rows::{is_clear, put_row};
use qpu_io::{Piece, Sink, SinkFailed, put_all};
use qpu_mem::{GROUP, Memory};
use qpu_vpm::Vpm;
use qpu_word::code::{VPM_ROWS, WORD_BYTES};

/// Writes the lines of the VPM's rows.
#[tactic(auto, unfolding(crate::specs::Report::vpm_text))]
pub(crate) fn put_vpm<K: Sink>(vpm: &Vpm, sink: &mut K) -> Result<(), SinkFailed>
    ensures { Prints (K.shown sink.old) (K.shown sink.new) (vpm_text vpm.now) result }
{
    for row in 0..VPM_ROWS {
        put_row(b"vpm ", row, vpm.row(row), sink)?;
    }
    Ok(())
}

/// Writes the line of the k-th group of memory's words, under its byte address, where some word of
/// it isn't 0.
#[tactic(auto, using(qpu_io::proofs::Outputs::appended_none))]
fn put_group<K: Sink>(k: u32, words: &[u32], sink: &mut K) -> Result<(), SinkFailed>
    requires { k < 131072 }
    ensures { Prints (K.shown sink.old) (K.shown sink.new) (memory_line k words.now) result }
{
    if is_clear(words) {
        return Ok(());
    }
    let pieces = [
        Piece::Text(b"mem "),
        Piece::Word(WORD_BYTES * GROUP as u32 * k),
        Piece::Lanes(words),
        Piece::Text(b"\n"),
    ];
    put_all(&pieces, sink)
}

/// Writes the lines of memory's groups.
#[tactic(auto, unfolding(crate::specs::Report::memory_text))]
pub(crate) fn put_memory<K: Sink>(memory: &Memory, sink: &mut K) -> Result<(), SinkFailed>
    ensures { Prints (K.shown sink.old) (K.shown sink.new) (memory_text memory.now) result }
{
    let groups = ((memory.len() as usize + GROUP - 1) / GROUP) as u32;
    for k in 0..groups {
        put_group(k, memory.group(k), sink)?;
    }
    Ok(())
}

/// Writes the line of semaphore n, where its count is above 0.
#[tactic(auto, using(qpu_io::proofs::Outputs::appended_none))]
fn put_semaphore<K: Sink>(n: usize, count: u32, sink: &mut K) -> Result<(), SinkFailed>
    ensures { Prints (K.shown sink.old) (K.shown sink.new) (semaphore_line n count) result }
{
    if count == 0 {
        return Ok(());
    }
    let pieces = [
        Piece::Text(b"sem "),
        Piece::Decimal(n as u64),
        Piece::Text(b" "),
        Piece::Decimal(u64::from(count)),
        Piece::Text(b"\n"),
    ];
    put_all(&pieces, sink)
}

/// Writes the lines of the semaphores.
pub(crate) fn put_semaphores<K: Sink>(counts: &[u32], sink: &mut K) -> Result<(), SinkFailed>
    ensures { Prints (K.shown sink.old) (K.shown sink.new) (numbered semaphore_line 0 counts.now) result }
{
    for (n, count) in counts.iter().enumerate() {
        put_semaphore(n, *count, sink)?;
    }
    Ok(())
}

/// Writes the line of the mutex, where it is held.
#[tactic(auto, using(qpu_io::proofs::Outputs::appended_none))]
pub(crate) fn put_mutex<K: Sink>(holder: Option<u32>, sink: &mut K) -> Result<(), SinkFailed>
    ensures { Prints (K.shown sink.old) (K.shown sink.new) (mutex_line holder) result }
{
    let Some(q) = holder else {
        return Ok(());
    };
    let pieces = [
        Piece::Text(b"mutex "),
        Piece::Decimal(u64::from(q)),
        Piece::Text(b"\n"),
    ];
    put_all(&pieces, sink)
}
