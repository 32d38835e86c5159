//! Processors are sent away from their machine, and run their local words there.
ghost use Rattle.std.specs.Prelude.{◌≤◌, ◌<◌, ℕ, None, slice_index_or};
ghost use Rattle.qpu_rounds.specs.Away.{IsSentAt, IsBackAt};

use crate::away::Away;
use crate::looking::may_run_long;
use crate::stretching::run_all;
use qpu_machine::Machine;
use std::thread::Threads;

/// A copy of processor q, below 12, after a portion of its local words; none where it wasn't started.
fn sent(machine: &Machine, q: u32) -> Option<Away>
    requires { q < 12 }
    ensures { IsSentAt machine.now.state q result }
{
    machine.keeps();
    let processor = machine.processor(q)?;
    let mut away = Away {
        processor: *processor,
        program: machine.program_of(q),
        steps: 0,
    };
    away.begin(machine.programs(), machine.limit());
    Some(away)
}

/// Sends processor q, below 12, away, where it may have many local words.
fn send(machine: &Machine, q: u32, away: &mut Option<Away>)
    requires { q < 12 }
    ensures { IsSentAt machine.now.state q away.new }
{
    *away = None;
    if may_run_long(machine, q) {
        *away = sent(machine, q);
    }
}

/// Sends away those that may have many local words.
fn send_all(machine: &Machine, away: &mut [Option<Away>; 12])
    ensures { (q : ℕ) → IsSentAt machine.now.state q (slice_index_or away.new q None) }
{
    for q in 0..12u32 {
        send(machine, q, &mut away[q as usize]);
    }
}

/// Runs the local words of those that may have many, by so many workers at once at most.
pub(crate) fn stretch_all<R: Threads + Sync>(
    rt: &R,
    machine: &Machine,
    workers: u32,
    away: &mut [Option<Away>; 12],
)
    ensures { (q : ℕ) → q < 12 → IsBackAt machine.now.state q (slice_index_or away.new q None) }
{
    machine.keeps();
    send_all(machine, away);
    run_all(rt, machine.programs(), machine.limit(), workers, away);
}
