//! The local words that are left of processors away from their machine, shared out among workers.
ghost use Rattle.std.specs.Prelude.{◌≡◌, ◌≤◌, length};
ghost use Rattle.std.specs.Thread.{IsSync};
ghost use Rattle.qpu_rounds.specs.Away.{AreReady, HaveRun};

use crate::away::{Away, run_at};
use qpu_hazard::Programs;
use std::thread::{Threads, join_mut};

/// Runs what is left of each, one after another.
fn run_in_turn(programs: &Programs, limit: u32, away: &mut [Option<Away>])
    requires limit { limit ≤ 1000000 }
    requires ready { AreReady programs.now.list.items away.old }
    ensures { HaveRun programs.now.list.items limit away.old away.new }
{
    for at in 0..away.len() {
        run_at(programs, limit, &mut away[at]);
    }
}

/// Whether a processor is away and has used up its portion.
fn is_long(away: &Option<Away>) -> bool {
    match away {
        Some(away) => away.is_long(),
        None => false,
    }
}

/// How many of them have used up their portion.
fn long_ones(all: &[Option<Away>]) -> usize {
    all.iter().filter(|away| is_long(away)).count()
}

/// The place behind so many that have used up their portion.
fn behind(all: &[Option<Away>], many: usize) -> usize
    ensures { result ≤ length all.now }
{
    let mut left = many;
    for at in 0..all.len() {
        if left == 0 {
            return at;
        }
        left = left.saturating_sub(is_long(&all[at]) as usize);
    }
    all.len()
}

/// Runs what is left of each, by so many workers at once at most. Those that have used up their portion
/// are shared out evenly.
#[cycle(halves)]
pub(crate) fn run_all<R: Threads + Sync>(
    rt: &R,
    programs: &Programs,
    limit: u32,
    workers: u32,
    away: &mut [Option<Away>],
)
    requires limit { limit ≤ 1000000 }
    requires ready { AreReady programs.now.list.items away.old }
    ensures { HaveRun programs.now.list.items limit away.old away.new }
{
    let long = long_ones(away);
    if workers < 2 || long < 2 {
        run_in_turn(programs, limit, away);
        return;
    }
    let few = workers / 2;
    let place = behind(away, long.saturating_mul(few as usize) / workers as usize);
    let (front, back) = away.split_at_mut(place);
    run_both(rt, programs, limit, few, front, workers - few, back);
}

/// Runs two parts at once, each by so many workers.
#[cycle(halves)]
fn run_both<R: Threads + Sync>(
    rt: &R,
    programs: &Programs,
    limit: u32,
    few: u32,
    front: &mut [Option<Away>],
    many: u32,
    back: &mut [Option<Away>],
)
    requires some { (1 ≤ few) × (1 ≤ many) }
    requires limit { limit ≤ 1000000 }
    requires front { AreReady programs.now.list.items front.old }
    requires back { AreReady programs.now.list.items back.old }
    ensures front { HaveRun programs.now.list.items limit front.old front.new }
    ensures back { HaveRun programs.now.list.items limit back.old back.new }
{
    join_mut(
        rt,
        &mut ||
            requires { IsSync R.row × (limit ≤ 1000000) × AreReady programs.now.list.items front.now }
            ensures { HaveRun programs.entry.now.list.items limit front.entry.now front.exit.now }
        { run_all(rt, programs, limit, few, front) },
        &mut ||
            requires { IsSync R.row × (limit ≤ 1000000) × AreReady programs.now.list.items back.now }
            ensures { HaveRun programs.entry.now.list.items limit back.entry.now back.exit.now }
        { run_all(rt, programs, limit, many, back) },
    );
}
