//! The expansion of a text.
ghost use Rattle.std.specs.Prelude.{◌≡◌, ◌+◌, drop, slice_get};
ghost use Rattle.qpu_expr.specs.Stage.{turn_counted};
ghost use Rattle.qpu_token.specs.Stops.{Leads};
ghost use Rattle.qpu_expr.specs.Expansion.{turns, closed, performed, taken, run_within};
ghost use Rattle.qpu_expr.specs.Nesting.{is_deepest, below};

use crate::deed::Act;
use crate::directive::front;
use crate::judge::{close_line, take_line};
use crate::line::BodyLine;
use crate::place::{Place, fault_at};
use crate::state::State;
use qpu_token::{AsmKind, Stop};
use std::alloc::Global;

/// Whether nothing more may be nested.
fn is_deepest(depth: u32) -> bool
    ensures { result ≡ is_deepest depth }
{
    depth == 0
}

/// The lines behind a line that aren't done with it.
fn behind_act<'a>(act: &Act, behind: &'a [BodyLine]) -> &'a [BodyLine]
    ensures { result.now ≡ drop (taken act.now) behind.now }
{
    match act {
        Act::Nothing | Act::Calls(_) => behind,
        Act::Repeats { lines, .. } | Act::Passes { lines } => behind_body(*lines, behind),
    }
}

/// The lines behind a body and the line that closes it.
fn behind_body(lines: usize, behind: &[BodyLine]) -> &[BodyLine]
    ensures { result.now ≡ drop (lines + 1) behind.now }
{
    if lines < behind.len() {
        &behind[lines + 1..]
    } else {
        &[]
    }
}

/// Reaches the line that closes a body, where there is one.
fn close(
    alloc: Global,
    text: &[u8],
    lines: usize,
    behind: &[BodyLine],
    state: &mut State,
) -> Result<(), Stop>
    ensures { Leads (closed text.now (slice_get behind.now lines) state.old) state.new result }
{
    match behind.get(lines) {
        Some(line) => {
            close_line(alloc, text, line, state)?;
            Ok(())
        }
        None => Ok(()),
    }
}

/// Counts a turn of a repeat.
fn count_turn(place: Place, state: &mut State) -> Result<(), Stop>
    ensures { Leads (turn_counted place state.old) state.new result }
{
    if state.count_turn() {
        Ok(())
    } else {
        Err(Stop::Fault(fault_at(AsmKind::TooLong, place)))
    }
}

/// Runs lines that are nested by one more.
#[cycle(running)]
fn run_below(
    alloc: Global,
    text: &[u8],
    lines: &[BodyLine],
    depth: u32,
    state: &mut State,
) -> Result<(), Stop>
    ensures { Leads (below text.now depth lines.now state.old) state.new result }
{
    if is_deepest(depth) {
        return Ok(());
    }
    run_lines(alloc, text, lines, depth - 1, state)
}

/// Runs a body so many times.
#[cycle(running)]
fn repeat(
    alloc: Global,
    text: &[u8],
    body: &[BodyLine],
    times: u32,
    place: Place,
    depth: u32,
    state: &mut State,
) -> Result<(), Stop>
    ensures { Leads (turns (below text.now depth body.now) place times state.old) state.new result }
{
    for _turn in 0..times {
        count_turn(place, state)?;
        run_below(alloc, text, body, depth, state)?;
    }
    Ok(())
}

/// Does what a line asks for.
#[cycle(running)]
fn perform(
    alloc: Global,
    text: &[u8],
    act: &Act,
    behind: &[BodyLine],
    depth: u32,
    state: &mut State,
) -> Result<(), Stop>
    ensures { Leads (performed text.now (below text.now depth) act.now behind.now state.old) state.new result }
{
    match act {
        Act::Nothing => Ok(()),
        Act::Repeats {
            turns,
            place,
            lines,
        } => {
            repeat(
                alloc,
                text,
                front(behind, *lines),
                *turns,
                *place,
                depth,
                state,
            )?;
            close(alloc, text, *lines, behind, state)
        }
        Act::Passes { lines } => close(alloc, text, *lines, behind, state),
        Act::Calls(body) => run_below(alloc, text, &body.lines, depth, state),
    }
}

/// Runs lines in which so many macros and repeats may stand one in another.
#[cycle(running)]
pub(crate) fn run_lines(
    alloc: Global,
    text: &[u8],
    lines: &[BodyLine],
    depth: u32,
    state: &mut State,
) -> Result<(), Stop>
    ensures { Leads (run_within text.now depth lines.now state.old) state.new result }
{
    let mut rest = lines;
    while let [line, behind @ ..] = rest {
        let act = take_line(alloc, text, is_deepest(depth), line, behind, state)?;
        perform(alloc, text, &act, behind, depth, state)?;
        rest = behind_act(&act, behind);
    }
    Ok(())
}
