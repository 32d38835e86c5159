//! What calls of macros and instructions do by themselves.
ghost use Rattle.std.specs.Prelude.{◌≡◌, IfOk, option_copied};
ghost use Rattle.qpu_expr.specs.Macros.{called};
ghost use Rattle.qpu_expr.specs.Calls.{call_deed, worked_deed, instruction_deed, judged_deed, other_deed, text_deed};

use crate::deed::{
    Act, Body, Deed, Findings, NO_FINDINGS, behind_first, place_in, plain_line, when,
};
use crate::expanded::PlainLine;
use crate::macros::{Macro, body_replaced, call_of};
use crate::operand::{Work, instruction, is_name};
use crate::state::{Change, State};
use crate::symbol::text_of;
use crate::table::Table;
use qpu_token::Token;
use std::alloc::{AllocError, Global};

/// What the call of a macro does.
#[tactic(auto, unfolding(crate::specs::Calls::call_deed))]
fn call_deed(
    alloc: Global,
    text: &[u8],
    deepest: bool,
    end: Token,
    line: &[Token],
    m: &Macro,
) -> Result<Deed, AllocError>
    ensures { IfOk result (λ deed. deed ≡ call_deed text.now deepest end line.now m.now) }
{
    let call = call_of(alloc, text, end, behind_first(line))?;
    let other = call.arguments.len() != m.parameters.len();
    let lines = body_replaced(alloc, text, &m.parameters, &call.arguments, &m.body)?;
    Ok(Deed {
        findings: Findings {
            deep: when(deepest, place_in(end, line)),
            shape: call.fault.or(when(other, place_in(end, line))),
            ..NO_FINDINGS
        },
        change: Change::Nothing,
        act: Act::Calls(Body { lines }),
    })
}

/// What an instruction does that is worked out.
fn worked_deed(end: Token, work: Work) -> Result<Deed, AllocError>
    ensures { IfOk result (λ deed. deed ≡ worked_deed end work) }
{
    let mut tokens = work.tokens;
    tokens.push(end)?;
    Ok(Deed {
        findings: Findings {
            unknown: work.unknown,
            zero: work.zero,
            ..NO_FINDINGS
        },
        change: Change::Leaves(PlainLine { tokens }),
        act: Act::Nothing,
    })
}

/// What an instruction does.
#[tactic(auto, unfolding(crate::specs::Calls::instruction_deed))]
fn instruction_deed(
    alloc: Global,
    text: &[u8],
    sets: &Table<u32>,
    end: Token,
    line: &[Token],
) -> Result<Deed, AllocError>
    ensures { IfOk result (λ deed. deed ≡ instruction_deed text.now sets.now end line.now) }
{
    let work = instruction(alloc, text, sets, line)?;
    worked_deed(end, work)
}

/// What a line does of which other tokens are left than were worked out.
fn judged_deed(alloc: Global, end: Token, left: &[Token], work: Work) -> Result<Deed, AllocError>
    ensures { IfOk result (λ deed. deed ≡ judged_deed end left.now work) }
{
    let plain = plain_line(alloc, left, end)?;
    Ok(Deed {
        findings: Findings {
            unknown: work.unknown,
            zero: work.zero,
            ..NO_FINDINGS
        },
        change: Change::Leaves(plain),
        act: Act::Nothing,
    })
}

/// What a line does whose directive is none, or whose label isn't due.
#[tactic(auto, unfolding(crate::specs::Calls::other_deed))]
pub(crate) fn other_deed(
    alloc: Global,
    text: &[u8],
    sets: &Table<u32>,
    end: Token,
    left: &[Token],
    line: &[Token],
) -> Result<Deed, AllocError>
    ensures { IfOk result (λ deed. deed ≡ other_deed text.now sets.now end left.now line.now) }
{
    let work = instruction(alloc, text, sets, line)?;
    judged_deed(alloc, end, left, work)
}

/// The macro that a line calls.
pub(crate) fn called<'a>(text: &[u8], macros: &'a Table<Macro>, line: &[Token]) -> Option<&'a Macro>
    ensures { option_copied result ≡ called text.now macros.now line.now }
{
    match line {
        [first, ..] if is_name(text, *first) => macros.get(text_of(text, *first)),
        _ => None,
    }
}

/// What an instruction or a call does.
#[tactic(auto, unfolding(crate::specs::Calls::text_deed))]
pub(crate) fn text_deed(
    alloc: Global,
    text: &[u8],
    state: &State,
    deepest: bool,
    end: Token,
    line: &[Token],
) -> Result<Deed, AllocError>
    ensures { IfOk result (λ deed. deed ≡ text_deed text.now state.now deepest end line.now) }
{
    match called(text, state.macros(), line) {
        Some(m) => call_deed(alloc, text, deepest, end, line, m),
        None => instruction_deed(alloc, text, state.sets(), end, line),
    }
}
