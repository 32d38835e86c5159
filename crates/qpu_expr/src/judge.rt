//! A line by itself: its fault, or what it does.
ghost use Rattle.std.specs.Prelude.{◌≡◌, ◌<◌, List, ℕ, Option, Some, length, take, is_some, IfOk};
ghost use Rattle.qpu_token.specs.declared.fault.AsmFault.{AsmFault};
ghost use Rattle.qpu_expr.specs.declared.limits.TheConstants.{MOST_TOKENS};
ghost use Rattle.qpu_expr.specs.LineTokens.{LineTokens};
ghost use Rattle.qpu_expr.specs.Stage.{too_long, label_twice};
ghost use Rattle.qpu_expr.specs.Answer.{Led};
ghost use Rattle.qpu_expr.specs.Lines.{behind_label, head_of, label_of, left_tokens};
ghost use Rattle.qpu_expr.specs.Deeds.{deed_by, fault_in, least_fault, done_by, line_does, closing_deed, closes};

use crate::call::{other_deed, text_deed};
use crate::deed::{Act, Deed, Findings, NO_FINDINGS, behind_word, left_deed, stray_deed};
use crate::directive::{macro_deed, repeat_deed, set_deed};
use crate::line::{BodyLine, Head, Line, Pair, behind_label, head_of, is_colon, label_of};
use crate::place::{Place, fault_at, place_of};
use crate::state::{Change, State};
use crate::told::{NOTHING_TOLD, Told, told_of};
use qpu_token::{AsmFault, AsmKind, Stop, Token};
use std::alloc::{AllocError, Global};

/// The tokens of a line that is left, behind its label; with it where a second one follows.
fn left_tokens<'a>(text: &[u8], whole: &'a [Token], line: &'a [Token]) -> &'a [Token]
    ensures { result.now ≡ left_tokens text.now whole.now line.now }
{
    match line {
        [first, ..] if is_colon(text, *first) => whole,
        _ => line,
    }
}

/// What a line does, by the tokens behind its label.
fn deed_of(
    alloc: Global,
    text: &[u8],
    state: &State,
    deepest: bool,
    line: &Line,
    behind: &[BodyLine],
) -> Result<Deed, AllocError>
    ensures { IfOk result (λ deed. deed ≡ deed_by text.now state.now deepest line.now.end line.now.tokens (behind_label text.now line.now.tokens) behind.now (head_of text.now (behind_label text.now line.now.tokens))) }
{
    let end = line.end;
    let whole: &[Token] = &line.tokens;
    let line = behind_label(text, whole);
    match head_of(text, line) {
        Head::Nothing => Ok(Deed {
            findings: NO_FINDINGS,
            change: Change::Nothing,
            act: Act::Nothing,
        }),
        Head::Set => set_deed(alloc, text, state.sets(), end, line),
        Head::Opens(Pair::Repeat) => repeat_deed(
            alloc,
            text,
            state.sets(),
            deepest,
            end,
            line,
            behind,
        ),
        Head::Opens(Pair::Macro) => macro_deed(alloc, text, state.macros(), end, line, behind),
        Head::Closes(_) => Ok(stray_deed(end, line)),
        Head::Word => left_deed(alloc, end, line),
        Head::Other => other_deed(
            alloc,
            text,
            state.sets(),
            end,
            left_tokens(text, whole, line),
            line,
        ),
        Head::Instruction => text_deed(alloc, text, state, deepest, end, line),
    }
}

/// A fault at a place, where there is one.
fn fault_in(kind: AsmKind, place: Option<Place>) -> Option<AsmFault>
    ensures { result ≡ fault_in kind place }
{
    match place {
        Some(place) => Some(fault_at(kind, place)),
        None => None,
    }
}

/// The fault of a line.
fn least_fault(label: Option<Place>, long: Option<Place>, f: Findings) -> Option<AsmFault>
    ensures { result ≡ least_fault label long f }
{
    fault_in(AsmKind::UnknownName, f.unknown)
        .or(fault_in(AsmKind::Twice, label.or(f.twice)))
        .or(fault_in(AsmKind::TooDeep, f.deep))
        .or(fault_in(AsmKind::TooLong, long))
        .or(fault_in(AsmKind::DivideByZero, f.zero))
        .or(fault_in(AsmKind::Shape, f.shape))
        .or(fault_in(AsmKind::Range, f.range))
}

/// Does what a line does, unless it has a fault.
#[tactic(auto, unfolding(crate::specs::Deeds::done_by))]
fn do_deed(
    alloc: Global,
    text: &[u8],
    line: &Line,
    deed: Deed,
    state: &mut State,
) -> Result<Act, Stop>
    ensures { Led (done_by text.now line.now deed state.old) state.new result }
{
    let label = label_of(text, &line.tokens);
    let long = state.too_long(line, deed.change.leaves());
    if let Some(fault) = least_fault(state.label_twice(text, label), long, deed.findings) {
        return Err(Stop::Fault(fault));
    }
    state.count(line);
    state.put_label(alloc, text, label)?;
    state.change(alloc, text, deed.change)?;
    Ok(deed.act)
}

/// The fault of a line with more tokens than a text may reach, by its first tokens and what it finds.
fn long_fault(text: &[u8], state: &State, first: &Line, told: Told) -> AsmFault
    requires { MOST_TOKENS < length first.now.tokens }
    ensures { least_fault (label_twice text.now state.now.labels (label_of text.now first.now.tokens)) (too_long state.now first.now told.word) told.findings ≡ Some result }
{
    let label = state.label_twice(text, label_of(text, &first.tokens));
    let long = state.too_long(first, told.word);
    match least_fault(label, long, told.findings) {
        Some(fault) => fault,
        None => unreachable!(),
    }
}

/// The fault of a line with more tokens than a text may reach, of which no more are held.
fn long_line(
    alloc: Global,
    text: &[u8],
    state: &State,
    deepest: bool,
    line: &BodyLine,
) -> Result<AsmFault, AllocError>
    requires { MOST_TOKENS < length line.now.tokens }
    ensures { IfOk result (λ fault. (behind : List LineTokens) → line_does text.now deepest line.now behind state.now ≡ Err fault) }
{
    let first = line.first(alloc)?;
    let told = told_of(alloc, text, state, deepest, &first, line)?;
    Ok(long_fault(text, state, &first, told))
}

/// The fault of a line with more tokens than a text may reach that closes a body.
fn long_close(
    alloc: Global,
    text: &[u8],
    state: &State,
    line: &BodyLine,
) -> Result<AsmFault, AllocError>
    requires { MOST_TOKENS < length line.now.tokens }
    ensures { IfOk result (λ fault. closes text.now line.now state.now ≡ Err fault) }
{
    let first = line.first(alloc)?;
    Ok(long_fault(text, state, &first, NOTHING_TOLD))
}

/// Does what a line does by itself.
#[tactic(auto, unfolding(crate::specs::Deeds::line_does))]
pub(crate) fn take_line(
    alloc: Global,
    text: &[u8],
    deepest: bool,
    line: &BodyLine,
    behind: &[BodyLine],
    state: &mut State,
) -> Result<Act, Stop>
    ensures { Led (line_does text.now deepest line.now behind.now state.old) state.new result }
{
    let Some(whole) = line.whole(alloc)? else {
        return Err(Stop::Fault(long_line(alloc, text, state, deepest, line)?));
    };
    let deed = deed_of(alloc, text, state, deepest, &whole, behind)?;
    do_deed(alloc, text, &whole, deed, state)
}

/// The faults of the line that closes a body.
fn closing_deed(line: &[Token]) -> Deed
    ensures { result ≡ closing_deed line.now }
{
    let shape = match behind_word(line) {
        [token, ..] => Some(place_of(*token)),
        [] => None,
    };
    Deed {
        findings: Findings {
            shape,
            ..NO_FINDINGS
        },
        change: Change::Nothing,
        act: Act::Nothing,
    }
}

/// Reaches the line that closes a body.
#[tactic(auto, unfolding(crate::specs::Deeds::closes))]
pub(crate) fn close_line(
    alloc: Global,
    text: &[u8],
    line: &BodyLine,
    state: &mut State,
) -> Result<Act, Stop>
    ensures { Led (closes text.now line.now state.old) state.new result }
{
    let Some(whole) = line.whole(alloc)? else {
        return Err(Stop::Fault(long_close(alloc, text, state, line)?));
    };
    let deed = closing_deed(behind_label(text, &whole.tokens));
    do_deed(alloc, text, &whole, deed, state)
}
