//! What a line past the limit of tokens tells, read token by token.
ghost use Rattle.std.specs.Prelude.{◌≡◌, ◌≤◌, IfOk, OnOk, drop, fold};
ghost use Rattle.qpu_expr.specs.Walks.{walked};
ghost use Rattle.qpu_expr.specs.Settings.{expression, is_whole};
ghost use Rattle.qpu_expr.specs.Operands.{instruction_work};
ghost use Rattle.qpu_expr.specs.Macros.{names_of};
ghost use Rattle.qpu_expr.specs.Directives.{names_twice};
ghost use Rattle.qpu_expr.specs.Forms.{is_form};
ghost use Rattle.qpu_expr.specs.Tolds.{label_length, set_to_told, set_told, repeat_told, macro_told, parts_told, call_told, text_told, told_by, told_of};
ghost use Rattle.qpu_expr.specs.Lines.{behind_label, head_of};

use crate::call::called;
use crate::deed::{Findings, NO_FINDINGS, behind_word, place_in, when};
use crate::form::Outline;
use crate::heading::Heading;
use crate::line::{BodyLine, Head, Line, Pair, behind_label, head_of, label_of};
use crate::macros::is_comma;
use crate::operand::is_name;
use crate::place::{Place, place_of};
use crate::scan::Scan;
use crate::setting::set_value;
use crate::state::State;
use crate::symbol::text_of;
use crate::table::Table;
use crate::walk::{Walk, read_behind};
use qpu_token::Token;
use std::alloc::{AllocError, Global};

/// What a line past the limit of tokens finds of the kinds up to that of the limit.
#[derive(Clone, Copy)]
pub(crate) struct Told {
    /// Whether it is left, and so gives a word.
    pub(crate) word: bool,
    /// What it finds.
    pub(crate) findings: Findings,
}

/// Nothing, of a line that is taken out.
pub(crate) const NOTHING_TOLD: Told = Told {
    word: false,
    findings: NO_FINDINGS,
};

/// Nothing, of a line that is left.
const LEFT_TOLD: Told = Told {
    word: true,
    findings: NO_FINDINGS,
};

/// Reads the tokens of a line behind its first ones.
fn read_line(
    walk: &mut Walk,
    text: &[u8],
    sets: &Table<u32>,
    skip: usize,
    line: &BodyLine,
) -> Result<(), AllocError>
    ensures { OnOk result (walk.new ≡ fold (walked text.now sets.now) walk.old (drop skip line.now.tokens)) }
{
    read_behind(walk, text, sets, skip, &line.pieces)
}

/// Whether the tokens of a line behind its first ones are an expression, and whether a name in it isn't set.
#[tactic(auto, using(crate::proofs::WalkedLemmas::number_whole, crate::proofs::WalkedLemmas::number_unknown))]
fn number_behind(
    text: &[u8],
    sets: &Table<u32>,
    skip: usize,
    line: &BodyLine,
) -> Result<Outline, AllocError>
    ensures whole { IfOk result (λ o. is_form o.form ≡ is_whole (expression text.now sets.now (drop skip line.now.tokens)).outcome) }
    ensures unknown { IfOk result (λ o. o.unknown ≡ (expression text.now sets.now (drop skip line.now.tokens)).unknown) }
{
    let mut walk = Walk::Number(Outline::new());
    read_line(&mut walk, text, sets, skip, line)?;
    Ok(walk.outline())
}

/// The place of the first operand behind the first tokens of a line with a name that isn't set.
#[tactic(auto, using(crate::proofs::WalkedLemmas::parts_lack))]
fn parts_behind(
    text: &[u8],
    sets: &Table<u32>,
    skip: usize,
    line: &BodyLine,
) -> Result<Option<Place>, AllocError>
    ensures { IfOk result (λ place. place ≡ (instruction_work text.now sets.now (drop skip line.now.tokens)).unknown) }
{
    let mut walk = Walk::Parts(Scan::new());
    read_line(&mut walk, text, sets, skip, line)?;
    walk.lacks(text, sets)
}

/// The place of the first name of a macro's heading behind the first tokens of a line that is there
/// already.
fn names_behind(
    alloc: Global,
    text: &[u8],
    state: &State,
    skip: usize,
    line: &BodyLine,
) -> Result<Option<Place>, AllocError>
    ensures { IfOk result (λ place. place ≡ names_twice text.now state.now.macros (names_of text.now (drop skip line.now.tokens)).names) }
{
    let mut walk = Walk::Names(Heading::new(alloc));
    read_line(&mut walk, text, state.sets(), skip, line)?;
    Ok(walk.twice(text, state.macros()))
}

/// How many tokens a line's label has.
fn label_length(text: &[u8], tokens: &[Token]) -> usize
    ensures value { result ≡ label_length text.now tokens.now }
    ensures few { result ≤ 2 }
{
    if label_of(text, tokens).is_some() {
        2
    } else {
        0
    }
}

/// What `.set` with a name and a sign `,` finds, by whether an expression follows and lacks a name.
fn set_to_told(twice: bool, name: Token, first: Place, whole: bool, unknown: bool) -> Told
    ensures { result ≡ set_to_told twice name first whole unknown }
{
    if !whole {
        return LEFT_TOLD;
    }
    Told {
        word: false,
        findings: Findings {
            unknown: when(unknown, first),
            twice: when(twice, place_of(name)),
            ..NO_FINDINGS
        },
    }
}

/// What a line with `.set` finds.
fn set_told(
    text: &[u8],
    sets: &Table<u32>,
    end: Token,
    front: &[Token],
    value: usize,
    line: &BodyLine,
) -> Result<Told, AllocError>
    ensures { IfOk result (λ t. t ≡ set_told text.now sets.now end front.now (drop value line.now.tokens)) }
{
    match behind_word(front) {
        [name, comma, rest @ ..] if is_name(text, *name) && is_comma(text, *comma) => {
            let twice = set_value(sets, text_of(text, *name)).is_some();
            let o = number_behind(text, sets, value, line)?;
            let first = place_in(end, rest);
            Ok(set_to_told(twice, *name, first, o.form.is_whole(), o.unknown))
        }
        _ => Ok(LEFT_TOLD),
    }
}

/// What a line with `.rep` finds.
fn repeat_told(
    text: &[u8],
    sets: &Table<u32>,
    deepest: bool,
    end: Token,
    front: &[Token],
    count: usize,
    line: &BodyLine,
) -> Result<Told, AllocError>
    ensures { IfOk result (λ t. t ≡ repeat_told text.now sets.now deepest end front.now (drop count line.now.tokens)) }
{
    let o = number_behind(text, sets, count, line)?;
    Ok(Told {
        word: false,
        findings: Findings {
            unknown: when(o.lacks(), place_in(end, behind_word(front))),
            deep: when(deepest, place_in(end, front)),
            ..NO_FINDINGS
        },
    })
}

/// What a line with `.macro` finds.
fn macro_told(
    alloc: Global,
    text: &[u8],
    state: &State,
    names: usize,
    line: &BodyLine,
) -> Result<Told, AllocError>
    ensures { IfOk result (λ t. t ≡ macro_told text.now state.now.macros (drop names line.now.tokens)) }
{
    let twice = names_behind(alloc, text, state, names, line)?;
    Ok(Told {
        word: false,
        findings: Findings {
            twice,
            ..NO_FINDINGS
        },
    })
}

/// What a line of parts finds.
fn parts_told(
    text: &[u8],
    sets: &Table<u32>,
    at: usize,
    line: &BodyLine,
) -> Result<Told, AllocError>
    ensures { IfOk result (λ t. t ≡ parts_told text.now sets.now (drop at line.now.tokens)) }
{
    let unknown = parts_behind(text, sets, at, line)?;
    Ok(Told {
        word: true,
        findings: Findings {
            unknown,
            ..NO_FINDINGS
        },
    })
}

/// What the call of a macro finds.
fn call_told(deepest: bool, end: Token, front: &[Token]) -> Told
    ensures { result ≡ call_told deepest end front.now }
{
    Told {
        word: false,
        findings: Findings {
            deep: when(deepest, place_in(end, front)),
            ..NO_FINDINGS
        },
    }
}

/// What an instruction or a call finds.
fn text_told(
    text: &[u8],
    state: &State,
    deepest: bool,
    front: &[Token],
    at: usize,
    line: &BodyLine,
) -> Result<Told, AllocError>
    ensures { IfOk result (λ t. t ≡ text_told text.now state.now deepest line.now.end front.now (drop at line.now.tokens)) }
{
    if called(text, state.macros(), front).is_some() {
        return Ok(call_told(deepest, line.end, front));
    }
    parts_told(text, state.sets(), at, line)
}

/// What a long line finds, by its first tokens and what they begin with.
fn told_by(
    alloc: Global,
    text: &[u8],
    state: &State,
    deepest: bool,
    first: &Line,
    line: &BodyLine,
    head: Head,
) -> Result<Told, AllocError>
    ensures { IfOk result (λ t. t ≡ told_by text.now state.now deepest line.now.end (behind_label text.now first.now.tokens) (label_length text.now first.now.tokens) line.now.tokens head) }
{
    let end = line.end;
    let sets = state.sets();
    let front = behind_label(text, &first.tokens);
    let at = label_length(text, &first.tokens);
    match head {
        Head::Nothing | Head::Closes(_) => Ok(NOTHING_TOLD),
        Head::Set => set_told(text, sets, end, front, at + 4, line),
        Head::Opens(Pair::Repeat) => repeat_told(text, sets, deepest, end, front, at + 2, line),
        Head::Opens(Pair::Macro) => macro_told(alloc, text, state, at + 2, line),
        Head::Word => Ok(LEFT_TOLD),
        Head::Other => parts_told(text, sets, at, line),
        Head::Instruction => text_told(text, state, deepest, front, at, line),
    }
}

/// What a long line finds, by its first tokens and by all of them.
pub(crate) fn told_of(
    alloc: Global,
    text: &[u8],
    state: &State,
    deepest: bool,
    first: &Line,
    line: &BodyLine,
) -> Result<Told, AllocError>
    ensures { IfOk result (λ t. t ≡ told_of text.now state.now deepest first.now line.now) }
{
    let head = head_of(text, behind_label(text, &first.tokens));
    told_by(alloc, text, state, deepest, first, line, head)
}
