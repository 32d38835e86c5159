//! What one line does by itself.
ghost use Rattle.std.specs.Prelude.{◌≡◌, ◌++◌, ◌∷◌, [], drop, IfOk};
ghost use Rattle.qpu_expr.specs.Findings.{place_in, place_when, left_deed};
ghost use Rattle.qpu_expr.specs.Directives.{stray_deed};

use crate::expanded::PlainLine;
use crate::line::BodyLine;
use crate::place::{Place, place_of};
use crate::state::Change;
use qpu_token::Token;
use std::alloc::{AllocError, Global};
use std::marker::Model;

/// Lines that are run.
#[derive(Drop)]
pub(crate) struct Body {
    /// The lines.
    pub(crate) lines: Vec<BodyLine>,
}

impl Model for Body {
    ghost use Rattle.std.specs.Prelude.{List};
    ghost use Rattle.qpu_expr.specs.LineTokens.{LineTokens};

    ghost Value = { List LineTokens };

    ghost view = { λ b. b.lines.items };
}

/// What is run behind a line.
#[derive(Drop)]
pub(crate) enum Act {
    /// Nothing.
    Nothing,
    /// The lines behind it, so many times, and then the line that closes them.
    Repeats {
        /// How many times.
        turns: u32,
        /// The place of the repeat.
        place: Place,
        /// How many lines.
        lines: usize,
    },
    /// The lines behind it are passed, and then the line that closes them is reached.
    Passes {
        /// How many lines.
        lines: usize,
    },
    /// The body of a macro.
    Calls(Body),
}

/// The places of a line's faults, the leftmost of each kind.
#[derive(Clone, Copy)]
pub(crate) struct Findings {
    /// A name that isn't set.
    pub(crate) unknown: Option<Place>,
    /// A name that is there already, that of the label aside.
    pub(crate) twice: Option<Place>,
    /// A call or repeat that is nested too deep.
    pub(crate) deep: Option<Place>,
    /// A division by 0.
    pub(crate) zero: Option<Place>,
    /// A token that isn't due.
    pub(crate) shape: Option<Place>,
    /// Too many turns.
    pub(crate) range: Option<Place>,
}

/// What a line does by itself.
#[derive(Drop)]
pub(crate) struct Deed {
    /// Its faults, those of its label and of its length aside.
    pub(crate) findings: Findings,
    /// What it changes.
    pub(crate) change: Change,
    /// What is run behind it.
    pub(crate) act: Act,
}

/// No fault.
pub(crate) const NO_FINDINGS: Findings = Findings {
    unknown: None,
    twice: None,
    deep: None,
    zero: None,
    shape: None,
    range: None,
};

/// The place of the first of tokens, or of the line's end.
pub(crate) fn place_in(end: Token, tokens: &[Token]) -> Place
    ensures { result ≡ place_in end tokens.now }
{
    match tokens {
        [] => place_of(end),
        [token, ..] => place_of(*token),
    }
}

/// A place, where something holds.
pub(crate) fn when(holds: bool, place: Place) -> Option<Place>
    ensures { result ≡ place_when holds place }
{
    if holds { Some(place) } else { None }
}

/// The tokens behind the first.
pub(crate) fn behind_first(line: &[Token]) -> &[Token]
    ensures { result.now ≡ drop 1 line.now }
{
    match line {
        [_, rest @ ..] => rest,
        [] => &[],
    }
}

/// The tokens behind a directive's word.
pub(crate) fn behind_word(line: &[Token]) -> &[Token]
    ensures { result.now ≡ drop 2 line.now }
{
    match line {
        [_, _, rest @ ..] => rest,
        [_] | [] => &[],
    }
}

/// Tokens with the line's end.
pub(crate) fn plain_line(alloc: Global, line: &[Token], end: Token) -> Result<PlainLine, AllocError>
    ensures { IfOk result (λ plain. plain ≡ line.now ++ end ∷ []) }
{
    let mut tokens = Vec::from_slice(alloc, line)?;
    tokens.push(end)?;
    Ok(PlainLine { tokens })
}

/// A line that is left as it is.
pub(crate) fn left_deed(alloc: Global, end: Token, line: &[Token]) -> Result<Deed, AllocError>
    ensures { IfOk result (λ deed. deed ≡ left_deed end line.now) }
{
    let plain = plain_line(alloc, line, end)?;
    Ok(Deed {
        findings: NO_FINDINGS,
        change: Change::Leaves(plain),
        act: Act::Nothing,
    })
}

/// What a line does that closes nothing.
pub(crate) fn stray_deed(end: Token, line: &[Token]) -> Deed
    ensures { result ≡ stray_deed end line.now }
{
    Deed {
        findings: Findings {
            shape: Some(place_in(end, line)),
            ..NO_FINDINGS
        },
        change: Change::Nothing,
        act: Act::Nothing,
    }
}
