//! What lines with `.set`, `.rep` and `.macro` do by themselves.
ghost use Rattle.std.specs.Prelude.{◌≡◌, take, IfOk};
ghost use Rattle.qpu_expr.specs.Settings.{is_whole, value_in, zero_in};
ghost use Rattle.qpu_expr.specs.Findings.{misshapen};
ghost use Rattle.qpu_expr.specs.Directives.{set_to, set_deed, repeat_by, repeat_deed, names_twice, defined, macro_by, macro_deed};

use crate::deed::{Act, Deed, Findings, NO_FINDINGS, behind_word, left_deed, place_in, when};
use crate::expression::Parsed;
use crate::limits::MOST_TURNS;
use crate::line::{BodyLine, Pair, body_length};
use crate::macros::{Macro, is_comma, names_of, repeated};
use crate::operand::is_name;
use crate::place::{Place, place_of};
use crate::setting::{Expression, Setting, read_expression, set_value};
use crate::state::Change;
use crate::symbol::text_of;
use crate::table::Table;
use qpu_token::Token;
use std::alloc::{AllocError, Global};

impl Parsed {
    /// Whether it is an expression.
    fn is_whole(self) -> bool
        ensures { result ≡ is_whole self }
    {
        matches!(self, Parsed::Whole(_))
    }

    /// The number of an expression without a fault.
    fn value(self) -> u32
        ensures { result ≡ value_in self }
    {
        match self {
            Parsed::Whole(Ok(value)) => value,
            Parsed::Whole(Err(_)) | Parsed::Cut | Parsed::Extra(_) => 0,
        }
    }

    /// The place of a division by 0.
    fn zero(self) -> Option<Place>
        ensures { result ≡ zero_in self }
    {
        match self {
            Parsed::Whole(Err(place)) => Some(place),
            Parsed::Whole(Ok(_)) | Parsed::Cut | Parsed::Extra(_) => None,
        }
    }

    /// Where tokens are no expression; their first has a place.
    fn misshapen(self, first: Place) -> Option<Place>
        ensures { result ≡ misshapen first self }
    {
        match self {
            Parsed::Whole(_) => None,
            Parsed::Cut => Some(first),
            Parsed::Extra(place) => Some(place),
        }
    }
}

/// What `.set` does with a name and what stands behind the sign `,`.
fn set_to(
    alloc: Global,
    end: Token,
    line: &[Token],
    twice: bool,
    name: Token,
    first: Place,
    e: Expression,
) -> Result<Deed, AllocError>
    ensures { IfOk result (λ deed. deed ≡ set_to end line.now twice name first e) }
{
    if !e.outcome.is_whole() {
        return left_deed(alloc, end, line);
    }
    Ok(Deed {
        findings: Findings {
            unknown: when(e.unknown, first),
            twice: when(twice, place_of(name)),
            deep: None,
            zero: e.outcome.zero(),
            shape: None,
            range: None,
        },
        change: Change::Sets(Setting {
            name,
            value: e.outcome.value(),
        }),
        act: Act::Nothing,
    })
}

/// What a line with `.set` does.
#[tactic(auto, unfolding(crate::specs::Directives::set_deed))]
pub(crate) fn set_deed(
    alloc: Global,
    text: &[u8],
    sets: &Table<u32>,
    end: Token,
    line: &[Token],
) -> Result<Deed, AllocError>
    ensures { IfOk result (λ deed. deed ≡ set_deed text.now sets.now end line.now) }
{
    match behind_word(line) {
        [name, comma, value @ ..] if is_name(text, *name) && is_comma(text, *comma) => {
            let twice = set_value(sets, text_of(text, *name)).is_some();
            let e = read_expression(alloc, text, sets, value)?;
            set_to(alloc, end, line, twice, *name, place_in(end, value), e)
        }
        _ => left_deed(alloc, end, line),
    }
}

/// What `.rep` does with an expression and the length of its body.
fn repeat_by(deepest: bool, dot: Place, first: Place, e: Expression, body: Option<usize>) -> Deed
    ensures { result ≡ repeat_by deepest dot first e body }
{
    let turns = e.outcome.value();
    Deed {
        findings: Findings {
            unknown: when(e.outcome.is_whole() && e.unknown, first),
            twice: None,
            deep: when(deepest, dot),
            zero: e.outcome.zero(),
            shape: when(body.is_none(), dot).or(e.outcome.misshapen(first)),
            range: when(turns > MOST_TURNS, first),
        },
        change: Change::Nothing,
        act: Act::Repeats {
            turns,
            place: dot,
            lines: body.unwrap_or(0),
        },
    }
}

/// What a line with `.rep` does.
#[tactic(auto, unfolding(crate::specs::Directives::repeat_deed))]
pub(crate) fn repeat_deed(
    alloc: Global,
    text: &[u8],
    sets: &Table<u32>,
    deepest: bool,
    end: Token,
    line: &[Token],
    behind: &[BodyLine],
) -> Result<Deed, AllocError>
    ensures { IfOk result (λ deed. deed ≡ repeat_deed text.now sets.now deepest end line.now behind.now) }
{
    let count = behind_word(line);
    let e = read_expression(alloc, text, sets, count)?;
    let body = body_length(alloc, Pair::Repeat, text, behind)?;
    Ok(repeat_by(deepest, place_in(end, line), place_in(end, count), e, body))
}

/// The place of the macro's name where it is there already, or of the first parameter that is.
fn names_twice(text: &[u8], macros: &Table<Macro>, names: &[Token]) -> Option<Place>
    ensures { result ≡ names_twice text.now macros.now names.now }
{
    match names {
        [] => None,
        [name, parameters @ ..] => {
            let there = macros.get(text_of(text, *name)).is_some();
            when(there, place_of(*name)).or(repeated(text, parameters))
        }
    }
}

/// A copy of lines.
fn copy_lines(alloc: Global, lines: &[BodyLine]) -> Result<Vec<BodyLine>, AllocError>
    ensures { IfOk result (λ copy. copy.items ≡ lines.now) }
{
    let mut copy = Vec::new(alloc);
    for line in lines {
        copy.push(line.copy(alloc)?)?;
    }
    Ok(copy)
}

/// The first of lines, so many as there are.
pub(crate) fn front(lines: &[BodyLine], most: usize) -> &[BodyLine]
    ensures { result.now ≡ take most lines.now }
{
    &lines[..most.min(lines.len())]
}

/// The macro of a heading.
fn defined(alloc: Global, names: &[Token], body: &[BodyLine]) -> Result<Change, AllocError>
    ensures { IfOk result (λ change. change ≡ defined names.now body.now) }
{
    match names {
        [] => Ok(Change::Nothing),
        [name, parameters @ ..] => {
            let parameters = Vec::from_slice(alloc, parameters)?;
            let body = copy_lines(alloc, body)?;
            Ok(Change::Defines(Macro {
                name: *name,
                parameters,
                body,
            }))
        }
    }
}

/// The faults of a heading and of the length of its body.
fn macro_by(dot: Place, fault: Option<Place>, twice: Option<Place>, body: Option<usize>) -> Findings
    ensures { result ≡ macro_by dot fault twice body }
{
    let shape = if body.is_none() { Some(dot) } else { fault };
    Findings {
        twice,
        shape,
        ..NO_FINDINGS
    }
}

/// What a line with `.macro` does.
#[tactic(auto, unfolding(crate::specs::Directives::macro_deed))]
pub(crate) fn macro_deed(
    alloc: Global,
    text: &[u8],
    macros: &Table<Macro>,
    end: Token,
    line: &[Token],
    behind: &[BodyLine],
) -> Result<Deed, AllocError>
    ensures { IfOk result (λ deed. deed ≡ macro_deed text.now macros.now end line.now behind.now) }
{
    let heading = names_of(alloc, text, behind_word(line))?;
    let body = body_length(alloc, Pair::Macro, text, behind)?;
    let change = defined(alloc, heading.names(), front(behind, body.unwrap_or(0)))?;
    let twice = names_twice(text, macros, heading.names());
    Ok(Deed {
        findings: macro_by(place_in(end, line), heading.fault(end), twice, body),
        change,
        act: Act::Passes {
            lines: body.unwrap_or(0),
        },
    })
}
