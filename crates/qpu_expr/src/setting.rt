//! Names that are set, and expressions over them.
ghost use Rattle.std.specs.Prelude.{◌≡◌, IfOk, map};
ghost use Rattle.std.specs.List.{list_any};
ghost use Rattle.qpu_expr.specs.Expressions.{parsed_of};
ghost use Rattle.qpu_expr.specs.Tables.{found};
ghost use Rattle.qpu_expr.specs.Settings.{what_is, item_of, is_unknown, expression};

use crate::expression::{Item, Parsed, Reader, What};
use crate::place::place_of;
use crate::symbol::{Sign, Symbol, symbol_of, text_of};
use crate::table::Table;
use qpu_token::Token;
use std::alloc::{AllocError, Global};

/// A name that is set.
#[derive(Clone, Copy)]
pub(crate) struct Setting {
    /// The name.
    pub(crate) name: Token,
    /// Its number.
    pub(crate) value: u32,
}

/// What tokens come to as an expression.
#[derive(Clone, Copy)]
pub(crate) struct Expression {
    /// Their worth, where they are one.
    pub(crate) outcome: Parsed,
    /// Whether a name among them isn't set.
    pub(crate) unknown: bool,
}

/// The value of a name; none where it isn't set.
pub(crate) fn set_value(sets: &Table<u32>, name: &[u8]) -> Option<u32>
    ensures { result ≡ found name.now sets.now }
{
    sets.get(name).copied()
}

/// What a token is in an expression.
fn what_is(text: &[u8], sets: &Table<u32>, token: Token, symbol: Symbol) -> What
    ensures { result ≡ what_is text.now sets.now token symbol }
{
    match symbol {
        Symbol::Name => What::Value(set_value(sets, text_of(text, token)).unwrap_or(0)),
        Symbol::Number(value) => What::Value((value & 0xffff_ffff) as u32),
        Symbol::Sign(Sign::Open) => What::Open,
        Symbol::Sign(Sign::Close) => What::Close,
        Symbol::Sign(Sign::Invert) => What::Invert,
        Symbol::Sign(Sign::Binary(operator)) => What::Binary(operator),
        Symbol::Sign(_) | Symbol::LineEnd => What::Other,
    }
}

/// A token as an item of an expression.
#[tactic(auto, unfolding(crate::specs::Settings::item_of))]
pub(crate) fn item_of(text: &[u8], sets: &Table<u32>, token: Token) -> Item
    ensures { result ≡ item_of text.now sets.now token }
{
    Item {
        what: what_is(text, sets, token, symbol_of(text, token)),
        place: place_of(token),
    }
}

/// Whether a token is a name that isn't set.
#[tactic(auto, unfolding(crate::specs::Settings::is_unknown))]
pub(crate) fn is_unknown(text: &[u8], sets: &Table<u32>, token: Token) -> bool
    ensures { result ≡ is_unknown text.now sets.now token }
{
    match symbol_of(text, token) {
        Symbol::Name => set_value(sets, text_of(text, token)).is_none(),
        Symbol::Number(_) | Symbol::Sign(_) | Symbol::LineEnd => false,
    }
}

/// Whether a name among tokens isn't set.
fn has_unknown(text: &[u8], sets: &Table<u32>, tokens: &[Token]) -> bool
    ensures { result ≡ list_any (is_unknown text.now sets.now) tokens.now }
{
    tokens.iter().any(|token| is_unknown(text, sets, *token))
}

/// Reads tokens as an expression.
#[tactic(auto, using(crate::proofs::ReadingLemmas::read_more))]
fn outcome_of(
    alloc: Global,
    text: &[u8],
    sets: &Table<u32>,
    tokens: &[Token],
) -> Result<Parsed, AllocError>
    ensures { IfOk result (λ outcome. outcome ≡ parsed_of (map (item_of text.now sets.now) tokens.now)) }
{
    let mut reader = Reader::new(alloc);
    for token in tokens {
        reader.read(item_of(text, sets, *token))?;
    }
    Ok(reader.finish())
}

/// What tokens come to as an expression.
#[tactic(auto, unfolding(crate::specs::Settings::expression))]
pub(crate) fn read_expression(
    alloc: Global,
    text: &[u8],
    sets: &Table<u32>,
    tokens: &[Token],
) -> Result<Expression, AllocError>
    ensures { IfOk result (λ e. e ≡ expression text.now sets.now tokens.now) }
{
    let outcome = outcome_of(alloc, text, sets, tokens)?;
    Ok(Expression {
        outcome,
        unknown: has_unknown(text, sets, tokens),
    })
}
