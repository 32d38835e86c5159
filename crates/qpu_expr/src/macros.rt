//! Macros: their headings, their calls, and what replaces their parameters.
ghost use Rattle.std.specs.Prelude.{◌≡◌, ◌++◌, ◌∷◌, [], None, true, IfOk, OnOk, option_copied, position};
ghost use Rattle.std.specs.List.{list_any, flat_map};
ghost use Rattle.std.specs.Option.{option_or};
ghost use Rattle.qpu_expr.specs.Symbols.{is_named};
ghost use Rattle.qpu_expr.specs.Pieces.{joined};
ghost use Rattle.qpu_expr.specs.Headings.{name_twice};
ghost use Rattle.qpu_expr.specs.Macros.{is_comma, Names, no_name, named_on, names_of, heading_fault, repeated_in, Arguments, no_argument, empty_place, argued, arguments_read, arguments_of, argument_fault, argument_for, replaced, line_replaced, body_replaced};

use crate::deed::{behind_first, when};
use crate::line::BodyLine;
use crate::operand::is_name;
use crate::piece::{Argument, Piece};
use crate::place::{Place, place_of};
use crate::symbol::{Sign, Symbol, is_named, symbol_of, text_of};
use qpu_token::Token;
use std::alloc::{AllocError, Global};
use std::marker::Model;
use std::mem;

/// A macro.
#[derive(Drop)]
pub(crate) struct Macro {
    /// Its name.
    pub(crate) name: Token,
    /// Its parameters.
    pub(crate) parameters: Vec<Token>,
    /// The lines of its body.
    pub(crate) body: Vec<BodyLine>,
}

impl Model for Macro {
    ghost use Rattle.qpu_expr.specs.MacroTokens.{MacroTokens};

    ghost Value = { MacroTokens };

    ghost view = { λ m. record { name = m.name; parameters = m.parameters.items; body = m.body.items } };
}

/// Whether a token is a sign `,`.
pub(crate) fn is_comma(text: &[u8], token: Token) -> bool
    ensures { result ≡ is_comma text.now token }
{
    matches!(symbol_of(text, token), Symbol::Sign(Sign::Comma))
}

/// Names that are being read.
#[derive(Drop)]
pub(crate) struct NameList {
    names: Vec<Token>,
    due: bool,
    fault: Option<Place>,
}

impl Model for NameList {
    ghost use Rattle.qpu_expr.specs.Macros.{Names};

    ghost Value = { Names };

    ghost view = { λ n. record { names = n.names.items; due = n.due; fault = n.fault } };
}

impl NameList {
    /// Nothing is read yet.
    pub(crate) fn new(alloc: Global) -> NameList
        ensures { result ≡ no_name }
    {
        NameList {
            names: Vec::new(alloc),
            due: true,
            fault: None,
        }
    }

    /// Reads a token where a name is due.
    fn read_name(&mut self, text: &[u8], token: Token) -> Result<(), AllocError>
        requires due { self.old.due ≡ true }
        requires clean { self.old.fault ≡ None }
        ensures { OnOk result (self.new ≡ named_on text.now self.old token) }
    {
        if is_name(text, token) {
            self.names.push(token)?;
            self.due = false;
        } else {
            self.fault = Some(place_of(token));
        }
        Ok(())
    }

    /// Reads one token more.
    pub(crate) fn read(&mut self, text: &[u8], token: Token) -> Result<(), AllocError>
        ensures { OnOk result (self.new ≡ named_on text.now self.old token) }
    {
        if self.fault.is_some() {
            return Ok(());
        }
        if self.due {
            return self.read_name(text, token);
        }
        if is_comma(text, token) {
            self.due = true;
        } else {
            self.fault = Some(place_of(token));
        }
        Ok(())
    }

    /// The place of a token that is read next, where it is a parameter that is there already.
    pub(crate) fn twice(&self, text: &[u8], token: Token) -> Option<Place>
        ensures { result ≡ name_twice text.now self.now token }
    {
        if !self.due || self.fault.is_some() || !is_name(text, token) {
            return None;
        }
        let there = has_name(text, behind_first(&self.names), text_of(text, token));
        when(there, place_of(token))
    }

    /// The place of the first token that isn't due, or of the line's end.
    pub(crate) fn fault(&self, end: Token) -> Option<Place>
        ensures { result ≡ heading_fault end self.now }
    {
        let last = if self.due { Some(place_of(end)) } else { None };
        self.fault.or(last)
    }

    /// The names.
    pub(crate) fn names(&self) -> &[Token]
        ensures { result.now ≡ self.now.names }
    {
        &self.names
    }
}

/// The names of a heading.
#[tactic(auto, unfolding(crate::specs::Macros::names_of), using(std::proofs::lemmas::List::Sums::fold_more))]
pub(crate) fn names_of(alloc: Global, text: &[u8], tokens: &[Token]) -> Result<NameList, AllocError>
    ensures { IfOk result (λ names. names ≡ names_of text.now tokens.now) }
{
    let mut names = NameList::new(alloc);
    for token in tokens {
        names.read(text, *token)?;
    }
    Ok(names)
}

/// Whether tokens have one with a name.
fn has_name(text: &[u8], tokens: &[Token], name: &[u8]) -> bool
    ensures { result ≡ list_any (is_named text.now name.now) tokens.now }
{
    tokens.iter().any(|token| is_named(text, name, *token))
}

/// The place of the first parameter that has the name of one before it.
pub(crate) fn repeated(text: &[u8], parameters: &[Token]) -> Option<Place>
    ensures { result ≡ repeated_in text.now [] parameters.now }
{
    for (i, p) in parameters.iter().enumerate() {
        if has_name(text, &parameters[..i], text_of(text, *p)) {
            return Some(place_of(*p));
        }
    }
    None
}

/// The arguments of a call.
#[derive(Drop)]
pub(crate) struct Call {
    /// The arguments.
    pub(crate) arguments: Vec<Argument>,
    /// The place before which one is missing.
    pub(crate) fault: Option<Place>,
}

/// Arguments that are being read.
#[derive(Drop)]
struct ArgumentList {
    before: Vec<Argument>,
    last: Vec<Token>,
    fault: Option<Place>,
}

impl Model for ArgumentList {
    ghost use Rattle.qpu_expr.specs.Macros.{Arguments};

    ghost Value = { Arguments };

    ghost view = { λ a. record { before = a.before.items; last = a.last.items; fault = a.fault } };
}

/// The place of a token, where no argument stands before it.
fn empty_place(token: Token, argument: &[Token]) -> Option<Place>
    ensures { result ≡ empty_place token argument.now }
{
    match argument {
        [] => Some(place_of(token)),
        [_, ..] => None,
    }
}

impl ArgumentList {
    /// Nothing is read yet.
    fn new(alloc: Global) -> ArgumentList
        ensures { result ≡ no_argument }
    {
        ArgumentList {
            before: Vec::new(alloc),
            last: Vec::new(alloc),
            fault: None,
        }
    }

    /// Ends an argument before a sign or the line's end.
    fn end(&mut self, alloc: Global, token: Token) -> Result<(), AllocError>
        ensures { OnOk result (self.new ≡ record { before = self.old.before ++ self.old.last ∷ []; last = []; fault = option_or self.old.fault (empty_place token self.old.last) }) }
    {
        self.fault = self.fault.or(empty_place(token, &self.last));
        let tokens = mem::replace(&mut self.last, Vec::new(alloc));
        self.before.push(Argument::new(alloc, tokens)?)?;
        Ok(())
    }

    /// Reads one token more.
    fn read(&mut self, alloc: Global, text: &[u8], token: Token) -> Result<(), AllocError>
        ensures { OnOk result (self.new ≡ argued text.now self.old token) }
    {
        if is_comma(text, token) {
            return self.end(alloc, token);
        }
        self.last.push(token)?;
        Ok(())
    }
}

/// Reads the arguments of a call that has some.
#[tactic(auto, using(std::proofs::lemmas::List::Sums::fold_more))]
fn arguments_read(alloc: Global, text: &[u8], tokens: &[Token]) -> Result<ArgumentList, AllocError>
    ensures { IfOk result (λ list. list ≡ arguments_read text.now tokens.now) }
{
    let mut list = ArgumentList::new(alloc);
    for token in tokens {
        list.read(alloc, text, *token)?;
    }
    Ok(list)
}

/// The arguments of a call.
#[tactic(auto, unfolding(crate::specs::Macros::arguments_of, crate::specs::Macros::argument_fault))]
pub(crate) fn call_of(
    alloc: Global,
    text: &[u8],
    end: Token,
    tokens: &[Token],
) -> Result<Call, AllocError>
    ensures arguments { IfOk result (λ call. call.arguments.items ≡ arguments_of text.now tokens.now) }
    ensures fault { IfOk result (λ call. call.fault ≡ argument_fault text.now end tokens.now) }
{
    if tokens.is_empty() {
        return Ok(Call {
            arguments: Vec::new(alloc),
            fault: None,
        });
    }
    let mut list = arguments_read(alloc, text, tokens)?;
    list.end(alloc, end)?;
    Ok(Call {
        arguments: list.before,
        fault: list.fault,
    })
}

/// The index of a parameter's name.
fn parameter_at(text: &[u8], parameters: &[Token], name: &[u8]) -> Option<usize>
    ensures { result ≡ position (is_named text.now name.now) parameters.now }
{
    parameters.iter().position(|p| is_named(text, name, *p))
}

/// The argument of a parameter's name.
fn argument_for<'a>(
    text: &[u8],
    parameters: &[Token],
    arguments: &'a [Argument],
    name: &[u8],
) -> Option<&'a Argument>
    ensures { option_copied result ≡ argument_for text.now parameters.now arguments.now name.now }
{
    match parameter_at(text, parameters, name) {
        Some(i) => arguments.get(i),
        None => None,
    }
}

/// Puts a token, or the argument that replaces it.
fn put_replaced(
    text: &[u8],
    parameters: &[Token],
    arguments: &[Argument],
    token: Token,
    out: &mut Vec<Piece>,
) -> Result<(), AllocError>
    ensures { OnOk result (joined out.new.items ≡ joined out.old.items ++ replaced text.now parameters.now arguments.now token) }
{
    if is_name(text, token)
        && let Some(argument) = argument_for(text, parameters, arguments, text_of(text, token))
    {
        out.push(Piece::of_argument(token, argument)?)?;
        return Ok(());
    }
    out.push(Piece::of_token(token))?;
    Ok(())
}

/// Puts the tokens of a piece, or the arguments that replace them.
fn put_piece(
    text: &[u8],
    parameters: &[Token],
    arguments: &[Argument],
    piece: &Piece,
    out: &mut Vec<Piece>,
) -> Result<(), AllocError>
    ensures { OnOk result (joined out.new.items ≡ joined out.old.items ++ flat_map (replaced text.now parameters.now arguments.now) piece.now) }
{
    for i in 0..piece.len() {
        put_replaced(text, parameters, arguments, piece.token(i), out)?;
    }
    Ok(())
}

/// Pieces with all parameters replaced.
fn pieces_replaced(
    alloc: Global,
    text: &[u8],
    parameters: &[Token],
    arguments: &[Argument],
    pieces: &[Piece],
) -> Result<Vec<Piece>, AllocError>
    ensures { IfOk result (λ all. joined all.items ≡ flat_map (replaced text.now parameters.now arguments.now) (joined pieces.now)) }
{
    let mut all = Vec::new(alloc);
    for piece in pieces {
        put_piece(text, parameters, arguments, piece, &mut all)?;
    }
    Ok(all)
}

/// A line with all parameters replaced.
fn line_replaced(
    alloc: Global,
    text: &[u8],
    parameters: &[Token],
    arguments: &[Argument],
    line: &BodyLine,
) -> Result<BodyLine, AllocError>
    ensures { IfOk result (λ l. l ≡ line_replaced text.now parameters.now arguments.now line.now) }
{
    let pieces = pieces_replaced(alloc, text, parameters, arguments, &line.pieces)?;
    Ok(BodyLine {
        pieces,
        end: line.end,
    })
}

/// The body of a macro with all parameters replaced.
#[tactic(auto, unfolding(crate::specs::Macros::body_replaced))]
pub(crate) fn body_replaced(
    alloc: Global,
    text: &[u8],
    parameters: &[Token],
    arguments: &[Argument],
    body: &[BodyLine],
) -> Result<Vec<BodyLine>, AllocError>
    ensures { IfOk result (λ lines. lines.items ≡ body_replaced text.now parameters.now arguments.now body.now) }
{
    let mut lines = Vec::new(alloc);
    for line in body {
        lines.push(line_replaced(alloc, text, parameters, arguments, line)?)?;
    }
    Ok(lines)
}
