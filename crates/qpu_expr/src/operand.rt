//! The operands of one instruction's parts.
ghost use Rattle.std.specs.Prelude.{◌≡◌, ◌≤◌, ◌∷◌, ◌&&◌, [], length, IfOk, OnOk};
ghost use Rattle.qpu_expr.specs.Operands.{is_name, is_dot, separates, begins_with_name, suffixes, core, number_of, named, operand_of, number_token, with_value, Worked, nothing_worked, put_tokens, noted, put_operand, put_first, put_piece, standing_behind, Working, nothing_read, turned, worked_on, all_worked, instruction_work};

use crate::expression::Parsed;
use crate::place::{Place, place_of};
use crate::register::is_register;
use crate::setting::{Expression, read_expression, set_value};
use crate::symbol::{Sign, Symbol, symbol_of, text_of};
use crate::table::Table;
use qpu_token::{Token, TokenKind};
use std::alloc::{AllocError, Global};
use std::marker::Model;

/// What stands between two pieces of a line.
#[derive(Clone, Copy)]
pub(crate) enum Between {
    /// `,`, between two operands.
    Operands,
    /// `;`, between two parts.
    Parts,
}

/// Where a piece of a line stands.
#[derive(Clone, Copy)]
pub(crate) enum Standing {
    /// First in its part, with the mnemonic.
    First,
    /// Behind a sign `,`.
    Operand,
    /// In a part that doesn't begin with a name.
    Other,
}

/// What an operand comes to.
#[derive(Clone, Copy)]
pub(crate) struct Operand {
    /// Its number; none where it stays as it is.
    pub(crate) value: Option<u32>,
    /// The place of a fault by a name that isn't set.
    pub(crate) unknown: Option<Place>,
    /// The place of a division by 0.
    pub(crate) zero: Option<Place>,
}

/// How many tokens a suffix has.
const SUFFIX: usize = 2;

/// An operand that stays as it is.
const LEFT: Operand = Operand {
    value: None,
    unknown: None,
    zero: None,
};

/// Whether a token is a name.
pub(crate) fn is_name(text: &[u8], token: Token) -> bool
    ensures { result ≡ is_name text.now token }
{
    matches!(symbol_of(text, token), Symbol::Name)
}

/// Whether a token is a sign `.`.
pub(crate) fn is_dot(text: &[u8], token: Token) -> bool
    ensures { result ≡ is_dot text.now token }
{
    matches!(symbol_of(text, token), Symbol::Sign(Sign::Dot))
}

/// What a token separates.
pub(crate) fn separates(symbol: Symbol) -> Option<Between>
    ensures { result ≡ separates symbol }
{
    match symbol {
        Symbol::Sign(Sign::Comma) => Some(Between::Operands),
        Symbol::Sign(Sign::Semicolon) => Some(Between::Parts),
        _ => None,
    }
}

/// Whether tokens begin with a name.
fn begins_with_name(text: &[u8], tokens: &[Token]) -> bool
    ensures { result ≡ begins_with_name text.now tokens.now }
{
    match tokens {
        [token, ..] => is_name(text, *token),
        [] => false,
    }
}

/// Whether two tokens are a suffix.
pub(crate) fn is_suffix(text: &[u8], dot: Token, name: Token) -> bool
    ensures { result ≡ (is_dot text.now dot && is_name text.now name) }
{
    is_dot(text, dot) && is_name(text, name)
}

/// How many tokens the suffixes at the front have.
fn suffixes(text: &[u8], tokens: &[Token]) -> usize
    ensures value { result ≡ suffixes text.now tokens.now }
    ensures inside { result ≤ length tokens.now }
{
    let mut at = 0;
    while let [dot, name, ..] = &tokens[at..] {
        if !is_suffix(text, *dot, *name) {
            return at;
        }
        at += 2;
    }
    at
}

/// How many tokens an operand has before a suffix at its end.
fn core(text: &[u8], piece: &[Token]) -> usize
    ensures value { result ≡ core text.now piece.now }
    ensures inside { result ≤ length piece.now }
{
    let at = piece.len().saturating_sub(SUFFIX);
    match &piece[at..] {
        [dot, name] if is_suffix(text, *dot, *name) => at,
        _ => piece.len(),
    }
}

/// What an expression that begins with a token comes to as an operand.
fn number_of(first: Token, e: Expression) -> Operand
    ensures { result ≡ number_of first e e.outcome }
{
    let unknown = if e.unknown {
        Some(place_of(first))
    } else {
        None
    };
    match e.outcome {
        Parsed::Whole(Ok(value)) => Operand {
            value: Some(value),
            unknown,
            zero: None,
        },
        Parsed::Whole(Err(place)) => Operand {
            value: Some(0),
            unknown,
            zero: Some(place),
        },
        Parsed::Cut | Parsed::Extra(_) => LEFT,
    }
}

/// What a name alone comes to.
fn named(sets: &Table<u32>, name: &[u8]) -> Operand
    ensures { result ≡ named sets.now name.now }
{
    if is_register(name) {
        return LEFT;
    }
    Operand {
        value: set_value(sets, name),
        unknown: None,
        zero: None,
    }
}

/// What tokens come to as an operand without its suffix.
fn operand_of(
    alloc: Global,
    text: &[u8],
    sets: &Table<u32>,
    tokens: &[Token],
) -> Result<Operand, AllocError>
    ensures { IfOk result (λ operand. operand ≡ operand_of text.now sets.now tokens.now) }
{
    match tokens {
        [] => Ok(LEFT),
        [first] if is_name(text, *first) => Ok(named(sets, text_of(text, *first))),
        [first, ..] => Ok(number_of(*first, read_expression(alloc, text, sets, tokens)?)),
    }
}

/// Tokens that are worked out, and the leftmost faults among them.
#[derive(Drop)]
pub(crate) struct Work {
    /// The tokens.
    pub(crate) tokens: Vec<Token>,
    /// The place of a fault by a name that isn't set.
    pub(crate) unknown: Option<Place>,
    /// The place of a division by 0.
    pub(crate) zero: Option<Place>,
}

impl Model for Work {
    ghost use Rattle.qpu_expr.specs.Operands.{Worked};

    ghost Value = { Worked };

    ghost view = { λ w. record { tokens = w.tokens.items; unknown = w.unknown; zero = w.zero } };
}

impl Work {
    /// Nothing is worked out yet.
    fn new(alloc: Global) -> Work
        ensures { result ≡ nothing_worked }
    {
        Work {
            tokens: Vec::new(alloc),
            unknown: None,
            zero: None,
        }
    }

    /// Puts tokens as they are.
    fn put_tokens(&mut self, tokens: &[Token]) -> Result<(), AllocError>
        ensures { OnOk result (self.new ≡ put_tokens tokens.now self.old) }
    {
        self.tokens.extend_from_slice(tokens)?;
        Ok(())
    }

    /// Puts one token.
    fn put_token(&mut self, token: Token) -> Result<(), AllocError>
        ensures { OnOk result (self.new ≡ put_tokens (token ∷ []) self.old) }
    {
        self.tokens.push(token)?;
        Ok(())
    }

    /// Puts the tokens of an operand: as they are, or a number for all before its suffix.
    fn put_value(
        &mut self,
        value: Option<u32>,
        before: usize,
        tokens: &[Token],
    ) -> Result<(), AllocError>
        requires { before ≤ length tokens.now }
        ensures { OnOk result (self.new ≡ put_tokens (with_value value before tokens.now) self.old) }
    {
        match (value, tokens) {
            (None, _) | (Some(_), []) => self.put_tokens(tokens),
            (Some(value), [first, ..]) => {
                self.put_token(number_token(*first, value))?;
                self.put_tokens(&tokens[before..])
            }
        }
    }

    /// Notes the faults of an operand.
    fn note(&mut self, operand: Operand)
        ensures { self.new ≡ noted operand [] self.old }
    {
        self.unknown = self.unknown.or(operand.unknown);
        self.zero = self.zero.or(operand.zero);
    }

    /// Puts an operand with its suffix.
    #[tactic(auto, unfolding(crate::specs::Operands::put_operand))]
    fn put_operand(
        &mut self,
        alloc: Global,
        text: &[u8],
        sets: &Table<u32>,
        piece: &[Token],
    ) -> Result<(), AllocError>
        ensures { OnOk result (self.new ≡ put_operand text.now sets.now piece.now self.old) }
    {
        let before = core(text, piece);
        let operand = operand_of(alloc, text, sets, &piece[..before])?;
        self.put_value(operand.value, before, piece)?;
        self.note(operand);
        Ok(())
    }

    /// Puts the first piece of a part.
    #[tactic(auto, unfolding(crate::specs::Operands::put_first))]
    fn put_first(
        &mut self,
        alloc: Global,
        text: &[u8],
        sets: &Table<u32>,
        piece: &[Token],
    ) -> Result<(), AllocError>
        ensures { OnOk result (self.new ≡ put_first text.now sets.now piece.now self.old) }
    {
        match piece {
            [] => Ok(()),
            [mnemonic, rest @ ..] if is_name(text, *mnemonic) => {
                let at = suffixes(text, rest);
                self.put_token(*mnemonic)?;
                self.put_tokens(&rest[..at])?;
                self.put_operand(alloc, text, sets, &rest[at..])
            }
            _ => self.put_tokens(piece),
        }
    }

    /// Puts a piece by where it stands.
    fn put_piece(
        &mut self,
        alloc: Global,
        text: &[u8],
        sets: &Table<u32>,
        standing: Standing,
        piece: &[Token],
    ) -> Result<(), AllocError>
        ensures { OnOk result (self.new ≡ put_piece text.now sets.now standing piece.now self.old) }
    {
        match standing {
            Standing::First => self.put_first(alloc, text, sets, piece),
            Standing::Operand => self.put_operand(alloc, text, sets, piece),
            Standing::Other => self.put_tokens(piece),
        }
    }
}

/// A number in the place of a token.
fn number_token(first: Token, value: u32) -> Token
    ensures { result ≡ number_token first value }
{
    Token {
        kind: TokenKind::Number(u64::from(value)),
        ..first
    }
}

/// Where a piece stands behind another and a sign.
fn standing_behind(text: &[u8], before: Standing, piece: &[Token], between: Between) -> Standing
    ensures { result ≡ standing_behind text.now before piece.now between }
{
    match (before, between) {
        (_, Between::Parts) => Standing::First,
        (Standing::First, Between::Operands) => {
            if begins_with_name(text, piece) {
                Standing::Operand
            } else {
                Standing::Other
            }
        }
        (Standing::Operand, Between::Operands) => Standing::Operand,
        (Standing::Other, Between::Operands) => Standing::Other,
    }
}

/// An instruction that is being worked out.
#[derive(Drop)]
struct Worker {
    standing: Standing,
    piece: Vec<Token>,
    done: Work,
}

impl Model for Worker {
    ghost use Rattle.qpu_expr.specs.Operands.{Working};

    ghost Value = { Working };

    ghost view = { λ w. record { standing = w.standing; piece = w.piece.items; done = w.done } };
}

impl Worker {
    /// Nothing is read yet.
    fn new(alloc: Global) -> Worker
        ensures { result ≡ nothing_read }
    {
        Worker {
            standing: Standing::First,
            piece: Vec::new(alloc),
            done: Work::new(alloc),
        }
    }

    /// Goes on behind a sign.
    fn turn(
        &mut self,
        alloc: Global,
        text: &[u8],
        sets: &Table<u32>,
        between: Between,
        token: Token,
    ) -> Result<(), AllocError>
        ensures { OnOk result (self.new ≡ turned text.now sets.now self.old between token) }
    {
        self.done
            .put_piece(alloc, text, sets, self.standing, &self.piece)?;
        self.done.put_token(token)?;
        self.standing = standing_behind(text, self.standing, &self.piece, between);
        self.piece.clear();
        Ok(())
    }

    /// Reads one token more.
    fn read(
        &mut self,
        alloc: Global,
        text: &[u8],
        sets: &Table<u32>,
        token: Token,
    ) -> Result<(), AllocError>
        ensures { OnOk result (self.new ≡ worked_on text.now sets.now self.old token) }
    {
        match separates(symbol_of(text, token)) {
            Some(between) => self.turn(alloc, text, sets, between, token),
            None => {
                self.piece.push(token)?;
                Ok(())
            }
        }
    }

    /// What all tokens come to.
    fn finish(mut self, alloc: Global, text: &[u8], sets: &Table<u32>) -> Result<Work, AllocError>
        ensures { IfOk result (λ work. work ≡ all_worked text.now sets.now self) }
    {
        self.done
            .put_piece(alloc, text, sets, self.standing, &self.piece)?;
        Ok(self.done)
    }
}

/// The tokens of an instruction with its numbers worked out, and its leftmost faults.
#[tactic(auto, unfolding(crate::specs::Operands::instruction_work), using(std::proofs::lemmas::List::Sums::fold_more))]
pub(crate) fn instruction(
    alloc: Global,
    text: &[u8],
    sets: &Table<u32>,
    tokens: &[Token],
) -> Result<Work, AllocError>
    ensures { IfOk result (λ work. work ≡ instruction_work text.now sets.now tokens.now) }
{
    let mut worker = Worker::new(alloc);
    for token in tokens {
        worker.read(alloc, text, sets, *token)?;
    }
    worker.finish(alloc, text, sets)
}
