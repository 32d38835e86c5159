//! The lines of a text, and what they begin with.
ghost use Rattle.std.specs.Prelude.{◌≡◌, ◌≤◌, ◌++◌, ◌∷◌, [], length, take, MatchOption, IfOk, OnOk, IfSome, None, ◌+◌, ◌^◌, ◌<◌};
ghost use Rattle.qpu_expr.specs.declared.limits.TheConstants.{MOST_TOKENS};
ghost use Rattle.qpu_expr.specs.Lines.{column_behind, moved_to, Lining, no_line, lined, lines_of, is_colon, label_of, behind_label, word_head, directive, head_of, nesting_of, nested, body_length};

use crate::limits::MOST_TOKENS;
use crate::operand::{is_dot, is_name};
use crate::piece::{Piece, read_front, share_all};
use crate::register::is_text;
use crate::symbol::{Sign, Symbol, symbol_of, text_of};
use qpu_token::Token;
use std::alloc::{AllocError, Global};
use std::marker::Model;
use std::mem;

/// How many tokens tell what begins a line: a label, and a directive's sign and word.
const HEAD_TOKENS: usize = 4;

/// A line that is reached: its tokens, and its end.
#[derive(Drop)]
pub(crate) struct Line {
    /// The tokens before the end.
    pub(crate) tokens: Vec<Token>,
    /// The end, with the place that a fault there has.
    pub(crate) end: Token,
}

impl Model for Line {
    ghost use Rattle.qpu_expr.specs.LineTokens.{LineTokens};

    ghost Value = { LineTokens };

    ghost view = { λ l. record { tokens = l.tokens.items; end = l.end } };
}

/// A line of a text or of a body, whose arguments stay as they were given.
#[derive(Drop)]
pub(crate) struct BodyLine {
    /// Its tokens, piece by piece.
    pub(crate) pieces: Vec<Piece>,
    /// The end, with the place that a fault there has.
    pub(crate) end: Token,
}

impl Model for BodyLine {
    ghost use Rattle.qpu_expr.specs.LineTokens.{LineTokens};
    ghost use Rattle.qpu_expr.specs.Pieces.{joined};

    ghost Value = { LineTokens };

    ghost view = { λ l. record { tokens = joined l.pieces.items; end = l.end } };
}

impl BodyLine {
    /// Reads its first tokens, so many as there are.
    fn read_front(&self, most: usize, tokens: &mut Vec<Token>) -> Result<(), AllocError>
        ensures { OnOk result (tokens.new.items ≡ take most self.now.tokens) }
    {
        read_front(&self.pieces, most, tokens)
    }

    /// A copy, which shares its arguments.
    pub(crate) fn copy(&self, alloc: Global) -> Result<BodyLine, AllocError>
        ensures { IfOk result (λ copy. copy ≡ self.now) }
    {
        let pieces = share_all(alloc, &self.pieces)?;
        Ok(BodyLine {
            pieces,
            end: self.end,
        })
    }

    /// The line with its first tokens, one more than a text may reach.
    pub(crate) fn first(&self, alloc: Global) -> Result<Line, AllocError>
        ensures { IfOk result (λ first. first ≡ record { tokens = take (MOST_TOKENS + 1) self.now.tokens; end = self.now.end }) }
    {
        let mut tokens = Vec::new(alloc);
        self.read_front(MOST_TOKENS + 1, &mut tokens)?;
        Ok(Line {
            tokens,
            end: self.end,
        })
    }

    /// The line with its tokens; none where they are more than a text may reach.
    pub(crate) fn whole(&self, alloc: Global) -> Result<Option<Line>, AllocError>
        ensures { IfOk result (λ whole. MatchOption whole (MOST_TOKENS < length self.now.tokens) (λ line. line ≡ self.now)) }
    {
        let mut tokens = Vec::new(alloc);
        self.read_front(MOST_TOKENS + 1, &mut tokens)?;
        if tokens.len() > MOST_TOKENS {
            return Ok(None);
        }
        Ok(Some(Line {
            tokens,
            end: self.end,
        }))
    }
}

/// What bodies are between.
#[derive(Clone, Copy)]
pub(crate) enum Pair {
    /// `.rep` and `.endr`.
    Repeat,
    /// `.macro` and `.endm`.
    Macro,
}

/// What begins a line behind its label.
#[derive(Clone, Copy)]
pub(crate) enum Head {
    /// The line's end.
    Nothing,
    /// `.set`.
    Set,
    /// `.rep` or `.macro`.
    Opens(Pair),
    /// `.endr` or `.endm`.
    Closes(Pair),
    /// `.word`.
    Word,
    /// Another sign `.`, or a sign `:`.
    Other,
    /// Anything else: an instruction, or the call of a macro.
    Instruction,
}

/// What a line does to the bodies of a pair.
#[derive(Clone, Copy)]
pub(crate) enum Nesting {
    /// It opens one.
    Opens,
    /// It closes one.
    Closes,
    /// Nothing.
    Stays,
}

/// The column behind a token.
fn column_behind(token: Token) -> u32
    ensures { result ≡ column_behind token }
{
    let length = token.to.saturating_sub(token.from);
    let column = length.saturating_add(token.column as usize);
    column.min(u32::MAX as usize) as u32
}

/// The end of a line with the place behind the line's last token.
fn moved_to(end: Token, last: Option<Token>) -> Token
    ensures { result ≡ moved_to end last }
{
    match last {
        None => end,
        Some(last) => Token {
            line: last.line,
            column: column_behind(last),
            ..end
        },
    }
}

/// Lines that are being read.
#[derive(Drop)]
struct Liner {
    lines: Vec<BodyLine>,
    pieces: Vec<Piece>,
    last: Option<Token>,
}

impl Model for Liner {
    ghost use Rattle.qpu_expr.specs.Lines.{Lining};
    ghost use Rattle.qpu_expr.specs.Pieces.{joined};

    ghost Value = { Lining };

    ghost view = { λ l. record { lines = l.lines.items; tokens = joined l.pieces.items; last = l.last } };
}

impl Liner {
    /// Nothing is read yet.
    fn new(alloc: Global) -> Liner
        ensures { result ≡ no_line }
    {
        Liner {
            lines: Vec::new(alloc),
            pieces: Vec::new(alloc),
            last: None,
        }
    }

    /// Ends a line.
    fn end(&mut self, alloc: Global, end: Token) -> Result<(), AllocError>
        ensures { OnOk result (self.new ≡ record { lines = self.old.lines ++ record { tokens = self.old.tokens; end = moved_to end self.old.last } ∷ []; tokens = []; last = None }) }
    {
        let pieces = mem::replace(&mut self.pieces, Vec::new(alloc));
        let end = moved_to(end, self.last);
        self.lines.push(BodyLine { pieces, end })?;
        self.last = None;
        Ok(())
    }

    /// Reads one token more.
    fn read(&mut self, alloc: Global, text: &[u8], token: Token) -> Result<(), AllocError>
        ensures { OnOk result (self.new ≡ lined text.now self.old token) }
    {
        if matches!(symbol_of(text, token), Symbol::LineEnd) {
            return self.end(alloc, token);
        }
        self.pieces.push(Piece::of_token(token))?;
        self.last = Some(token);
        Ok(())
    }
}

/// The lines of tokens.
#[tactic(auto, unfolding(crate::specs::Lines::lines_of), using(std::proofs::lemmas::List::Sums::fold_more))]
pub(crate) fn lines_of(
    alloc: Global,
    text: &[u8],
    tokens: &[Token],
) -> Result<Vec<BodyLine>, AllocError>
    ensures { IfOk result (λ lines. lines.items ≡ lines_of text.now tokens.now) }
{
    let mut liner = Liner::new(alloc);
    for token in tokens {
        liner.read(alloc, text, *token)?;
    }
    Ok(liner.lines)
}

/// Whether a token is a sign `:`.
pub(crate) fn is_colon(text: &[u8], token: Token) -> bool
    ensures { result ≡ is_colon text.now token }
{
    matches!(symbol_of(text, token), Symbol::Sign(Sign::Colon))
}

/// The name of a line's label.
pub(crate) fn label_of(text: &[u8], tokens: &[Token]) -> Option<Token>
    ensures { result ≡ label_of text.now tokens.now }
{
    match tokens {
        [colon, name, ..] if is_colon(text, *colon) && is_name(text, *name) => Some(*name),
        _ => None,
    }
}

/// The tokens of a line behind its label.
pub(crate) fn behind_label<'a>(text: &[u8], tokens: &'a [Token]) -> &'a [Token]
    ensures { result.now ≡ behind_label text.now tokens.now }
{
    match tokens {
        [colon, name, rest @ ..] if is_colon(text, *colon) && is_name(text, *name) => rest,
        _ => tokens,
    }
}

/// What a directive is by its word.
#[tactic(auto, unfolding(crate::specs::Lines::word_head))]
fn word_head(word: &[u8]) -> Head
    ensures { result ≡ word_head word.now }
{
    if is_text(word, b"set") {
        Head::Set
    } else if is_text(word, b"rep") {
        Head::Opens(Pair::Repeat)
    } else if is_text(word, b"endr") {
        Head::Closes(Pair::Repeat)
    } else if is_text(word, b"macro") {
        Head::Opens(Pair::Macro)
    } else if is_text(word, b"endm") {
        Head::Closes(Pair::Macro)
    } else if is_text(word, b"word") {
        Head::Word
    } else {
        Head::Other
    }
}

/// What a directive is by the tokens behind its sign `.`.
fn directive(text: &[u8], tokens: &[Token]) -> Head
    ensures { result ≡ directive text.now tokens.now }
{
    match tokens {
        [name, ..] if is_name(text, *name) => word_head(text_of(text, *name)),
        _ => Head::Other,
    }
}

/// What begins a line behind its label.
#[tactic(auto, unfolding(crate::specs::Lines::head_of))]
pub(crate) fn head_of(text: &[u8], tokens: &[Token]) -> Head
    ensures { result ≡ head_of text.now tokens.now }
{
    match tokens {
        [] => Head::Nothing,
        [first, rest @ ..] => {
            if is_dot(text, *first) {
                directive(text, rest)
            } else if is_colon(text, *first) {
                Head::Other
            } else {
                Head::Instruction
            }
        }
    }
}

/// What a line does to the bodies of a pair.
fn nesting_of(pair: Pair, head: Head) -> Nesting
    ensures { result ≡ nesting_of pair head }
{
    match (pair, head) {
        (Pair::Repeat, Head::Opens(Pair::Repeat)) | (Pair::Macro, Head::Opens(Pair::Macro)) =>
            Nesting::Opens,
        (Pair::Repeat, Head::Closes(Pair::Repeat)) | (Pair::Macro, Head::Closes(Pair::Macro)) =>
            Nesting::Closes,
        _ => Nesting::Stays,
    }
}

/// How many bodies are then open; none where the body itself is closed.
fn nested(depth: usize, nesting: Nesting) -> Option<usize>
    requires { depth + 1 < 2 ^ 64 }
    ensures value { result ≡ nested depth nesting }
    ensures small { IfSome result (λ n. n ≤ depth + 1) }
{
    match nesting {
        Nesting::Opens => Some(depth + 1),
        Nesting::Closes => depth.checked_sub(1),
        Nesting::Stays => Some(depth),
    }
}

/// What begins a line behind its label, read with its first tokens.
#[tactic(auto, using(crate::proofs::HeadLemmas::head_front))]
fn head_at(text: &[u8], line: &BodyLine, tokens: &mut Vec<Token>) -> Result<Head, AllocError>
    ensures { IfOk result (λ head. head ≡ head_of text.now (behind_label text.now line.now.tokens)) }
{
    line.read_front(HEAD_TOKENS, tokens)?;
    Ok(head_of(text, behind_label(text, tokens)))
}

/// How many lines stand before the one that closes a body; none where none does.
pub(crate) fn body_length(
    alloc: Global,
    pair: Pair,
    text: &[u8],
    lines: &[BodyLine],
) -> Result<Option<usize>, AllocError>
    ensures { IfOk result (λ n. n ≡ body_length pair text.now 0 lines.now) }
{
    let mut tokens = Vec::new(alloc);
    let mut depth = 0;
    for (i, line) in lines.iter().enumerate() {
        let head = head_at(text, line, &mut tokens)?;
        let Some(inner) = nested(depth, nesting_of(pair, head)) else {
            return Ok(Some(i));
        };
        depth = inner;
    }
    Ok(None)
}
