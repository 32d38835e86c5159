//! Pieces of a part: targets, operands, numbers and labels, with their suffixes.
ghost use Rattle.std.specs.Prelude.{◌≡◌, drop};
ghost use Rattle.qpu_asm.specs.reader.Reading.{told, left_behind};
ghost use Rattle.qpu_asm.specs.reader.Pieces.{named, suffix_at, alone, name_alone, bare, target_core, value_core, label_core, jump_core, operand_core, target_at, operand_at, comma_at};
ghost use Rattle.qpu_asm.specs.Signs.{stops, has_dot};

use crate::expression::expression_length;
use crate::placed::Placed;
use qpu_line::{Name, Symbol};
use qpu_token::Token;

/// What a piece is, its suffix aside.
#[derive(Clone, Copy)]
pub(crate) enum Core {
    /// A name of the language.
    Name(Name),
    /// Another name, which no register has, or an expression that isn't worked out.
    Unknown,
    /// A number.
    Number(u32),
    /// `-`, which is no target, and no operand.
    Nowhere,
    /// A label, with the word behind it where it is there.
    Label(Option<u32>),
}

/// A suffix: its sign `.` and its name, none where that is no name of the language.
#[derive(Clone, Copy)]
pub(crate) struct Suffix {
    /// The sign.
    pub(crate) dot: Token,
    /// The name.
    pub(crate) name: Option<Name>,
}

/// A piece.
#[derive(Clone, Copy)]
pub(crate) struct Piece {
    /// What it is.
    pub(crate) core: Core,
    /// Its first token, or the name of a label.
    pub(crate) token: Token,
    /// Its suffix.
    pub(crate) suffix: Option<Suffix>,
}

/// The name that a symbol is: of the language, or another; none where it is no name.
fn named(symbol: Symbol) -> Option<Option<Name>>
    ensures { result ≡ named symbol }
{
    match symbol {
        Symbol::Name(name) => Some(Some(name)),
        Symbol::Unknown => Some(None),
        _ => None,
    }
}

/// A suffix at the front, where a sign `.` stands there. The error is the token that isn't due.
pub(crate) fn suffix_at(xs: &[Placed]) -> Result<(Option<Suffix>, &[Placed]), Token>
    ensures { told result ≡ suffix_at xs.now }
{
    match xs {
        [dot, rest @ ..] if dot.symbol == Symbol::Dot => match rest {
            [word, behind @ ..] => match named(word.symbol) {
                Some(name) => Ok((
                    Some(Suffix {
                        dot: dot.token,
                        name,
                    }),
                    behind,
                )),
                None => Err(dot.token),
            },
            [] => Err(dot.token),
        },
        _ => Ok((None, xs)),
    }
}

/// Whether a piece ends before tokens, its suffix aside.
fn stops(xs: &[Placed]) -> bool
    ensures { result ≡ stops xs.now }
{
    match xs {
        [] => true,
        [x, ..] => x.symbol == Symbol::Comma || x.symbol == Symbol::Dot,
    }
}

/// What a name or number is that is a piece by itself.
fn alone(symbol: Symbol) -> Option<Core>
    ensures { result ≡ alone symbol }
{
    match symbol {
        Symbol::Name(name) => Some(Core::Name(name)),
        Symbol::Unknown => Some(Core::Unknown),
        Symbol::Number(value) => Some(Core::Number((value & 0xffff_ffff) as u32)),
        _ => None,
    }
}

/// What a name is that is a piece by itself.
pub(crate) fn name_alone(symbol: Symbol) -> Option<Core>
    ensures { result ≡ name_alone symbol }
{
    match symbol {
        Symbol::Name(name) => Some(Core::Name(name)),
        Symbol::Unknown => Some(Core::Unknown),
        _ => None,
    }
}

/// A piece before its suffix.
fn bare(core: Core, token: Token) -> Piece
    ensures { result ≡ bare core token }
{
    Piece {
        core,
        token,
        suffix: None,
    }
}

/// A target at the front: a name or `-`. The error is the token that isn't due, or the end.
#[tactic(auto, unfolding(crate::specs::reader::Pieces::target_core))]
pub(crate) fn target_core(end: Token, xs: &[Placed]) -> Result<(Piece, &[Placed]), Token>
    ensures { told result ≡ target_core end xs.now }
{
    match xs {
        [] => Err(end),
        [x, rest @ ..] => {
            if x.symbol == Symbol::Minus && stops(rest) {
                return Ok((bare(Core::Nowhere, x.token), rest));
            }
            match (name_alone(x.symbol), expression_length(xs)) {
                (Some(core), Some(n)) if n == 1 => Ok((bare(core, x.token), rest)),
                _ => Err(x.token),
            }
        }
    }
}

/// An operand or number at the front. The error is the token that isn't due, or the end. An expression
/// of several tokens isn't worked out, so that it is none that a line may have.
#[tactic(auto, unfolding(crate::specs::reader::Pieces::value_core))]
pub(crate) fn value_core(end: Token, xs: &[Placed]) -> Result<(Piece, &[Placed]), Token>
    ensures { told result ≡ value_core end xs.now }
{
    match xs {
        [] => Err(end),
        [x, rest @ ..] => match (alone(x.symbol), expression_length(xs)) {
            (Some(core), Some(1)) => Ok((bare(core, x.token), rest)),
            (_, Some(n)) => Ok((bare(Core::Unknown, x.token), behind(xs, n))),
            _ => Err(x.token),
        },
    }
}

/// The tokens behind so many.
fn behind(xs: &[Placed], n: usize) -> &[Placed]
    ensures { result.now ≡ drop n xs.now }
{
    &xs[n.min(xs.len())..]
}

/// A label at the front, behind its sign `:`. The error is the token that isn't due, or the end.
fn label_core(end: Token, xs: &[Placed]) -> Result<(Piece, &[Placed]), Token>
    ensures { told result ≡ label_core end xs.now }
{
    match xs {
        [] => Err(end),
        [x, rest @ ..] => match name_alone(x.symbol) {
            Some(_) => Ok((bare(Core::Label(x.label), x.token), rest)),
            None => Err(x.token),
        },
    }
}

/// The target of a branch at the front: a label, a number or a name. The error is the token that isn't
/// due, or the end.
#[tactic(auto, unfolding(crate::specs::reader::Pieces::jump_core))]
pub(crate) fn jump_core(end: Token, xs: &[Placed]) -> Result<(Piece, &[Placed]), Token>
    ensures { told result ≡ jump_core end xs.now }
{
    match xs {
        [x, rest @ ..] if x.symbol == Symbol::Colon => label_core(end, rest),
        _ => value_core(end, xs),
    }
}

/// Whether a suffix stands at the front.
fn has_dot(xs: &[Placed]) -> bool
    ensures { result ≡ has_dot xs.now }
{
    match xs {
        [] => false,
        [x, ..] => x.symbol == Symbol::Dot,
    }
}

/// An operand of a unit at the front, its suffix aside. `-` is one only where a suffix stands behind it. The
/// error is the token that isn't due, or the end.
#[tactic(auto, unfolding(crate::specs::reader::Pieces::operand_core))]
fn operand_core(end: Token, xs: &[Placed]) -> Result<(Piece, &[Placed]), Token>
    ensures { told result ≡ operand_core end xs.now }
{
    match xs {
        [x, rest @ ..] if x.symbol == Symbol::Minus && has_dot(rest) => Ok((
            bare(Core::Nowhere, x.token),
            rest,
        )),
        _ => value_core(end, xs),
    }
}

/// A target with its suffix.
#[tactic(auto, unfolding(crate::specs::reader::Pieces::target_at))]
pub(crate) fn target_at(end: Token, xs: &[Placed]) -> Result<(Piece, &[Placed]), Token>
    ensures { told result ≡ target_at end xs.now }
{
    let (piece, rest) = target_core(end, xs)?;
    let (suffix, behind) = suffix_at(rest)?;
    Ok((with_suffix(piece, suffix), behind))
}

/// An operand with its suffix.
#[tactic(auto, unfolding(crate::specs::reader::Pieces::operand_at))]
pub(crate) fn operand_at(end: Token, xs: &[Placed]) -> Result<(Piece, &[Placed]), Token>
    ensures { told result ≡ operand_at end xs.now }
{
    let (piece, rest) = operand_core(end, xs)?;
    let (suffix, behind) = suffix_at(rest)?;
    Ok((with_suffix(piece, suffix), behind))
}

/// A piece with a suffix.
fn with_suffix(piece: Piece, suffix: Option<Suffix>) -> Piece
    ensures { result ≡ record piece { suffix = suffix } }
{
    Piece { suffix, ..piece }
}

/// What stands behind a sign `,`. The error is the token that isn't due, or the end.
pub(crate) fn comma_at(end: Token, xs: &[Placed]) -> Result<&[Placed], Token>
    ensures { left_behind result ≡ comma_at end xs.now }
{
    match xs {
        [] => Err(end),
        [x, rest @ ..] if x.symbol == Symbol::Comma => Ok(rest),
        [x, ..] => Err(x.token),
    }
}
