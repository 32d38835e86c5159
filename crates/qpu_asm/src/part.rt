//! Parts of a line, by their mnemonics. What their names stand for isn't judged yet.
ghost use Rattle.std.specs.Prelude.{◌≡◌};
ghost use Rattle.qpu_asm.specs.reader.Reading.{told, ended};
ghost use Rattle.qpu_asm.specs.reader.Parts.{suffixes_at, one_operand, two_operands, operands_at, unit_part, load_part, also_part, branch_part, last_value, last_name, part_by};

use crate::piece::{
    Piece, Suffix, comma_at, jump_core, operand_at, suffix_at, target_at, target_core, value_core,
};
use crate::placed::Placed;
use crate::roles::takes_one;
use qpu_line::{LoadKind, Name, Signal};
use qpu_token::Token;

/// The suffixes of a mnemonic, at most two.
#[derive(Clone, Copy)]
pub(crate) struct Suffixes {
    /// The first.
    pub(crate) first: Option<Suffix>,
    /// The second.
    pub(crate) second: Option<Suffix>,
}

/// The part of a unit.
#[derive(Clone, Copy)]
pub(crate) struct UnitPart {
    /// Its mnemonic.
    pub(crate) op: Name,
    /// The mnemonic's token.
    pub(crate) token: Token,
    /// The mnemonic's suffixes.
    pub(crate) suffixes: Suffixes,
    /// The target.
    pub(crate) to: Piece,
    /// The first operand.
    pub(crate) a: Piece,
    /// The second operand; the first again where one is written.
    pub(crate) b: Piece,
}

/// A load immediate's part.
#[derive(Clone, Copy)]
pub(crate) struct LoadPart {
    /// What it makes of its immediate.
    pub(crate) kind: LoadKind,
    /// The mnemonic's suffixes.
    pub(crate) suffixes: Suffixes,
    /// The target.
    pub(crate) to: Piece,
    /// The immediate.
    pub(crate) value: Piece,
}

/// The second target of a load.
#[derive(Clone, Copy)]
pub(crate) struct AlsoPart {
    /// The suffix.
    pub(crate) suffix: Option<Suffix>,
    /// The target.
    pub(crate) to: Piece,
}

/// A branch's part.
#[derive(Clone, Copy)]
pub(crate) struct BranchPart {
    /// Whether its target counts from the address behind its slots.
    pub(crate) relative: bool,
    /// The mnemonic's suffix.
    pub(crate) suffix: Option<Suffix>,
    /// Where the link is written.
    pub(crate) to: Piece,
    /// Where it goes.
    pub(crate) target: Piece,
}

/// A part of a line.
#[derive(Clone, Copy)]
pub(crate) enum Part {
    /// An idle unit.
    Nop,
    /// What a unit does.
    Unit(UnitPart),
    /// A load.
    Load(LoadPart),
    /// A load's second target.
    Also(AlsoPart),
    /// A semaphore's step up, with its number.
    Increment(Piece),
    /// A semaphore's step down, with its number.
    Decrement(Piece),
    /// A branch.
    Branch(BranchPart),
    /// A branch's second target.
    Link(Piece),
    /// The row that a branch adds.
    Row(Piece),
    /// A signal.
    Signal(Signal, Token),
    /// A rotation, by what.
    Rotate(Token, Piece),
    /// A read of file A that no operand names.
    ReadA(Piece),
    /// A read of file B that no operand names.
    ReadB(Piece),
}

/// At most two suffixes.
#[tactic(auto, unfolding(crate::specs::reader::Parts::suffixes_at))]
fn suffixes_at(xs: &[Placed]) -> Result<(Suffixes, &[Placed]), Token>
    ensures { told result ≡ suffixes_at xs.now }
{
    let (first, rest) = suffix_at(xs)?;
    let (second, behind) = suffix_at(rest)?;
    Ok((Suffixes { first, second }, behind))
}

/// One operand, with which the part ends.
#[tactic(auto, unfolding(crate::specs::reader::Parts::one_operand))]
fn one_operand(end: Token, xs: &[Placed]) -> Result<(Piece, Piece), Token>
    ensures { result ≡ one_operand end xs.now }
{
    let (a, rest) = operand_at(end, xs)?;
    ended((a, a), rest)
}

/// Two operands, with which the part ends.
#[tactic(auto, unfolding(crate::specs::reader::Parts::two_operands))]
fn two_operands(end: Token, xs: &[Placed]) -> Result<(Piece, Piece), Token>
    ensures { result ≡ two_operands end xs.now }
{
    let (a, rest) = operand_at(end, xs)?;
    let rest = comma_at(end, rest)?;
    let (b, rest) = operand_at(end, rest)?;
    ended((a, b), rest)
}

/// What is read, where nothing is left behind it.
pub(crate) fn ended<A: Copy>(read: A, xs: &[Placed]) -> Result<A, Token>
    ensures { result ≡ ended read xs.now }
{
    match xs {
        [] => Ok(read),
        [x, ..] => Err(x.token),
    }
}

/// The operands of a mnemonic.
fn operands_at(op: Name, end: Token, xs: &[Placed]) -> Result<(Piece, Piece), Token>
    ensures { result ≡ operands_at op end xs.now }
{
    if takes_one(op) {
        one_operand(end, xs)
    } else {
        two_operands(end, xs)
    }
}

/// A unit's part behind its mnemonic.
#[tactic(auto, unfolding(crate::specs::reader::Parts::unit_part))]
fn unit_part(op: Name, token: Token, end: Token, xs: &[Placed]) -> Result<Part, Token>
    ensures { result ≡ unit_part op token end xs.now }
{
    let (suffixes, rest) = suffixes_at(xs)?;
    let (to, rest) = target_at(end, rest)?;
    let rest = comma_at(end, rest)?;
    let (a, b) = operands_at(op, end, rest)?;
    Ok(Part::Unit(UnitPart {
        op,
        token,
        suffixes,
        to,
        a,
        b,
    }))
}

/// A load's part behind its mnemonic.
#[tactic(auto, unfolding(crate::specs::reader::Parts::load_part))]
fn load_part(kind: LoadKind, end: Token, xs: &[Placed]) -> Result<Part, Token>
    ensures { result ≡ load_part kind end xs.now }
{
    let (suffixes, rest) = suffixes_at(xs)?;
    let (to, rest) = target_core(end, rest)?;
    let rest = comma_at(end, rest)?;
    let (value, rest) = value_core(end, rest)?;
    ended(
        Part::Load(LoadPart {
            kind,
            suffixes,
            to,
            value,
        }),
        rest,
    )
}

/// A load's second target behind its mnemonic.
#[tactic(auto, unfolding(crate::specs::reader::Parts::also_part))]
fn also_part(end: Token, xs: &[Placed]) -> Result<Part, Token>
    ensures { result ≡ also_part end xs.now }
{
    let (suffix, rest) = suffix_at(xs)?;
    let (to, rest) = target_core(end, rest)?;
    ended(Part::Also(AlsoPart { suffix, to }), rest)
}

/// A branch's part behind its mnemonic.
#[tactic(auto, unfolding(crate::specs::reader::Parts::branch_part))]
fn branch_part(relative: bool, end: Token, xs: &[Placed]) -> Result<Part, Token>
    ensures { result ≡ branch_part relative end xs.now }
{
    let (suffix, rest) = suffix_at(xs)?;
    let (to, rest) = target_core(end, rest)?;
    let rest = comma_at(end, rest)?;
    let (target, rest) = jump_core(end, rest)?;
    ended(
        Part::Branch(BranchPart {
            relative,
            suffix,
            to,
            target,
        }),
        rest,
    )
}

/// A number with which a part ends.
#[tactic(auto, unfolding(crate::specs::reader::Parts::last_value))]
fn last_value(end: Token, xs: &[Placed]) -> Result<Piece, Token>
    ensures { result ≡ last_value end xs.now }
{
    let (value, rest) = value_core(end, xs)?;
    ended(value, rest)
}

/// A name with which a part ends.
#[tactic(auto, unfolding(crate::specs::reader::Parts::last_name))]
fn last_name(end: Token, xs: &[Placed]) -> Result<Piece, Token>
    ensures { result ≡ last_name end xs.now }
{
    let (name, rest) = target_core(end, xs)?;
    ended(name, rest)
}

/// The part behind a mnemonic. The error is the first token that isn't due, or the part's end.
#[tactic(auto, unfolding(crate::specs::reader::Parts::part_by))]
pub(crate) fn part_by(name: Name, token: Token, end: Token, xs: &[Placed]) -> Result<Part, Token>
    ensures { result ≡ part_by name token end xs.now }
{
    match name {
        Name::Add(_) | Name::Mul(_) | Name::Mov => unit_part(name, token, end, xs),
        Name::Nop => ended(Part::Nop, xs),
        Name::Load(kind) => load_part(kind, end, xs),
        Name::Also => also_part(end, xs),
        Name::Increment => Ok(Part::Increment(last_value(end, xs)?)),
        Name::Decrement => Ok(Part::Decrement(last_value(end, xs)?)),
        Name::Branch => branch_part(false, end, xs),
        Name::RelativeBranch => branch_part(true, end, xs),
        Name::Link => Ok(Part::Link(last_name(end, xs)?)),
        Name::Row => Ok(Part::Row(last_name(end, xs)?)),
        Name::End => ended(Part::Signal(Signal::End, token), xs),
        Name::Load0 => ended(Part::Signal(Signal::Load0, token), xs),
        Name::Load1 => ended(Part::Signal(Signal::Load1, token), xs),
        Name::Rotate => Ok(Part::Rotate(token, last_value(end, xs)?)),
        Name::ReadA => Ok(Part::ReadA(last_name(end, xs)?)),
        Name::ReadB => Ok(Part::ReadB(last_name(end, xs)?)),
        _ => Err(token),
    }
}
