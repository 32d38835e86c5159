//! What a line says, or its first fault.
ghost use Rattle.std.specs.Prelude.{◌≡◌, Ok};
ghost use Rattle.qpu_asm.specs.reader.Sections.{parts_of};
ghost use Rattle.qpu_token.specs.Stops.{Answers};
ghost use Rattle.qpu_asm.specs.reader.LinesRead.{word_number, set_value, set_comma, set_name, directive, first_token, label_fault, unknown_fault, by_parts, instruction_line, read_line, word_in};

use crate::expression::expression_length;
use crate::judge::{fault_at, line_fault};
use crate::marking::marks_of;
use crate::meaning::meaning;
use crate::part::{Part, ended};
use crate::piece::name_alone;
use crate::placed::Placed;
use crate::section::{Section, first_own_fault, first_unknown, parts_of, sections_of};
use qpu_line::{Instruction, Name, Symbol};
use qpu_token::{AsmFault, AsmKind, Stop, Token};
use std::alloc::Global;

/// What a line says.
#[derive(Clone, Copy)]
pub(crate) enum Line {
    /// A word as it stands.
    Raw(u64),
    /// An instruction.
    Says(Instruction),
}

/// The number behind `.word`. The error is the token that isn't due, or the line's end.
fn word_number(end: Token, xs: &[Placed]) -> Result<u64, Token>
    ensures { result ≡ word_number end xs.now }
{
    match xs {
        [] => Err(end),
        [x, rest @ ..] => match x.symbol {
            Symbol::Number(number) => ended(number, rest),
            _ => Err(x.token),
        },
    }
}

/// The token that isn't due in the expression of a `.set` that isn't well-formed.
fn set_value(end: Token, xs: &[Placed]) -> Token
    ensures { result ≡ set_value end xs.now }
{
    match xs {
        [] => end,
        [x, ..] => match expression_length(xs) {
            Some(n) => match xs.get(n) {
                Some(other) => other.token,
                None => x.token,
            },
            None => x.token,
        },
    }
}

/// The token that isn't due behind the name of a `.set`.
fn set_comma(end: Token, xs: &[Placed]) -> Token
    ensures { result ≡ set_comma end xs.now }
{
    match xs {
        [] => end,
        [x, rest @ ..] => if x.symbol == Symbol::Comma {
            set_value(end, rest)
        } else {
            x.token
        },
    }
}

/// The token that isn't due behind `.set`.
fn set_name(end: Token, xs: &[Placed]) -> Token
    ensures { result ≡ set_name end xs.now }
{
    match xs {
        [] => end,
        [x, rest @ ..] => match name_alone(x.symbol) {
            Some(_) => set_comma(end, rest),
            None => x.token,
        },
    }
}

/// A line that begins with a sign `.`. The error is the token that isn't due, or the line's end.
fn directive(dot: Token, end: Token, xs: &[Placed]) -> Result<Line, Token>
    ensures { result ≡ directive dot end xs.now }
{
    match xs {
        [] => Err(dot),
        [x, rest @ ..] => match x.symbol {
            Symbol::Name(Name::Word) => match word_number(end, rest) {
                Ok(number) => Ok(Line::Raw(number)),
                Err(token) => Err(token),
            },
            Symbol::Name(Name::Set) => Err(set_name(end, rest)),
            _ => Err(dot),
        },
    }
}

/// The first token, or the line's end.
fn first_token(end: Token, xs: &[Placed]) -> Token
    ensures { result ≡ first_token end xs.now }
{
    match xs {
        [] => end,
        [x, ..] => x.token,
    }
}

/// The token that isn't due behind the first sign `:` of a line.
fn label_fault(end: Token, xs: &[Placed]) -> Token
    ensures { result ≡ label_fault end xs.now }
{
    match xs {
        [] => end,
        [x, rest @ ..] => match name_alone(x.symbol) {
            Some(_) => first_token(end, rest),
            None => x.token,
        },
    }
}

/// The fault of a line with a mnemonic that is none.
fn unknown_fault(sections: &[Section], token: Token) -> AsmFault
    ensures { result ≡ unknown_fault sections.now token }
{
    match first_own_fault(sections) {
        Some(other) => fault_at(AsmKind::Shape, other),
        None => fault_at(AsmKind::UnknownOp, token),
    }
}

/// What parts say.
fn line_of_parts(alloc: Global, at: u32, end: Token, parts: &[Part]) -> Result<Line, Stop>
    ensures { Answers (by_parts at end (Ok parts.now)) result }
{
    match parts {
        [] => Err(Stop::Fault(fault_at(AsmKind::Shape, end))),
        [first, later @ ..] => {
            let marks = marks_of(alloc, parts)?;
            match line_fault(&marks.marks) {
                Some(fault) => Err(Stop::Fault(fault)),
                None => Ok(Line::Says(meaning(at, *first, later))),
            }
        }
    }
}

/// What sections say.
fn line_of_sections(alloc: Global, at: u32, end: Token, sections: &[Section]) -> Result<Line, Stop>
    ensures { Answers (by_parts at end (parts_of sections.now)) result }
{
    let read = parts_of(alloc, sections)?;
    match read.fault {
        Some(token) => Err(Stop::Fault(fault_at(AsmKind::Shape, token))),
        None => line_of_parts(alloc, at, end, &read.parts),
    }
}

/// A line of instructions.
#[tactic(auto, unfolding(crate::specs::reader::LinesRead::instruction_line))]
fn instruction_line(alloc: Global, at: u32, end: Token, xs: &[Placed]) -> Result<Line, Stop>
    ensures { Answers (instruction_line at end xs.now) result }
{
    let sections = sections_of(alloc, end, xs)?;
    match first_unknown(&sections) {
        Some(token) => Err(Stop::Fault(unknown_fault(&sections, token))),
        None => line_of_sections(alloc, at, end, &sections),
    }
}

/// What a line with an end says, at a place of the program.
#[tactic(auto, unfolding(crate::specs::reader::LinesRead::read_line))]
pub(crate) fn read_line(alloc: Global, at: u32, end: Token, xs: &[Placed]) -> Result<Line, Stop>
    ensures { Answers (read_line at end xs.now) result }
{
    match xs {
        [] => Err(Stop::Fault(fault_at(AsmKind::Shape, end))),
        [x, rest @ ..] if x.symbol == Symbol::Dot => match directive(x.token, end, rest) {
            Ok(line) => Ok(line),
            Err(token) => Err(Stop::Fault(fault_at(AsmKind::Shape, token))),
        },
        [x, rest @ ..] if x.symbol == Symbol::Colon => Err(Stop::Fault(fault_at(
            AsmKind::Shape,
            label_fault(end, rest),
        ))),
        _ => instruction_line(alloc, at, end, xs),
    }
}

impl Line {
    /// Its word, as a number.
    pub(crate) fn word(self) -> u64
        ensures { result ≡ word_in self }
    {
        match self {
            Line::Raw(number) => number,
            Line::Says(instruction) => instruction.word().0,
        }
    }
}
