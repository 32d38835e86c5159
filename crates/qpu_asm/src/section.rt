//! The sections of a line, between its signs `;`, and the parts that they are.
ghost use Rattle.std.specs.Prelude.{◌≡◌, [], None, IfOk, OnOk};
ghost use Rattle.qpu_asm.specs.reader.PartsRead.{parts_read};
ghost use Rattle.qpu_asm.specs.reader.Sections.{Cutting, nothing_cut, put_section, cut_on, sections_of, part_in, unknown_symbol, unknown_in, fault_of, own_fault, first_of, part_after, parts_on, parts_of};

use crate::order::due;
use crate::part::{Part, part_by};
use crate::placed::Placed;
use crate::roles::is_mnemonic;
use qpu_line::Symbol;
use qpu_token::Token;
use std::alloc::{AllocError, Global};
use std::marker::Model;
use std::mem;

/// A section: its tokens, and its end, a `;` or the line's end.
#[derive(Drop)]
pub(crate) struct Section {
    /// The tokens before the end.
    pub(crate) tokens: Vec<Placed>,
    /// The end.
    pub(crate) end: Token,
}

impl Model for Section {
    ghost use Rattle.qpu_asm.specs.SectionTokens.{SectionTokens};

    ghost Value = { SectionTokens };

    ghost view = { λ s. record { tokens = s.tokens.items; end = s.end } };
}

/// A line that is being cut.
#[derive(Drop)]
struct Cutter {
    sections: Vec<Section>,
    tokens: Vec<Placed>,
}

impl Model for Cutter {
    ghost use Rattle.qpu_asm.specs.reader.Sections.{Cutting};

    ghost Value = { Cutting };

    ghost view = { λ c. record { sections = c.sections.items; tokens = c.tokens.items } };
}

impl Cutter {
    /// Nothing is cut yet.
    fn new(alloc: Global) -> Cutter
        ensures { result ≡ nothing_cut }
    {
        Cutter {
            sections: Vec::new(alloc),
            tokens: Vec::new(alloc),
        }
    }

    /// Ends a section.
    fn put_section(&mut self, alloc: Global, end: Token) -> Result<(), AllocError>
        ensures { OnOk result (self.new ≡ put_section end self.old) }
    {
        let tokens = mem::replace(&mut self.tokens, Vec::new(alloc));
        self.sections.push(Section { tokens, end })?;
        Ok(())
    }

    /// Reads one token more.
    fn read(&mut self, alloc: Global, x: Placed) -> Result<(), AllocError>
        ensures { OnOk result (self.new ≡ cut_on self.old x) }
    {
        if x.symbol == Symbol::Semicolon {
            return self.put_section(alloc, x.token);
        }
        self.tokens.push(x)?;
        Ok(())
    }
}

/// The sections of a line's tokens before its end.
#[tactic(auto, unfolding(crate::specs::reader::Sections::sections_of), using(std::proofs::lemmas::List::Sums::fold_more))]
pub(crate) fn sections_of(
    alloc: Global,
    end: Token,
    xs: &[Placed],
) -> Result<Vec<Section>, AllocError>
    ensures { IfOk result (λ sections. sections.items ≡ sections_of end xs.now) }
{
    let mut cutter = Cutter::new(alloc);
    for x in xs {
        cutter.read(alloc, *x)?;
    }
    cutter.put_section(alloc, end)?;
    Ok(cutter.sections)
}

/// The part that a section is, or the token that isn't due.
fn part_in(end: Token, xs: &[Placed]) -> Result<Part, Token>
    ensures { result ≡ part_in end xs.now }
{
    match xs {
        [] => Err(end),
        [x, rest @ ..] => match x.symbol {
            Symbol::Name(name) => part_by(name, x.token, end, rest),
            _ => Err(x.token),
        },
    }
}

/// A mnemonic that is none.
fn unknown_symbol(symbol: Symbol, token: Token) -> Option<Token>
    ensures { result ≡ unknown_symbol symbol token }
{
    match symbol {
        Symbol::Name(name) => if is_mnemonic(name) { None } else { Some(token) },
        Symbol::Unknown => Some(token),
        _ => None,
    }
}

/// The mnemonic of a section, where it is none.
fn unknown_in(xs: &[Placed]) -> Option<Token>
    ensures { result ≡ unknown_in xs.now }
{
    match xs {
        [] => None,
        [x, ..] => unknown_symbol(x.symbol, x.token),
    }
}

/// The token that isn't due in a section by itself.
fn own_fault(section: &Section) -> Option<Token>
    ensures { result ≡ own_fault section.now }
{
    if unknown_in(&section.tokens).is_some() {
        return None;
    }
    part_in(section.end, &section.tokens).err()
}

/// The first token that isn't due in a section by itself.
pub(crate) fn first_own_fault(sections: &[Section]) -> Option<Token>
    ensures { result ≡ first_of own_fault sections.now }
{
    for section in sections {
        if let Some(token) = own_fault(section) {
            return Some(token);
        }
    }
    None
}

/// The first mnemonic that is none.
pub(crate) fn first_unknown(sections: &[Section]) -> Option<Token>
    ensures { result ≡ first_of (λ s. unknown_in s.tokens) sections.now }
{
    for section in sections {
        if let Some(token) = unknown_in(&section.tokens) {
            return Some(token);
        }
    }
    None
}

/// The part that a section is behind others, or the token that isn't due.
fn part_after(earlier: &[Part], end: Token, xs: &[Placed]) -> Result<Part, Token>
    ensures { result ≡ part_after earlier.now end xs.now }
{
    match xs {
        [] => Err(end),
        [x, rest @ ..] => match x.symbol {
            Symbol::Name(name) if due(earlier, name) => part_by(name, x.token, end, rest),
            _ => Err(x.token),
        },
    }
}

/// Parts that are being read, up to the first token that isn't due.
#[derive(Drop)]
pub(crate) struct Parts {
    /// The parts.
    pub(crate) parts: Vec<Part>,
    /// The token that isn't due.
    pub(crate) fault: Option<Token>,
}

impl Model for Parts {
    ghost use Rattle.std.specs.Prelude.{List, Result};
    ghost use Rattle.qpu_token.specs.declared.token.Token.{Token};
    ghost use Rattle.qpu_asm.specs.declared.part.Part.{Part};
    ghost use Rattle.qpu_asm.specs.reader.PartsRead.{parts_read};

    ghost Value = { Result (List Part) Token };

    ghost view = { λ p. parts_read p.parts.items p.fault };
}

impl Parts {
    /// Nothing is read yet.
    fn new(alloc: Global) -> Parts
        ensures { result ≡ parts_read [] None }
    {
        Parts {
            parts: Vec::new(alloc),
            fault: None,
        }
    }

    /// Reads one section more.
    fn read(&mut self, section: &Section) -> Result<(), AllocError>
        ensures { OnOk result (self.new ≡ parts_on self.old section.now) }
    {
        if self.fault.is_some() {
            return Ok(());
        }
        match part_after(&self.parts, section.end, &section.tokens) {
            Ok(part) => self.parts.push(part)?,
            Err(token) => self.fault = Some(token),
        }
        Ok(())
    }
}

/// The parts of a line, or the first token that isn't due.
#[tactic(auto, unfolding(crate::specs::reader::Sections::parts_of), using(std::proofs::lemmas::List::Sums::fold_more))]
pub(crate) fn parts_of(alloc: Global, sections: &[Section]) -> Result<Parts, AllocError>
    ensures { IfOk result (λ parts. parts ≡ parts_of sections.now) }
{
    let mut parts = Parts::new(alloc);
    for section in sections {
        parts.read(section)?;
    }
    Ok(parts)
}
