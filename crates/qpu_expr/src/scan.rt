//! The names that aren't set in the operands of a line's parts, told token by token.
ghost use Rattle.std.specs.Prelude.{◌≡◌, IfOk};
ghost use Rattle.qpu_expr.specs.Scans.{no_core, cored, core_lacks, no_held, held, core_in, held_lacks, scanned, part_lacks, part_behind, no_scan, scan_lacks, scan_on};

use crate::form::Outline;
use crate::operand::{Between, is_dot, is_name, is_suffix, separates};
use crate::place::{Place, place_of};
use crate::symbol::symbol_of;
use crate::table::Table;
use qpu_token::Token;
use std::alloc::AllocError;

/// An operand without its suffix.
#[derive(Clone, Copy)]
pub(crate) struct Core {
    /// Its first token.
    pub(crate) first: Option<Token>,
    /// Whether it is a name alone.
    pub(crate) lone: bool,
    /// Whether it is an expression.
    pub(crate) outline: Outline,
}

/// The last tokens of an operand, which may be its suffix.
#[derive(Clone, Copy)]
pub(crate) enum Last {
    /// There is none.
    Nothing,
    /// The only one.
    One(Token),
    /// The last two.
    Two(Token, Token),
}

/// An operand up to here.
#[derive(Clone, Copy)]
pub(crate) struct Held {
    /// What comes before its last tokens.
    pub(crate) core: Core,
    /// Its last tokens.
    pub(crate) last: Last,
}

/// A part up to its next sign `,` or `;`.
#[derive(Clone, Copy)]
pub(crate) enum Part {
    /// Its first token is due.
    Start,
    /// The mnemonic is there, and whole suffixes.
    Suffixes,
    /// A sign `.` more.
    Dotted(Token),
    /// An operand.
    Operand(Held),
    /// It doesn't begin with a name.
    Other,
}

/// A line up to here.
#[derive(Clone, Copy)]
pub(crate) struct Scan {
    /// The part that is read.
    pub(crate) part: Part,
    /// The place of the first operand with a name that isn't set, before the last sign.
    pub(crate) unknown: Option<Place>,
}

impl Core {
    /// Nothing is read yet.
    fn new() -> Core
        ensures { result ≡ no_core }
    {
        Core {
            first: None,
            lone: false,
            outline: Outline::new(),
        }
    }

    /// Reads one token more.
    fn read(self, text: &[u8], sets: &Table<u32>, token: Token) -> Result<Core, AllocError>
        ensures { IfOk result (λ c. c ≡ cored text.now sets.now self token) }
    {
        Ok(Core {
            first: self.first.or(Some(token)),
            lone: self.first.is_none() && is_name(text, token),
            outline: self.outline.read(text, sets, token)?,
        })
    }

    /// The place of an operand with a name that isn't set.
    fn lacks(self) -> Option<Place>
        ensures { result ≡ core_lacks self }
    {
        if self.lone || !self.outline.lacks() {
            return None;
        }
        match self.first {
            Some(first) => Some(place_of(first)),
            None => None,
        }
    }
}

impl Held {
    /// Nothing is read yet.
    fn new() -> Held
        ensures { result ≡ no_held }
    {
        Held {
            core: Core::new(),
            last: Last::Nothing,
        }
    }

    /// Reads one token more.
    fn read(self, text: &[u8], sets: &Table<u32>, token: Token) -> Result<Held, AllocError>
        ensures { IfOk result (λ h. h ≡ held text.now sets.now self token) }
    {
        match self.last {
            Last::Nothing => Ok(Held {
                core: self.core,
                last: Last::One(token),
            }),
            Last::One(a) => Ok(Held {
                core: self.core,
                last: Last::Two(a, token),
            }),
            Last::Two(a, b) => Ok(Held {
                core: self.core.read(text, sets, a)?,
                last: Last::Two(b, token),
            }),
        }
    }

    /// The operand without its suffix.
    fn core(self, text: &[u8], sets: &Table<u32>) -> Result<Core, AllocError>
        ensures { IfOk result (λ c. c ≡ core_in text.now sets.now self) }
    {
        match self.last {
            Last::Nothing => Ok(self.core),
            Last::One(a) => self.core.read(text, sets, a),
            Last::Two(a, b) => {
                if is_suffix(text, a, b) {
                    return Ok(self.core);
                }
                self.core.read(text, sets, a)?.read(text, sets, b)
            }
        }
    }

    /// The place of an operand with a name that isn't set.
    fn lacks(self, text: &[u8], sets: &Table<u32>) -> Result<Option<Place>, AllocError>
        ensures { IfOk result (λ place. place ≡ held_lacks text.now sets.now self) }
    {
        let core = self.core(text, sets)?;
        Ok(core.lacks())
    }
}

impl Part {
    /// Reads one token more, which is no sign between two operands or parts.
    fn read(self, text: &[u8], sets: &Table<u32>, token: Token) -> Result<Part, AllocError>
        ensures { IfOk result (λ part. part ≡ scanned text.now sets.now self token) }
    {
        match self {
            Part::Start if is_name(text, token) => Ok(Part::Suffixes),
            Part::Start | Part::Other => Ok(Part::Other),
            Part::Suffixes if is_dot(text, token) => Ok(Part::Dotted(token)),
            Part::Suffixes => Ok(Part::Operand(Held::new().read(text, sets, token)?)),
            Part::Dotted(_) if is_name(text, token) => Ok(Part::Suffixes),
            Part::Dotted(dot) => {
                let h = Held::new().read(text, sets, dot)?;
                Ok(Part::Operand(h.read(text, sets, token)?))
            }
            Part::Operand(h) => Ok(Part::Operand(h.read(text, sets, token)?)),
        }
    }

    /// The place of its operand, where a name in it isn't set.
    fn lacks(self, text: &[u8], sets: &Table<u32>) -> Result<Option<Place>, AllocError>
        ensures { IfOk result (λ place. place ≡ part_lacks text.now sets.now self) }
    {
        match self {
            Part::Start | Part::Suffixes | Part::Other => Ok(None),
            Part::Dotted(dot) => Held::new().read(text, sets, dot)?.lacks(text, sets),
            Part::Operand(h) => h.lacks(text, sets),
        }
    }

    /// What follows behind a sign.
    fn behind(self, between: Between) -> Part
        ensures { result ≡ part_behind self between }
    {
        match (self, between) {
            (_, Between::Parts) => Part::Start,
            (Part::Start | Part::Other, Between::Operands) => Part::Other,
            (Part::Suffixes | Part::Dotted(_) | Part::Operand(_), Between::Operands) =>
                Part::Operand(Held::new()),
        }
    }
}

impl Scan {
    /// Nothing is read yet.
    pub(crate) fn new() -> Scan
        ensures { result ≡ no_scan }
    {
        Scan {
            part: Part::Start,
            unknown: None,
        }
    }

    /// The place of the first operand with a name that isn't set.
    pub(crate) fn lacks(self, text: &[u8], sets: &Table<u32>) -> Result<Option<Place>, AllocError>
        ensures { IfOk result (λ place. place ≡ scan_lacks text.now sets.now self) }
    {
        let last = self.part.lacks(text, sets)?;
        Ok(self.unknown.or(last))
    }

    /// Reads one token more.
    pub(crate) fn read(
        self,
        text: &[u8],
        sets: &Table<u32>,
        token: Token,
    ) -> Result<Scan, AllocError>
        ensures { IfOk result (λ s. s ≡ scan_on text.now sets.now self token) }
    {
        match separates(symbol_of(text, token)) {
            None => Ok(Scan {
                part: self.part.read(text, sets, token)?,
                unknown: self.unknown,
            }),
            Some(between) => Ok(Scan {
                part: self.part.behind(between),
                unknown: self.lacks(text, sets)?,
            }),
        }
    }
}
