//! What the names and numbers of a line's parts stand for, in the line's order: what is judged.
ghost use Rattle.std.specs.Prelude.{◌≡◌, [], OnOk};
ghost use Rattle.qpu_asm.specs.reader.Marks.{mark, mark_if};
ghost use Rattle.qpu_asm.specs.Roles.{code_of};

use qpu_pack::small_code;
use qpu_token::Token;
use qpu_word::Place;
use std::alloc::{AllocError, Global};
use std::marker::Model;

/// What a token of a line stands for.
#[derive(Clone, Copy)]
pub(crate) enum What {
    /// A name that isn't allowed there.
    Wrong,
    /// A label that isn't in the text.
    Missing,
    /// A number that is out of its range.
    Far,
    /// The add unit is active.
    Adds,
    /// The mul unit's part sets the flags.
    MulSets,
    /// A target.
    Writes(Place),
    /// A read of an address of file A.
    ReadsA(u32),
    /// The unpack mode of an operand of an address of file A.
    Unpacks(u32, u32),
    /// A read of an address of file B.
    ReadsB(u32),
    /// A number as an operand.
    Number(u32),
    /// An operand of the mul unit that isn't rotated.
    Fixed,
    /// A rotation.
    Rotates,
    /// A signal.
    Signals,
}

/// What a token stands for.
#[derive(Clone, Copy)]
pub(crate) struct Mark {
    /// What it is.
    pub(crate) what: What,
    /// The token.
    pub(crate) token: Token,
}

/// The code of a small immediate with a value (Guide, "QPU Instruction Encoding").
#[tactic(auto, using(crate::proofs::SmallLemmas::code_found, crate::proofs::SmallLemmas::no_code))]
pub(crate) fn code_of(value: u32) -> Option<u32>
    ensures { result ≡ code_of value }
{
    small_code(value)
}

/// Marks, in a line's order. Contracts see their list.
#[derive(Drop)]
pub(crate) struct Marks {
    pub(crate) marks: Vec<Mark>,
}

impl Model for Marks {
    ghost use Rattle.std.specs.Prelude.{List};
    ghost use Rattle.qpu_asm.specs.declared.mark.Mark.{Mark};

    ghost Value = { List Mark };

    ghost view = { λ m. m.marks.items };
}

impl Marks {
    /// No mark.
    pub(crate) fn new(alloc: Global) -> Marks
        ensures { result ≡ [] }
    {
        Marks {
            marks: Vec::new(alloc),
        }
    }

    /// Puts a mark behind the others.
    pub(crate) fn put(&mut self, what: What, token: Token) -> Result<(), AllocError>
        ensures { OnOk result (self.new ≡ mark what token self.old) }
    {
        self.marks.push(Mark { what, token })?;
        Ok(())
    }

    /// Puts a mark where something holds.
    pub(crate) fn put_if(&mut self, holds: bool, what: What, token: Token) -> Result<(), AllocError>
        ensures { OnOk result (self.new ≡ mark_if holds what token self.old) }
    {
        if holds {
            self.put(what, token)?;
        }
        Ok(())
    }
}
