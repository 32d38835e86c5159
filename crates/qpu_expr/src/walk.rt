//! What is told of a line token by token, without its tokens being held.
ghost use Rattle.std.specs.Prelude.{◌≡◌, IfOk, OnOk, drop, fold};
ghost use Rattle.qpu_expr.specs.Pieces.{joined};
ghost use Rattle.qpu_expr.specs.Walks.{walked, walk_outline, walk_lacks, walk_twice};

use crate::form::Outline;
use crate::heading::Heading;
use crate::macros::Macro;
use crate::piece::Piece;
use crate::place::Place;
use crate::scan::Scan;
use crate::table::Table;
use qpu_token::Token;
use std::alloc::AllocError;

/// What is read of a line.
#[derive(Drop)]
pub(crate) enum Walk {
    /// An expression.
    Number(Outline),
    /// The parts of an instruction.
    Parts(Scan),
    /// The names of a macro's heading.
    Names(Heading),
}

impl Walk {
    /// Reads one token more.
    fn read(&mut self, text: &[u8], sets: &Table<u32>, token: Token) -> Result<(), AllocError>
        ensures { OnOk result (self.new ≡ walked text.now sets.now self.old token) }
    {
        match self {
            Walk::Number(outline) => *outline = outline.read(text, sets, token)?,
            Walk::Parts(scan) => *scan = scan.read(text, sets, token)?,
            Walk::Names(heading) => heading.read(text, token)?,
        }
        Ok(())
    }

    /// What an expression is.
    pub(crate) fn outline(&self) -> Outline
        ensures { result ≡ walk_outline self.now }
    {
        match self {
            Walk::Number(outline) => *outline,
            Walk::Parts(_) | Walk::Names(_) => Outline::new(),
        }
    }

    /// The place of the first operand of parts with a name that isn't set.
    pub(crate) fn lacks(&self, text: &[u8], sets: &Table<u32>) -> Result<Option<Place>, AllocError>
        ensures { IfOk result (λ place. place ≡ walk_lacks text.now sets.now self.now) }
    {
        match self {
            Walk::Parts(scan) => scan.lacks(text, sets),
            Walk::Number(_) | Walk::Names(_) => Ok(None),
        }
    }

    /// The place of the first name of a heading that is there already.
    pub(crate) fn twice(&self, text: &[u8], macros: &Table<Macro>) -> Option<Place>
        ensures { result ≡ walk_twice text.now macros.now self.now }
    {
        match self {
            Walk::Names(heading) => heading.twice(text, macros),
            Walk::Number(_) | Walk::Parts(_) => None,
        }
    }
}

/// Reads the tokens of a piece behind its first ones.
#[tactic(auto, using(crate::proofs::WalkLemmas::all_rest))]
fn read_piece(
    walk: &mut Walk,
    text: &[u8],
    sets: &Table<u32>,
    skip: usize,
    piece: &Piece,
) -> Result<(), AllocError>
    ensures { OnOk result (walk.new ≡ fold (walked text.now sets.now) walk.old (drop skip piece.now)) }
{
    for i in skip..piece.len() {
        walk.read(text, sets, piece.token(i))?;
    }
    Ok(())
}

/// Reads the tokens of pieces behind their first ones.
#[tactic(auto, using(crate::proofs::WalkLemmas::piece_step, crate::proofs::WalkLemmas::all_pieces))]
pub(crate) fn read_behind(
    walk: &mut Walk,
    text: &[u8],
    sets: &Table<u32>,
    skip: usize,
    pieces: &[Piece],
) -> Result<(), AllocError>
    ensures { OnOk result (walk.new ≡ fold (walked text.now sets.now) walk.old (drop skip (joined pieces.now))) }
{
    let mut left = skip;
    for piece in pieces {
        read_piece(walk, text, sets, left, piece)?;
        left = left.saturating_sub(piece.len());
    }
    Ok(())
}
