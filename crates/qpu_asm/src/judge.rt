//! The faults of a line's marks, kind by kind.
ghost use Rattle.std.specs.Prelude.{◌≡◌, []};
ghost use Rattle.std.specs.List.{list_any};
ghost use Rattle.qpu_asm.specs.Clashes.{is_wrong, cross, not_beside, other_immediate, other_read, clashes, kind_of, fault_at};
ghost use Rattle.qpu_asm.specs.reader.Judging.{is_faulty, first_faulty, fault_of_kind, line_fault};

use crate::mark::{Mark, What};
use qpu_token::{AsmFault, AsmKind, Token};
use qpu_word::Place;

/// The kinds of faults that marks have.
#[derive(Clone, Copy)]
pub(crate) enum Judged {
    /// A name isn't allowed in its place.
    Operands,
    /// Two immediates that don't fit one word.
    TwoImmediates,
    /// Two reads of one file that differ.
    TwoReads,
    /// A label that isn't in the text.
    Label,
    /// A number out of its range.
    Range,
}

/// Whether a mark is faulty by itself.
fn is_wrong(kind: Judged, what: What) -> bool
    ensures { result ≡ is_wrong kind what }
{
    matches!(
        (kind, what),
        (Judged::Operands, What::Wrong)
            | (Judged::Label, What::Missing)
            | (Judged::Range, What::Far)
    )
}

/// Whether two targets want the units' files in different orders.
fn cross(p: Place, q: Place) -> bool
    ensures { result ≡ cross p q }
{
    matches!(
        (p, q),
        (Place::FileA(_), Place::FileA(_)) | (Place::FileB(_), Place::FileB(_))
    )
}

/// Whether a name isn't allowed behind an earlier one.
fn not_beside(a: What, b: What) -> bool
    ensures { result ≡ not_beside a b }
{
    match (a, b) {
        (What::Writes(p), What::Writes(q)) => cross(p, q),
        (What::Unpacks(n, u), What::Unpacks(m, v)) => n == m && u != v,
        (What::Adds, What::MulSets)
        | (What::Number(_), What::Signals)
        | (What::Rotates, What::Signals)
        | (What::Signals, What::Rotates)
        | (What::Fixed, What::Rotates) => true,
        _ => false,
    }
}

/// Whether two immediates don't fit one word.
fn other_immediate(a: What, b: What) -> bool
    ensures { result ≡ other_immediate a b }
{
    match (a, b) {
        (What::Number(n), What::Number(m)) => n != m,
        (What::Number(_), What::ReadsB(_))
        | (What::ReadsB(_), What::Number(_))
        | (What::Number(_), What::Rotates)
        | (What::ReadsB(_), What::Rotates)
        | (What::Rotates, What::ReadsB(_)) => true,
        _ => false,
    }
}

/// Whether two reads of one file differ.
fn other_read(a: What, b: What) -> bool
    ensures { result ≡ other_read a b }
{
    match (a, b) {
        (What::ReadsA(n), What::ReadsA(m)) | (What::ReadsB(n), What::ReadsB(m)) => n != m,
        _ => false,
    }
}

/// Whether a mark is faulty together with an earlier one.
fn clashes(kind: Judged, a: What, b: What) -> bool
    ensures { result ≡ clashes kind a b }
{
    match kind {
        Judged::Operands => not_beside(a, b),
        Judged::TwoImmediates => other_immediate(a, b),
        Judged::TwoReads => other_read(a, b),
        Judged::Label | Judged::Range => false,
    }
}

/// Whether a mark clashes with one of earlier ones.
fn any_clashes(kind: Judged, earlier: &[Mark], what: What) -> bool
    ensures { result ≡ list_any (λ e. clashes kind e.what what) earlier.now }
{
    earlier.iter().any(|e| clashes(kind, e.what, what))
}

/// Whether a mark is faulty behind earlier ones.
fn is_faulty(kind: Judged, earlier: &[Mark], mark: Mark) -> bool
    ensures { result ≡ is_faulty kind earlier.now mark }
{
    is_wrong(kind, mark.what) || any_clashes(kind, earlier, mark.what)
}

/// The first faulty mark of a kind.
fn first_faulty(kind: Judged, marks: &[Mark]) -> Option<Token>
    ensures { result ≡ first_faulty kind [] marks.now }
{
    for (i, mark) in marks.iter().enumerate() {
        if is_faulty(kind, &marks[..i], *mark) {
            return Some(mark.token);
        }
    }
    None
}

impl Judged {
    /// The kind of a fault.
    fn kind(self) -> AsmKind
        ensures { result ≡ kind_of self }
    {
        match self {
            Judged::Operands => AsmKind::Operands,
            Judged::TwoImmediates => AsmKind::TwoImmediates,
            Judged::TwoReads => AsmKind::TwoReads,
            Judged::Label => AsmKind::Label,
            Judged::Range => AsmKind::Range,
        }
    }
}

/// A fault at a token.
pub(crate) fn fault_at(kind: AsmKind, token: Token) -> AsmFault
    ensures { result ≡ fault_at kind token }
{
    AsmFault {
        kind,
        line: token.line,
        column: token.column,
    }
}

/// The first fault of a kind.
#[tactic(auto, unfolding(crate::specs::reader::Judging::fault_of_kind))]
fn fault_of_kind(marks: &[Mark], kind: Judged) -> Option<AsmFault>
    ensures { result ≡ fault_of_kind marks.now kind }
{
    match first_faulty(kind, marks) {
        Some(token) => Some(fault_at(kind.kind(), token)),
        None => None,
    }
}

/// The fault of a line's marks.
#[tactic(auto, unfolding(crate::specs::reader::Judging::line_fault))]
pub(crate) fn line_fault(marks: &[Mark]) -> Option<AsmFault>
    ensures { result ≡ line_fault marks.now }
{
    fault_of_kind(marks, Judged::Operands)
        .or(fault_of_kind(marks, Judged::TwoImmediates))
        .or(fault_of_kind(marks, Judged::TwoReads))
        .or(fault_of_kind(marks, Judged::Label))
        .or(fault_of_kind(marks, Judged::Range))
}
