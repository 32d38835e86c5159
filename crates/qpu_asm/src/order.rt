//! Which parts may follow which in a line.
ghost use Rattle.std.specs.Prelude.{◌≡◌};
ghost use Rattle.std.specs.List.{list_any};
ghost use Rattle.qpu_asm.specs.Forms.{begins, is_nop};
ghost use Rattle.qpu_asm.specs.reader.Orders.{is_unit, is_rotation, is_signal, is_read_a, is_read_b, is_link, is_row, no, extra, second, unit_follows, load_follows, is_name, branch_follows, follows, due};

use crate::part::{BranchPart, Part};
use crate::piece::Core;
use crate::roles::op_in_mul;
use qpu_line::Name;

/// Whether a line may begin with a name.
fn begins(name: Name) -> bool
    ensures { result ≡ begins name }
{
    matches!(
        name,
        Name::Add(_)
            | Name::Mov
            | Name::Nop
            | Name::Load(_)
            | Name::Increment
            | Name::Decrement
            | Name::Branch
            | Name::RelativeBranch
    )
}

/// Whether a part is a unit's.
fn is_unit(part: Part) -> bool
    ensures { result ≡ is_unit part }
{
    matches!(part, Part::Unit(_))
}

/// Whether one of parts is a unit's.
fn has_unit(parts: &[Part]) -> bool
    ensures { result ≡ list_any is_unit parts.now }
{
    parts.iter().any(|part| is_unit(*part))
}

/// Whether a part is a rotation.
fn is_rotation(part: Part) -> bool
    ensures { result ≡ is_rotation part }
{
    matches!(part, Part::Rotate(..))
}

/// Whether one of parts is a rotation.
fn has_rotation(parts: &[Part]) -> bool
    ensures { result ≡ list_any is_rotation parts.now }
{
    parts.iter().any(|part| is_rotation(*part))
}

/// Whether a part is a signal.
fn is_signal(part: Part) -> bool
    ensures { result ≡ is_signal part }
{
    matches!(part, Part::Signal(..))
}

/// Whether one of parts is a signal.
fn has_signal(parts: &[Part]) -> bool
    ensures { result ≡ list_any is_signal parts.now }
{
    parts.iter().any(|part| is_signal(*part))
}

/// Whether a part is another read of file A.
fn is_read_a(part: Part) -> bool
    ensures { result ≡ is_read_a part }
{
    matches!(part, Part::ReadA(_))
}

/// Whether one of parts is another read of file A.
fn has_read_a(parts: &[Part]) -> bool
    ensures { result ≡ list_any is_read_a parts.now }
{
    parts.iter().any(|part| is_read_a(*part))
}

/// Whether a part is another read of file B.
fn is_read_b(part: Part) -> bool
    ensures { result ≡ is_read_b part }
{
    matches!(part, Part::ReadB(_))
}

/// Whether one of parts is another read of file B.
fn has_read_b(parts: &[Part]) -> bool
    ensures { result ≡ list_any is_read_b parts.now }
{
    parts.iter().any(|part| is_read_b(*part))
}

/// Whether a part is a branch's second target.
fn is_link(part: Part) -> bool
    ensures { result ≡ is_link part }
{
    matches!(part, Part::Link(_))
}

/// Whether one of parts is a branch's second target.
fn has_link(parts: &[Part]) -> bool
    ensures { result ≡ list_any is_link parts.now }
{
    parts.iter().any(|part| is_link(*part))
}

/// Whether a part is the row of a branch.
fn is_row(part: Part) -> bool
    ensures { result ≡ is_row part }
{
    matches!(part, Part::Row(_))
}

/// Whether one of parts is the row of a branch.
fn has_row(parts: &[Part]) -> bool
    ensures { result ≡ list_any is_row parts.now }
{
    parts.iter().any(|part| is_row(*part))
}

/// Whether a name may stand behind the units' parts, of which and others these are those behind the
/// first.
fn extra(later: &[Part], name: Name) -> bool
    ensures { result ≡ extra later.now name }
{
    match name {
        Name::End | Name::Load0 | Name::Load1 => !has_signal(later),
        Name::Rotate => has_unit(later) && !has_rotation(later),
        Name::ReadA => !has_read_a(later),
        Name::ReadB => !has_read_b(later),
        _ => false,
    }
}

/// Whether a name may stand directly behind the add unit's part.
fn second(idle: bool, name: Name) -> bool
    ensures { result ≡ second idle name }
{
    op_in_mul(name).is_some() || idle && matches!(name, Name::Nop)
}

/// Whether a name may follow the add unit's part and later ones.
fn unit_follows(idle: bool, later: &[Part], name: Name) -> bool
    ensures { result ≡ unit_follows idle later.now name }
{
    later.is_empty() && second(idle, name) || extra(later, name)
}

/// Whether a name may follow a branch and later parts.
fn branch_follows(branch: BranchPart, later: &[Part], name: Name) -> bool
    ensures { result ≡ branch_follows branch later.now name }
{
    match name {
        Name::Link => !has_link(later),
        Name::Row => !has_row(later)
            && !matches!(branch.target.core, Core::Name(_) | Core::Unknown),
        _ => false,
    }
}

/// Whether a name may follow a part and later ones.
fn follows(first: Part, later: &[Part], name: Name) -> bool
    ensures { result ≡ follows first later.now name }
{
    match first {
        Part::Nop => unit_follows(true, later, name),
        Part::Unit(_) => unit_follows(false, later, name),
        Part::Load(_) => matches!(name, Name::Also) && later.is_empty(),
        Part::Branch(branch) => branch_follows(branch, later, name),
        _ => false,
    }
}

/// Whether a part with a mnemonic may stand behind others.
#[tactic(auto, unfolding(crate::specs::reader::Orders::due))]
pub(crate) fn due(earlier: &[Part], name: Name) -> bool
    ensures { result ≡ due earlier.now name }
{
    match earlier {
        [] => begins(name),
        [first, later @ ..] => follows(*first, later, name),
    }
}
