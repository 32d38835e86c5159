//! The bits of lines: names, spaces and suffixes.
ghost use Rattle.std.specs.Prelude.{[], ◌∷◌, ◌++◌};
ghost use Rattle.qpu_io.specs.Output.{Prints};
ghost use Rattle.qpu_line.specs.Lines.{Word, Comma, Dash, Semicolon, Space, suffix, behind, condition_bits, branch_condition_bits, flags_bits, pack_bits, unpack_bits};
ghost use Rattle.qpu_dis.specs.Text.{bits_text};

use qpu_io::{Piece, Sink, SinkFailed, put_all, write_all_of};
use qpu_line::{Name, spelling};
use qpu_word::code::COND_ALWAYS;

const BRANCH_CONDITIONS: u32 = 12;

/// The unpack mode whose name isn't a pack mode's.
const REPLICATE: u32 = 3;

/// Writes a name.
#[tactic(auto, unfolding(crate::specs::Text::bits_text))]
pub(crate) fn put_name<K: Sink>(name: Name, sink: &mut K) -> Result<(), SinkFailed>
    ensures { Prints (K.shown sink.old) (K.shown sink.new) (bits_text (Word name ∷ [])) result }
{
    put_all(&[Piece::Text(spelling(name).as_bytes())], sink)
}

/// Writes a space.
#[tactic(auto, unfolding(crate::specs::Text::bits_text))]
pub(crate) fn put_space<K: Sink>(sink: &mut K) -> Result<(), SinkFailed>
    ensures { Prints (K.shown sink.old) (K.shown sink.new) (bits_text (Space ∷ [])) result }
{
    write_all_of(sink, b" ")
}

/// Writes what stands in place of a target that is none.
#[tactic(auto, unfolding(crate::specs::Text::bits_text))]
pub(crate) fn put_dash<K: Sink>(sink: &mut K) -> Result<(), SinkFailed>
    ensures { Prints (K.shown sink.old) (K.shown sink.new) (bits_text (Dash ∷ [])) result }
{
    write_all_of(sink, b"-")
}

/// Writes what stands between two operands.
#[tactic(auto, unfolding(crate::specs::Text::bits_text))]
pub(crate) fn put_comma<K: Sink>(sink: &mut K) -> Result<(), SinkFailed>
    ensures { Prints (K.shown sink.old) (K.shown sink.new) (bits_text (Comma ∷ Space ∷ [])) result }
{
    write_all_of(sink, b", ")
}

/// Writes what stands between two parts.
#[tactic(auto, unfolding(crate::specs::Text::bits_text))]
pub(crate) fn put_semicolon<K: Sink>(sink: &mut K) -> Result<(), SinkFailed>
    ensures { Prints (K.shown sink.old) (K.shown sink.new) (bits_text (Semicolon ∷ Space ∷ [])) result }
{
    write_all_of(sink, b"; ")
}

/// Writes a suffix.
#[tactic(auto, unfolding(crate::specs::Text::bits_text))]
fn put_suffix<K: Sink>(name: Name, sink: &mut K) -> Result<(), SinkFailed>
    ensures { Prints (K.shown sink.old) (K.shown sink.new) (bits_text (suffix name)) result }
{
    put_all(
        &[Piece::Text(b"."), Piece::Text(spelling(name).as_bytes())],
        sink,
    )
}

/// Writes a write condition's suffix.
#[tactic(auto, using(crate::proofs::TextLemmas::no_bits))]
pub(crate) fn put_condition<K: Sink>(cond: u32, sink: &mut K) -> Result<(), SinkFailed>
    ensures { Prints (K.shown sink.old) (K.shown sink.new) (bits_text (condition_bits cond)) result }
{
    if cond <= COND_ALWAYS {
        return Ok(());
    }
    put_suffix(Name::Condition(cond), sink)
}

/// Writes a branch condition's suffix.
#[tactic(auto, using(crate::proofs::TextLemmas::no_bits))]
pub(crate) fn put_branch_condition<K: Sink>(cond: u32, sink: &mut K) -> Result<(), SinkFailed>
    ensures { Prints (K.shown sink.old) (K.shown sink.new) (bits_text (branch_condition_bits cond)) result }
{
    if cond >= BRANCH_CONDITIONS {
        return Ok(());
    }
    put_suffix(Name::BranchCondition(cond), sink)
}

/// Writes the suffix of what sets flags.
#[tactic(auto, using(crate::proofs::TextLemmas::no_bits))]
pub(crate) fn put_flags<K: Sink>(sets: bool, sink: &mut K) -> Result<(), SinkFailed>
    ensures { Prints (K.shown sink.old) (K.shown sink.new) (bits_text (flags_bits sets)) result }
{
    if !sets {
        return Ok(());
    }
    put_suffix(Name::SetFlags, sink)
}

/// Writes the suffixes of an operation.
#[tactic(auto, using(crate::proofs::TextLemmas::bits))]
pub(crate) fn put_suffixes<K: Sink>(cond: u32, sets: bool, sink: &mut K) -> Result<(), SinkFailed>
    ensures { Prints (K.shown sink.old) (K.shown sink.new) (bits_text (condition_bits cond ++ flags_bits sets)) result }
{
    put_condition(cond, sink)?;
    put_flags(sets, sink)
}

/// Writes a pack mode's suffix.
#[tactic(auto, using(crate::proofs::TextLemmas::no_bits))]
pub(crate) fn put_pack<K: Sink>(pack: u32, sink: &mut K) -> Result<(), SinkFailed>
    ensures { Prints (K.shown sink.old) (K.shown sink.new) (bits_text (pack_bits pack)) result }
{
    if pack == 0 {
        return Ok(());
    }
    put_suffix(Name::Pack(pack), sink)
}

/// Writes an unpack mode's suffix.
#[tactic(auto, using(crate::proofs::TextLemmas::no_bits))]
pub(crate) fn put_unpack<K: Sink>(unpack: u32, sink: &mut K) -> Result<(), SinkFailed>
    ensures { Prints (K.shown sink.old) (K.shown sink.new) (bits_text (unpack_bits unpack)) result }
{
    match unpack {
        0 => Ok(()),
        REPLICATE => put_suffix(Name::Replicate, sink),
        _ => put_suffix(Name::Pack(unpack), sink),
    }
}

/// Writes two names behind a part.
#[tactic(auto, using(crate::proofs::TextLemmas::bits))]
pub(crate) fn put_later_names<K: Sink>(
    before: Name,
    name: Name,
    sink: &mut K,
) -> Result<(), SinkFailed>
    ensures { Prints (K.shown sink.old) (K.shown sink.new) (bits_text (behind (Word before ∷ Space ∷ Word name ∷ []))) result }
{
    put_semicolon(sink)?;
    put_name(before, sink)?;
    put_space(sink)?;
    put_name(name, sink)
}
