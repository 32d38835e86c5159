//! Lines of branches.
ghost use Rattle.std.specs.Prelude.{◌≡◌, ◌++◌, ◌∷◌, ◌==◌, [], if◌then◌else◌};
ghost use Rattle.qpu_io.specs.Output.{Prints};
ghost use Rattle.qpu_line.specs.declared.name.Name.TheVariants.{Link};
ghost use Rattle.qpu_line.specs.Lines.{Space, Word, branch_condition_bits, target_bits, and_then, behind, is_nowhere, link_bits, row_bits, branch_bits};
ghost use Rattle.qpu_dis.specs.Text.{bits_text, branch_name, distance_bit};

use crate::bit::{
    put_branch_condition, put_comma, put_later_names, put_name, put_semicolon, put_space,
};
use crate::figure::{put_hexadecimal, put_signed};
use crate::place::{put_spaced_target, put_target};
use qpu_io::{Sink, SinkFailed};
use qpu_line::{Branch, Name, Register};
use qpu_word::Place;
use qpu_word::code::NOWHERE;

/// Writes how far a branch goes, or where to.
fn put_distance<K: Sink>(branch: &Branch, sink: &mut K) -> Result<(), SinkFailed>
    ensures { Prints (K.shown sink.old) (K.shown sink.new) (bits_text (distance_bit branch.now ∷ [])) result }
{
    if branch.relative {
        put_signed(branch.immediate, sink)
    } else {
        put_hexadecimal(branch.immediate, sink)
    }
}

/// Writes how far a branch goes, or where to, behind its link.
#[tactic(auto, using(crate::proofs::TextLemmas::bits))]
fn put_next_distance<K: Sink>(branch: &Branch, sink: &mut K) -> Result<(), SinkFailed>
    ensures { Prints (K.shown sink.old) (K.shown sink.new) (bits_text (and_then (distance_bit branch.now ∷ []))) result }
{
    put_comma(sink)?;
    put_distance(branch, sink)
}

/// Writes the add unit's link, and how far a branch goes, or where to.
#[tactic(auto, using(crate::proofs::TextLemmas::bits))]
fn put_first_link<K: Sink>(branch: &Branch, sink: &mut K) -> Result<(), SinkFailed>
    ensures { Prints (K.shown sink.old) (K.shown sink.new) (bits_text (target_bits branch.now.add ++ and_then (distance_bit branch.now ∷ []))) result }
{
    put_target(branch.add, sink)?;
    put_next_distance(branch, sink)
}

/// Whether a target is none.
fn is_nowhere(to: Place) -> bool
    ensures { result ≡ is_nowhere to }
{
    match to {
        Place::Both(address) => address == NOWHERE,
        Place::FileA(_) | Place::FileB(_) => false,
    }
}

/// Writes a link behind what stands before it.
#[tactic(auto, using(crate::proofs::TextLemmas::bits))]
fn put_second_link<K: Sink>(to: Place, sink: &mut K) -> Result<(), SinkFailed>
    ensures { Prints (K.shown sink.old) (K.shown sink.new) (bits_text (behind (Word Link ∷ Space ∷ target_bits to))) result }
{
    put_semicolon(sink)?;
    put_name(Name::Link, sink)?;
    put_spaced_target(to, sink)
}

/// Writes the mul unit's link, where it writes one.
#[tactic(auto, using(crate::proofs::TextLemmas::no_bits))]
fn put_link<K: Sink>(to: Place, sink: &mut K) -> Result<(), SinkFailed>
    ensures { Prints (K.shown sink.old) (K.shown sink.new) (bits_text (link_bits to)) result }
{
    if is_nowhere(to) {
        return Ok(());
    }
    put_second_link(to, sink)
}

/// Writes the row that is added, where one is.
#[tactic(auto, using(crate::proofs::TextLemmas::no_bits))]
fn put_row<K: Sink>(row: Option<u32>, sink: &mut K) -> Result<(), SinkFailed>
    ensures { Prints (K.shown sink.old) (K.shown sink.new) (bits_text (row_bits row)) result }
{
    match row {
        None => Ok(()),
        Some(row) => put_later_names(Name::Row, Name::Register(Register::RowA(row)), sink),
    }
}

/// Writes both links, and how far a branch goes, or where to.
#[tactic(auto, using(crate::proofs::TextLemmas::bits))]
fn put_links<K: Sink>(branch: &Branch, sink: &mut K) -> Result<(), SinkFailed>
    ensures { Prints (K.shown sink.old) (K.shown sink.new)
        (bits_text (target_bits branch.now.add ++ and_then (distance_bit branch.now ∷ []) ++ link_bits branch.now.mul)) result }
{
    put_first_link(branch, sink)?;
    put_link(branch.mul, sink)
}

/// Writes what stands behind a branch's name and condition.
#[tactic(auto, using(crate::proofs::TextLemmas::bits))]
fn put_branch_places<K: Sink>(branch: &Branch, sink: &mut K) -> Result<(), SinkFailed>
    ensures { Prints (K.shown sink.old) (K.shown sink.new)
        (bits_text (Space ∷ target_bits branch.now.add ++ and_then (distance_bit branch.now ∷ []) ++ link_bits branch.now.mul ++ row_bits branch.now.register)) result }
{
    put_space(sink)?;
    put_links(branch, sink)?;
    put_row(branch.register, sink)
}

/// The name of a branch.
fn branch_name(relative: bool) -> Name
    ensures { result ≡ branch_name relative }
{
    if relative {
        Name::RelativeBranch
    } else {
        Name::Branch
    }
}

/// Writes the name of a branch and its condition.
#[tactic(auto, using(crate::proofs::TextLemmas::bits))]
fn put_branch_name<K: Sink>(branch: &Branch, sink: &mut K) -> Result<(), SinkFailed>
    ensures { Prints (K.shown sink.old) (K.shown sink.new)
        (bits_text (Word (branch_name branch.now.relative) ∷ branch_condition_bits branch.now.cond)) result }
{
    put_name(branch_name(branch.relative), sink)?;
    put_branch_condition(branch.cond, sink)
}

/// Writes the line of a branch.
pub(crate) fn put_branch<K: Sink>(branch: &Branch, sink: &mut K) -> Result<(), SinkFailed>
    ensures { Prints (K.shown sink.old) (K.shown sink.new) (bits_text (branch_bits branch.now)) result }
{
    put_branch_name(branch, sink)?;
    put_branch_places(branch, sink)
}
