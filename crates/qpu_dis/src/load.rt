//! Lines of loads and semaphore instructions.
ghost use Rattle.std.specs.Prelude.{◌≡◌, ◌++◌, ◌∷◌, []};
ghost use Rattle.qpu_io.specs.Output.{Prints};
ghost use Rattle.qpu_line.specs.declared.name.Name.TheVariants.{Also, Load as LoadName};
ghost use Rattle.qpu_line.specs.Loads.{write_target};
ghost use Rattle.qpu_line.specs.Lines.{Space, Word, Number, Hexadecimal, condition_bits, write_bits, also_bits, flags_bits, target_bits, and_then, behind, load_bits, semaphore_bits};
ghost use Rattle.qpu_dis.specs.Text.{bits_text};

use crate::bit::{put_comma, put_condition, put_flags, put_name, put_semicolon, put_space};
use crate::figure::{put_decimal, put_hexadecimal};
use crate::place::{put_spaced_target, put_target};
use qpu_io::{Sink, SinkFailed};
use qpu_line::{Load, Name, Semaphore, Write};
use qpu_word::Place;
use qpu_word::code::NOWHERE;

/// Writes the condition of a unit that writes.
#[tactic(auto, using(crate::proofs::TextLemmas::no_bits))]
fn put_write<K: Sink>(write: Option<Write>, sink: &mut K) -> Result<(), SinkFailed>
    ensures { Prints (K.shown sink.old) (K.shown sink.new) (bits_text (write_bits write)) result }
{
    match write {
        None => Ok(()),
        Some(write) => put_condition(write.cond, sink),
    }
}

/// Writes the suffixes of a load.
#[tactic(auto, using(crate::proofs::TextLemmas::bits))]
fn put_load_suffixes<K: Sink>(load: &Load, sink: &mut K) -> Result<(), SinkFailed>
    ensures { Prints (K.shown sink.old) (K.shown sink.new) (bits_text (write_bits load.now.add ++ flags_bits load.now.sets)) result }
{
    put_write(load.add, sink)?;
    put_flags(load.sets, sink)
}

/// The target of a unit that writes or doesn't.
fn write_target(write: Option<Write>) -> Place
    ensures { result ≡ write_target write }
{
    match write {
        None => Place::Both(NOWHERE),
        Some(write) => write.to,
    }
}

/// Writes a further number in hexadecimal.
#[tactic(auto, using(crate::proofs::TextLemmas::bits))]
fn put_immediate<K: Sink>(n: u32, sink: &mut K) -> Result<(), SinkFailed>
    ensures { Prints (K.shown sink.old) (K.shown sink.new) (bits_text (and_then (Number (Hexadecimal n) ∷ []))) result }
{
    put_comma(sink)?;
    put_hexadecimal(n, sink)
}

/// Writes a target and a number in hexadecimal.
#[tactic(auto, using(crate::proofs::TextLemmas::bits))]
fn put_loaded<K: Sink>(to: Place, n: u32, sink: &mut K) -> Result<(), SinkFailed>
    ensures { Prints (K.shown sink.old) (K.shown sink.new) (bits_text (target_bits to ++ and_then (Number (Hexadecimal n) ∷ []))) result }
{
    put_target(to, sink)?;
    put_immediate(n, sink)
}

/// Writes what the mul unit writes of a load.
#[tactic(auto, using(crate::proofs::TextLemmas::bits))]
fn put_second_write<K: Sink>(write: Write, sink: &mut K) -> Result<(), SinkFailed>
    ensures { Prints (K.shown sink.old) (K.shown sink.new)
        (bits_text (behind (Word Also ∷ condition_bits write.cond ++ Space ∷ target_bits write.to))) result }
{
    put_semicolon(sink)?;
    put_name(Name::Also, sink)?;
    put_condition(write.cond, sink)?;
    put_spaced_target(write.to, sink)
}

/// Writes what the mul unit writes of a load, where it writes.
#[tactic(auto, using(crate::proofs::TextLemmas::no_bits))]
fn put_also<K: Sink>(write: Option<Write>, sink: &mut K) -> Result<(), SinkFailed>
    ensures { Prints (K.shown sink.old) (K.shown sink.new) (bits_text (also_bits write)) result }
{
    match write {
        None => Ok(()),
        Some(write) => put_second_write(write, sink),
    }
}

/// Writes the targets and the number of a load.
#[tactic(auto, using(crate::proofs::TextLemmas::bits))]
fn put_load_places<K: Sink>(load: &Load, sink: &mut K) -> Result<(), SinkFailed>
    ensures { Prints (K.shown sink.old) (K.shown sink.new)
        (bits_text (Space ∷ target_bits (write_target load.now.add) ++ and_then (Number (Hexadecimal load.now.immediate) ∷ []) ++ also_bits load.now.mul)) result }
{
    put_space(sink)?;
    put_loaded(write_target(load.add), load.immediate, sink)?;
    put_also(load.mul, sink)
}

/// Writes the name of a load and its suffixes.
#[tactic(auto, using(crate::proofs::TextLemmas::bits))]
fn put_load_name<K: Sink>(load: &Load, sink: &mut K) -> Result<(), SinkFailed>
    ensures { Prints (K.shown sink.old) (K.shown sink.new)
        (bits_text (Word (LoadName load.now.kind) ∷ write_bits load.now.add ++ flags_bits load.now.sets)) result }
{
    put_name(Name::Load(load.kind), sink)?;
    put_load_suffixes(load, sink)
}

/// Writes the line of a load.
pub(crate) fn put_load<K: Sink>(load: &Load, sink: &mut K) -> Result<(), SinkFailed>
    ensures { Prints (K.shown sink.old) (K.shown sink.new) (bits_text (load_bits load.now)) result }
{
    put_load_name(load, sink)?;
    put_load_places(load, sink)
}

/// Writes the line of a semaphore instruction.
#[tactic(auto, using(crate::proofs::TextLemmas::bits), unfolding(qpu_line::specs::Lines::semaphore_bits))]
pub(crate) fn put_semaphore<K: Sink>(semaphore: Semaphore, sink: &mut K) -> Result<(), SinkFailed>
    ensures { Prints (K.shown sink.old) (K.shown sink.new) (bits_text (semaphore_bits semaphore)) result }
{
    let name = if semaphore.down {
        Name::Decrement
    } else {
        Name::Increment
    };
    put_name(name, sink)?;
    put_space(sink)?;
    put_decimal(semaphore.number, sink)
}
