//! One step of each actor.
ghost use Rattle.std.specs.Prelude.{◌≡◌, ◌≢◌, ◌<◌, ◌≤◌, ◌+◌, ℕ, length, slice_index, slice_index_or, false, true, Some, []};
ghost use Rattle.qpu_word.specs.declared.state.Halt.TheVariants.{Going};
ghost use Rattle.qpu_word.specs.Words.{fields_of, IsInProfile};
ghost use Rattle.qpu_decoded.specs.Units.{decoded_of};
ghost use Rattle.qpu_word.specs.Instruction.{is_link_point, local_result};
ghost use Rattle.qpu_shared.specs.SharedState.{SharedState};
ghost use Rattle.qpu_shared.specs.Local.{local_outcome};
ghost use Rattle.qpu_shared.specs.Instruction.{first_cause, instruction_result, outcome_under, is_running, pending_of};
ghost use Rattle.qpu_shared.specs.Exec.{Does};
ghost use Rattle.qpu_machine.specs.Kept.{IsOnPath, KeepsPath};
ghost use Rattle.qpu_machine.specs.Machine.{MachineState, processor_of, words_of};
ghost use Rattle.qpu_machine.specs.Took.{TookWord};

use qpu_decoded::Decoded;
use qpu_hazard::{Checked, Programs};
use qpu_local::{Halt, Processor};
use qpu_shared::{Did, Shared};

/// Whether a processor is running: it goes on, and has executed less than a limit.
pub(crate) fn is_running(processor: &Processor, limit: u32) -> bool
    ensures { result ≡ is_running limit processor.now }
{
    processor.halt() == Halt::Going && processor.executed() < limit
}

/// Does the local word at a processor's place.
pub(crate) fn do_local(p: &mut Processor, program: &Checked, word: &Decoded) -> Did
    requires going { p.old.halt ≡ Going }
    requires executed { p.old.executed < 1000000 }
    requires words { length program.now ≤ 4096 }
    requires place { p.old.place < length program.now }
    requires profile { IsInProfile (slice_index program.now p.old.place) }
    requires decoded { word.now ≡ decoded_of (slice_index program.now p.old.place) }
    requires local { word.now.local ≡ true }
    ensures { (h : SharedState) → Does result (local_outcome (local_result (is_link_point program.now) (slice_index program.now p.old.place) p.old) h) p.old h p.new h }
{
    match p.step_decoded(program, word) {
        None => Did::Stepped,
        Some(kind) => Did::Faulted(kind),
    }
}

/// Does the word at the place of processor q, below 12, which goes on, has executed fewer than
/// 1,000,000 instructions, and stands on a path of its program.
fn do_word(p: &mut Processor, program: &Checked, shared: &mut Shared, q: u32) -> Did
    requires q { q < 12 }
    requires pending { q < length shared.old.pending }
    requires number { p.old.q ≡ q }
    requires going { p.old.halt ≡ Going }
    requires executed { p.old.executed < 1000000 }
    requires on_path { IsOnPath program.now p.old (pending_of shared.old q).looks }
    ensures { Does result (outcome_under (first_cause (fields_of (slice_index program.now p.old.place)) q shared.old) (instruction_result (is_link_point program.now) (slice_index program.now p.old.place) p.old shared.old)) p.old shared.old p.new shared.new }
{
    let _words = program.words();
    let word = program.decoded(p.place());
    if word.local {
        do_local(p, program, word)
    } else {
        shared.exec_fields(q, p, &word.fields)
    }
}

/// The same; the processor stands on a path afterwards too, where it still goes on.
fn keep_word(p: &mut Processor, program: &Checked, shared: &mut Shared, q: u32) -> Did
    requires q { q < 12 }
    requires pending { q < length shared.old.pending }
    requires number { p.old.q ≡ q }
    requires going { p.old.halt ≡ Going }
    requires executed { p.old.executed < 1000000 }
    requires on_path { IsOnPath program.now p.old (pending_of shared.old q).looks }
    ensures did { Does result (outcome_under (first_cause (fields_of (slice_index program.now p.old.place)) q shared.old) (instruction_result (is_link_point program.now) (slice_index program.now p.old.place) p.old shared.old)) p.old shared.old p.new shared.new }
    ensures keeps { KeepsPath program.now q p.old shared.old p.new shared.new }
{
    let _words = program.words();
    do_word(p, program, shared, q)
}

/// The same, told as the step of a machine: whether the processor had one. Where it awaits nothing
/// changes.
pub(crate) fn take_word(p: &mut Processor, program: &Checked, shared: &mut Shared, q: u32) -> bool
    requires q { q < 12 }
    requires pending { q < length shared.old.pending }
    requires number { p.old.q ≡ q }
    requires going { p.old.halt ≡ Going }
    requires executed { p.old.executed < 1000000 }
    requires on_path { IsOnPath program.now p.old (pending_of shared.old q).looks }
    ensures took { (m : MachineState) → processor_of m q ≡ Some p.old → is_running m.limit p.old ≡ true → words_of m q ≡ program.now → m.shared ≡ shared.old → TookWord result m q p.old p.new shared.new }
    ensures keeps { KeepsPath program.now q p.old shared.old p.new shared.new }
{
    match keep_word(p, program, shared, q) {
        Did::Awaits(_) => false,
        Did::Stepped => true,
        Did::Faulted(_) => true,
    }
}

/// A program of the list.
pub fn program_at(programs: &Programs, at: u32) -> &Checked
    requires { at < length programs.now.list.items }
    ensures { result.now ≡ slice_index_or programs.now.list.items at [] }
{
    &programs.list[at as usize]
}
