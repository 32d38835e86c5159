//! The instruction that a line's parts are.
ghost use Rattle.std.specs.Prelude.{◌≡◌, Some};
ghost use Rattle.qpu_asm.specs.declared.piece.Core.TheVariants.{Label};
ghost use Rattle.qpu_asm.specs.Roles.{op_in_add as add_code_of, op_in_mul as mul_code_of};
ghost use Rattle.qpu_asm.specs.SpelledPieces.{is_nowhere};
ghost use Rattle.qpu_asm.specs.reader.Meanings.{condition_in, branch_condition_in, sets_flags, sets_in, pack_in, unpack_in, place_of, number_of, with_unpack, operand_of_core, operand_of, condition_at, unit_of, mul_in, unit_does, unit_sets, rotation_of, signal_part, signal_in, address_a, address_b, reads_by, other_a_part, other_b_part, first_told, unless, units_of_parts, write_in, also_in, load_of_part, distance, target_row, row_part, link_in, branch_of_part, step, meaning};

use crate::mark::code_of;
use crate::marking::{is_r5, is_set_flags, source_in, target_place, unpack_name};
use crate::part::{BranchPart, LoadPart, Part, Suffixes, UnitPart};
use crate::piece::{Core, Piece, Suffix};
use crate::roles::{op_in_add, op_in_mul, pack_of};
use qpu_line::{
    Branch, Instruction, Load, Name, Operand, Part as UnitDoes, Register, Semaphore, Signal, Units,
    Write, address_of,
};
use qpu_word::Place;
use qpu_word::code::{BRANCH_ALWAYS, COND_ALWAYS, INSTRUCTION_BYTES, NOWHERE, ROTATE_BY_R5};

/// Distances of rotations are below.
const DISTANCES: u32 = 16;

/// Words from a branch up to behind its slots.
const UP_TO_TARGET: u64 = 4;

/// The write condition of a suffix.
fn condition_in(suffix: Option<Suffix>) -> u32
    ensures { result ≡ condition_in suffix }
{
    match suffix {
        Some(
            Suffix {
                name: Some(Name::Condition(code)),
                ..
            },
        ) => code,
        _ => COND_ALWAYS,
    }
}

/// The branch condition of a suffix.
fn branch_condition_in(suffix: Option<Suffix>) -> u32
    ensures { result ≡ branch_condition_in suffix }
{
    match suffix {
        Some(
            Suffix {
                name: Some(Name::BranchCondition(code)),
                ..
            },
        ) => code,
        _ => BRANCH_ALWAYS,
    }
}

/// Whether a suffix is `setf`.
fn sets_flags(suffix: Option<Suffix>) -> bool
    ensures { result ≡ sets_flags suffix }
{
    match suffix {
        Some(suffix) => is_set_flags(suffix.name),
        None => false,
    }
}

/// Whether suffixes have `setf`.
fn sets_in(suffixes: Suffixes) -> bool
    ensures { result ≡ sets_in suffixes }
{
    sets_flags(suffixes.first) || sets_flags(suffixes.second)
}

/// The pack mode of a suffix.
fn pack_in(suffix: Option<Suffix>) -> u32
    ensures { result ≡ pack_in suffix }
{
    match suffix {
        Some(
            Suffix {
                name: Some(name),
                ..
            },
        ) => pack_of(name).unwrap_or(0),
        _ => 0,
    }
}

/// The unpack mode of a suffix.
fn unpack_in(suffix: Option<Suffix>) -> u32
    ensures { result ≡ unpack_in suffix }
{
    match suffix {
        Some(suffix) => unpack_name(suffix.name).unwrap_or(0),
        None => 0,
    }
}

/// The place of a target.
fn place_of(core: Core) -> Place
    ensures { result ≡ place_of core }
{
    target_place(core).unwrap_or(Place::Both(NOWHERE))
}

/// Whether a place is `-`.
fn is_nowhere(place: Place) -> bool
    ensures { result ≡ is_nowhere place }
{
    address_of(place) == NOWHERE
}

/// A number.
fn number_of(core: Core) -> u32
    ensures { result ≡ number_of core }
{
    match core {
        Core::Number(number) => number,
        _ => 0,
    }
}

/// An operand with an unpack mode.
fn with_unpack(unpack: u32, operand: Operand) -> Operand
    ensures { result ≡ with_unpack unpack operand }
{
    match operand {
        Operand::FileA(address, _) => Operand::FileA(address, unpack),
        _ => operand,
    }
}

/// An operand without its unpack mode.
fn operand_of_core(core: Core) -> Operand
    ensures { result ≡ operand_of_core core }
{
    match core {
        Core::Number(number) => Operand::Small(code_of(number).unwrap_or(0)),
        _ => source_in(core).unwrap_or(Operand::Accumulator(0)),
    }
}

/// An operand.
fn operand_of(piece: Piece) -> Operand
    ensures { result ≡ operand_of piece }
{
    with_unpack(unpack_in(piece.suffix), operand_of_core(piece.core))
}

/// The condition of a write to a place.
fn condition_at(to: Place, suffix: Option<Suffix>) -> u32
    ensures { result ≡ condition_at to suffix }
{
    if is_nowhere(to) {
        COND_ALWAYS
    } else {
        condition_in(suffix)
    }
}

/// What a unit does whose operation has a code.
#[tactic(auto, unfolding(crate::specs::reader::Meanings::unit_of))]
fn unit_of(op: u32, unit: UnitPart) -> UnitDoes
    ensures { result ≡ unit_of op unit }
{
    let to = place_of(unit.to.core);
    UnitDoes {
        op,
        cond: condition_at(to, unit.suffixes.first),
        to,
        pack: pack_in(unit.to.suffix),
        a: operand_of(unit.a),
        b: operand_of(unit.b),
    }
}

/// What the add unit does.
fn add_does(unit: Option<UnitPart>) -> Option<UnitDoes>
    ensures { result ≡ unit_does add_code_of unit }
{
    match unit {
        Some(unit) => Some(unit_of(op_in_add(unit.op).unwrap_or(0), unit)),
        None => None,
    }
}

/// What the mul unit does.
fn mul_does(unit: Option<UnitPart>) -> Option<UnitDoes>
    ensures { result ≡ unit_does mul_code_of unit }
{
    match unit {
        Some(unit) => Some(unit_of(op_in_mul(unit.op).unwrap_or(0), unit)),
        None => None,
    }
}

/// The mul unit's part among those behind the first.
fn mul_in(later: &[Part]) -> Option<UnitPart>
    ensures { result ≡ mul_in later.now }
{
    match later {
        [Part::Unit(unit), ..] => Some(*unit),
        _ => None,
    }
}

/// Whether a unit's part sets the flags.
fn unit_sets(unit: Option<UnitPart>) -> bool
    ensures { result ≡ unit_sets unit }
{
    match unit {
        Some(unit) => sets_in(unit.suffixes),
        None => false,
    }
}

/// The code of a rotation.
fn rotation_of(core: Core) -> u32
    ensures { result ≡ rotation_of core }
{
    if is_r5(core) {
        ROTATE_BY_R5
    } else {
        ROTATE_BY_R5 + number_of(core) % DISTANCES
    }
}

/// The signal or rotation of a part.
fn signal_part(part: Part) -> Option<Signal>
    ensures { result ≡ signal_part part }
{
    match part {
        Part::Signal(signal, _) => Some(signal),
        Part::Rotate(_, by) => Some(Signal::Rotate(rotation_of(by.core))),
        _ => None,
    }
}

/// The signal or rotation of parts.
fn signal_in(later: &[Part]) -> Signal
    ensures { result ≡ signal_in later.now }
{
    for part in later {
        if let Some(signal) = signal_part(*part) {
            return signal;
        }
    }
    Signal::Nothing
}

/// The read address of file A that an operand names.
fn address_a(operand: Operand) -> Option<u32>
    ensures { result ≡ address_a operand }
{
    match operand {
        Operand::FileA(address, _) => Some(address),
        _ => None,
    }
}

/// The read address of file B that an operand names.
fn address_b(operand: Operand) -> Option<u32>
    ensures { result ≡ address_b operand }
{
    match operand {
        Operand::FileB(address) => Some(address),
        _ => None,
    }
}

/// Whether a unit's operands name a read address of file A.
fn reads_a(unit: Option<UnitDoes>) -> bool
    ensures { result ≡ reads_by address_a unit }
{
    match unit {
        Some(unit) => address_a(unit.a).is_some() || address_a(unit.b).is_some(),
        None => false,
    }
}

/// Whether a unit's operands name a read address of file B.
fn reads_b(unit: Option<UnitDoes>) -> bool
    ensures { result ≡ reads_by address_b unit }
{
    match unit {
        Some(unit) => address_b(unit.a).is_some() || address_b(unit.b).is_some(),
        None => false,
    }
}

/// The other read of file A that a part names.
fn other_a_part(part: Part) -> Option<u32>
    ensures { result ≡ other_a_part part }
{
    match part {
        Part::ReadA(piece) => address_a(source_in(piece.core)?),
        _ => None,
    }
}

/// The other read of file B that a part names.
fn other_b_part(part: Part) -> Option<u32>
    ensures { result ≡ other_b_part part }
{
    match part {
        Part::ReadB(piece) => address_b(source_in(piece.core)?),
        _ => None,
    }
}

/// The other read of file A that parts name.
fn other_a_in(later: &[Part]) -> Option<u32>
    ensures { result ≡ first_told other_a_part later.now }
{
    for part in later {
        if let Some(address) = other_a_part(*part) {
            return Some(address);
        }
    }
    None
}

/// The other read of file B that parts name.
fn other_b_in(later: &[Part]) -> Option<u32>
    ensures { result ≡ first_told other_b_part later.now }
{
    for part in later {
        if let Some(address) = other_b_part(*part) {
            return Some(address);
        }
    }
    None
}

/// Another read, unless an operand makes one.
fn unless(named: bool, other: Option<u32>) -> Option<u32>
    ensures { result ≡ unless named other }
{
    if named { None } else { other }
}

/// What both units do.
#[tactic(auto, unfolding(crate::specs::reader::Meanings::units_of_parts))]
fn units_of_parts(first: Option<UnitPart>, later: &[Part]) -> Units
    ensures { result ≡ units_of_parts first later.now }
{
    let add = add_does(first);
    let mul = mul_does(mul_in(later));
    Units {
        add,
        mul,
        sets: unit_sets(first) || unit_sets(mul_in(later)),
        signal: signal_in(later),
        other_a: unless(reads_a(add) || reads_a(mul), other_a_in(later)),
        other_b: unless(reads_b(add) || reads_b(mul), other_b_in(later)),
    }
}

/// What a load writes to a place.
fn write_in(to: Place, suffix: Option<Suffix>) -> Option<Write>
    ensures { result ≡ write_in to suffix }
{
    if is_nowhere(to) {
        None
    } else {
        Some(Write {
            cond: condition_in(suffix),
            to,
        })
    }
}

/// The second write of a load.
fn also_in(later: &[Part]) -> Option<Write>
    ensures { result ≡ also_in later.now }
{
    for part in later {
        if let Part::Also(also) = part {
            return write_in(place_of(also.to.core), also.suffix);
        }
    }
    None
}

/// A load.
#[tactic(auto, unfolding(crate::specs::reader::Meanings::load_of_part))]
fn load_of_part(load: LoadPart, later: &[Part]) -> Load
    ensures { result ≡ load_of_part load later.now }
{
    Load {
        kind: load.kind,
        sets: sets_in(load.suffixes),
        add: write_in(place_of(load.to.core), load.suffixes.first),
        mul: also_in(later),
        immediate: number_of(load.value.core),
    }
}

/// The immediate of a branch to a label.
fn to_label(relative: bool, at: u32, word: u32) -> u32
    ensures { result ≡ distance relative at (Label (Some word)) }
{
    let bytes = u64::from(INSTRUCTION_BYTES) * u64::from(word);
    let behind = u64::from(INSTRUCTION_BYTES) * (u64::from(at) + UP_TO_TARGET);
    let target = if relative {
        (1 << 36) + bytes - behind
    } else {
        bytes
    };
    (target & 0xffff_ffff) as u32
}

/// The immediate of a branch.
fn distance(relative: bool, at: u32, core: Core) -> u32
    ensures { result ≡ distance relative at core }
{
    match core {
        Core::Number(number) => number,
        Core::Label(Some(word)) => to_label(relative, at, word),
        _ => 0,
    }
}

/// The row of file A that a name stands for.
fn row_of(core: Core) -> Option<u32>
    ensures { result ≡ target_row core }
{
    match core {
        Core::Name(Name::Register(Register::RowA(row))) => Some(row),
        _ => None,
    }
}

/// The row of a branch that a part names.
fn row_part(part: Part) -> Option<u32>
    ensures { result ≡ row_part part }
{
    match part {
        Part::Row(piece) => row_of(piece.core),
        _ => None,
    }
}

/// The row of a branch that parts name.
fn row_in(later: &[Part]) -> Option<u32>
    ensures { result ≡ first_told row_part later.now }
{
    for part in later {
        if let Some(row) = row_part(*part) {
            return Some(row);
        }
    }
    None
}

/// The second target of a branch.
fn link_in(later: &[Part]) -> Place
    ensures { result ≡ link_in later.now }
{
    for part in later {
        if let Part::Link(to) = part {
            return place_of(to.core);
        }
    }
    Place::Both(NOWHERE)
}

/// A branch at a place of the program.
#[tactic(auto, unfolding(crate::specs::reader::Meanings::branch_of_part))]
fn branch_of_part(at: u32, branch: BranchPart, later: &[Part]) -> Branch
    ensures { result ≡ branch_of_part at branch later.now }
{
    Branch {
        cond: branch_condition_in(branch.suffix),
        relative: branch.relative,
        register: row_of(branch.target.core).or(row_in(later)),
        add: place_of(branch.to.core),
        mul: link_in(later),
        immediate: distance(branch.relative, at, branch.target.core),
    }
}

/// A step of a semaphore.
fn step(down: bool, number: Piece) -> Semaphore
    ensures { result ≡ step down number }
{
    Semaphore {
        down,
        number: number_of(number.core),
    }
}

/// The instruction of a line's parts at a place of the program.
#[tactic(auto, unfolding(crate::specs::reader::Meanings::meaning))]
pub(crate) fn meaning(at: u32, first: Part, later: &[Part]) -> Instruction
    ensures { result ≡ meaning at first later.now }
{
    match first {
        Part::Unit(unit) => Instruction::Both(units_of_parts(Some(unit), later)),
        Part::Load(load) => Instruction::Load(load_of_part(load, later)),
        Part::Increment(number) => Instruction::Semaphore(step(false, number)),
        Part::Decrement(number) => Instruction::Semaphore(step(true, number)),
        Part::Branch(branch) => Instruction::Branch(branch_of_part(at, branch, later)),
        _ => Instruction::Both(units_of_parts(None, later)),
    }
}
