//! How names are spelled.
ghost use Rattle.std.specs.Prelude.{◌≡◌, option_map};
ghost use Rattle.qpu_word.specs.Names.{read_name as named_source, write_name as named_target};
ghost use Rattle.qpu_line.specs.Spellings.{add_spelling, mul_spelling, load_spelling, condition_spelling, branch_condition_spelling, pack_spelling, accumulator_spelling, place_name, or_nothing, register_spelling, spelling};

use crate::load::LoadKind;
use crate::name::{Name, Register};
use qpu_word::{AddOp, MulOp, Place, read_name, write_name};

/// An operation of the add unit.
fn add_spelling(op: AddOp) -> &'static str
    ensures { result.now ≡ add_spelling op }
{
    match op {
        AddOp::Add => "add",
        AddOp::Sub => "sub",
        AddOp::Shr => "shr",
        AddOp::Asr => "asr",
        AddOp::Ror => "ror",
        AddOp::Shl => "shl",
        AddOp::Min => "min",
        AddOp::Max => "max",
        AddOp::And => "and",
        AddOp::Or => "or",
        AddOp::Xor => "xor",
        AddOp::Not => "not",
        AddOp::Clz => "clz",
        AddOp::V8adds => "v8adds",
        AddOp::V8subs => "v8subs",
    }
}

/// An operation of the mul unit.
fn mul_spelling(op: MulOp) -> &'static str
    ensures { result.now ≡ mul_spelling op }
{
    match op {
        MulOp::Mul24 => "mul24",
        MulOp::V8muld => "v8muld",
        MulOp::V8min => "v8min",
        MulOp::V8max => "v8max",
        MulOp::V8adds => "v8adds",
        MulOp::V8subs => "v8subs",
    }
}

/// A load immediate.
fn load_spelling(kind: LoadKind) -> &'static str
    ensures { result.now ≡ load_spelling kind }
{
    match kind {
        LoadKind::Whole => "ldi",
        LoadKind::Signed => "ldis",
        LoadKind::Unsigned => "ldiu",
    }
}

/// A write condition, 2 to 7.
fn condition_spelling(code: u32) -> &'static str
    ensures { result.now ≡ condition_spelling code }
{
    match code {
        2 => "ifz",
        3 => "ifnz",
        4 => "ifn",
        5 => "ifnn",
        6 => "ifc",
        7 => "ifnc",
        _ => "",
    }
}

/// A branch condition, 0 to 11.
fn branch_condition_spelling(code: u32) -> &'static str
    ensures { result.now ≡ branch_condition_spelling code }
{
    match code {
        0 => "allz",
        1 => "allnz",
        2 => "anyz",
        3 => "anynz",
        4 => "alln",
        5 => "allnn",
        6 => "anyn",
        7 => "anynn",
        8 => "allc",
        9 => "allnc",
        10 => "anyc",
        11 => "anync",
        _ => "",
    }
}

/// A pack mode, 1 to 7 and 9 to 15.
fn pack_spelling(mode: u32) -> &'static str
    ensures { result.now ≡ pack_spelling mode }
{
    match mode {
        1 => "16a",
        2 => "16b",
        3 => "8abcd",
        4 => "8a",
        5 => "8b",
        6 => "8c",
        7 => "8d",
        9 => "16as",
        10 => "16bs",
        11 => "8abcds",
        12 => "8as",
        13 => "8bs",
        14 => "8cs",
        15 => "8ds",
        _ => "",
    }
}

/// An accumulator, 0 to 5.
fn accumulator_spelling(number: u32) -> &'static str
    ensures { result.now ≡ accumulator_spelling number }
{
    match number {
        0 => "r0",
        1 => "r1",
        2 => "r2",
        3 => "r3",
        4 => "r4",
        5 => "r5",
        _ => "",
    }
}

/// A name, or no text where there is none.
fn or_nothing(name: Option<&'static str>) -> &'static str
    ensures { result.now ≡ or_nothing (option_map (λ name. name.now) name.entry) }
{
    match name {
        Some(name) => name,
        None => "",
    }
}

/// What a place is called as a source.
fn source_spelling(place: Place) -> &'static str
    ensures { result.now ≡ or_nothing (place_name named_source place) }
{
    or_nothing(match place {
        Place::Both(address) | Place::FileA(address) => read_name(false, address),
        Place::FileB(address) => read_name(true, address),
    })
}

/// What a place is called as a target.
fn target_spelling(place: Place) -> &'static str
    ensures { result.now ≡ or_nothing (place_name named_target place) }
{
    or_nothing(match place {
        Place::Both(address) | Place::FileA(address) => write_name(false, address),
        Place::FileB(address) => write_name(true, address),
    })
}

/// A register.
#[tactic(auto, unfolding(crate::specs::Spellings::register_spelling))]
fn register_spelling(register: Register) -> &'static str
    ensures { result.now ≡ register_spelling register }
{
    match register {
        Register::Accumulator(number) => accumulator_spelling(number),
        Register::RowA(row) => source_spelling(Place::FileA(row)),
        Register::RowB(row) => source_spelling(Place::FileB(row)),
        Register::Vpm => "vpm",
        Register::Source(place) => source_spelling(place),
        Register::Target(place) => target_spelling(place),
    }
}

/// How a name is spelled; no text where a number in it stands for none.
#[tactic(auto, unfolding(crate::specs::Spellings::spelling))]
pub fn spelling(name: Name) -> &'static str
    ensures { result.now ≡ spelling name }
{
    match name {
        Name::Add(op) => add_spelling(op),
        Name::Mul(op) => mul_spelling(op),
        Name::Nop => "nop",
        Name::Mov => "mov",
        Name::Load(kind) => load_spelling(kind),
        Name::Also => "also",
        Name::Increment => "sinc",
        Name::Decrement => "sdec",
        Name::Branch => "bra",
        Name::RelativeBranch => "brr",
        Name::Link => "link",
        Name::Row => "reg",
        Name::End => "thrend",
        Name::Load0 => "ldtmu0",
        Name::Load1 => "ldtmu1",
        Name::Rotate => "rot",
        Name::ReadA => "reada",
        Name::ReadB => "readb",
        Name::SetFlags => "setf",
        Name::Word => "word",
        Name::Set => "set",
        Name::Condition(code) => condition_spelling(code),
        Name::BranchCondition(code) => branch_condition_spelling(code),
        Name::Pack(mode) => pack_spelling(mode),
        Name::Replicate => "8dr",
        Name::Register(register) => register_spelling(register),
    }
}
