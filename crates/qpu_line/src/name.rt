//! The names of the assembler's language.
ghost use Rattle.std.specs.Prelude.{◌≡◌};
ghost use Rattle.qpu_line.specs.Names.{row_number, register_of, name_of, found_in};

use crate::load::LoadKind;
use crate::spellings::spelling;
use qpu_word::code::{
    READ_DMA_BUSY, READ_DMA_WAIT, READ_MUTEX, READ_NUMBER, READ_UNIFORM, READ_VPM,
    WRITE_DMA_ADDRESS, WRITE_HOST_INT, WRITE_MUTEX, WRITE_R5, WRITE_TMU0_S, WRITE_TMU1_S,
    WRITE_UNIFORMS_ADDRESS, WRITE_VPM_SETUP,
};
use qpu_word::{AddOp, MulOp, Place};

/// A register's name.
#[derive(Clone, Copy, Debug, PartialEq, Eq)]
pub enum Register {
    /// An accumulator, 0 to 5.
    Accumulator(u32),
    /// A row of file A, 0 to 31.
    RowA(u32),
    /// A row of file B, 0 to 31.
    RowB(u32),
    /// What is both read and written by one name: the VPM.
    Vpm,
    /// What is only read, under an address above 31.
    Source(Place),
    /// What is only written, under an address above 31.
    Target(Place),
}

/// A name of the language. It means by where it stands what its kind says.
#[derive(Clone, Copy, Debug, PartialEq, Eq)]
pub enum Name {
    /// An operation of the add unit; `v8adds` and `v8subs` are the mul unit's too.
    Add(AddOp),
    /// An operation of the mul unit alone.
    Mul(MulOp),
    /// `nop`.
    Nop,
    /// `mov`.
    Mov,
    /// `ldi`, `ldis` and `ldiu`.
    Load(LoadKind),
    /// `also`, before the second target of a load.
    Also,
    /// `sinc`.
    Increment,
    /// `sdec`.
    Decrement,
    /// `bra`.
    Branch,
    /// `brr`.
    RelativeBranch,
    /// `link`, before the second target of a branch.
    Link,
    /// `reg`, before the row that a branch adds.
    Row,
    /// `thrend`.
    End,
    /// `ldtmu0`.
    Load0,
    /// `ldtmu1`.
    Load1,
    /// `rot`.
    Rotate,
    /// `reada`.
    ReadA,
    /// `readb`.
    ReadB,
    /// `setf`.
    SetFlags,
    /// `word`.
    Word,
    /// `set`.
    Set,
    /// A write condition's name, by its code, 2 to 7.
    Condition(u32),
    /// A branch condition's name, by its code, 0 to 11.
    BranchCondition(u32),
    /// A pack mode's name, 1 to 7 and 9 to 15; those of 1, 2 and 4 to 7 are unpack modes' too.
    Pack(u32),
    /// `8dr`, the name of unpack mode 3.
    Replicate,
    /// A register's name.
    Register(Register),
}

/// The names that aren't those of rows.
const WORDS: [Name; 102] = [
    Name::Add(AddOp::Add),
    Name::Add(AddOp::Sub),
    Name::Add(AddOp::Shr),
    Name::Add(AddOp::Asr),
    Name::Add(AddOp::Ror),
    Name::Add(AddOp::Shl),
    Name::Add(AddOp::Min),
    Name::Add(AddOp::Max),
    Name::Add(AddOp::And),
    Name::Add(AddOp::Or),
    Name::Add(AddOp::Xor),
    Name::Add(AddOp::Not),
    Name::Add(AddOp::Clz),
    Name::Add(AddOp::V8adds),
    Name::Add(AddOp::V8subs),
    Name::Mul(MulOp::Mul24),
    Name::Mul(MulOp::V8muld),
    Name::Mul(MulOp::V8min),
    Name::Mul(MulOp::V8max),
    Name::Nop,
    Name::Mov,
    Name::Load(LoadKind::Whole),
    Name::Load(LoadKind::Signed),
    Name::Load(LoadKind::Unsigned),
    Name::Also,
    Name::Increment,
    Name::Decrement,
    Name::Branch,
    Name::RelativeBranch,
    Name::Link,
    Name::Row,
    Name::End,
    Name::Load0,
    Name::Load1,
    Name::Rotate,
    Name::ReadA,
    Name::ReadB,
    Name::SetFlags,
    Name::Word,
    Name::Set,
    Name::Condition(2),
    Name::Condition(3),
    Name::Condition(4),
    Name::Condition(5),
    Name::Condition(6),
    Name::Condition(7),
    Name::BranchCondition(0),
    Name::BranchCondition(1),
    Name::BranchCondition(2),
    Name::BranchCondition(3),
    Name::BranchCondition(4),
    Name::BranchCondition(5),
    Name::BranchCondition(6),
    Name::BranchCondition(7),
    Name::BranchCondition(8),
    Name::BranchCondition(9),
    Name::BranchCondition(10),
    Name::BranchCondition(11),
    Name::Pack(1),
    Name::Pack(2),
    Name::Pack(3),
    Name::Pack(4),
    Name::Pack(5),
    Name::Pack(6),
    Name::Pack(7),
    Name::Pack(9),
    Name::Pack(10),
    Name::Pack(11),
    Name::Pack(12),
    Name::Pack(13),
    Name::Pack(14),
    Name::Pack(15),
    Name::Replicate,
    Name::Register(Register::Accumulator(0)),
    Name::Register(Register::Accumulator(1)),
    Name::Register(Register::Accumulator(2)),
    Name::Register(Register::Accumulator(3)),
    Name::Register(Register::Accumulator(4)),
    Name::Register(Register::Accumulator(5)),
    Name::Register(Register::Vpm),
    Name::Register(Register::Source(Place::FileA(READ_UNIFORM))),
    Name::Register(Register::Source(Place::FileB(READ_UNIFORM))),
    Name::Register(Register::Source(Place::FileA(READ_NUMBER))),
    Name::Register(Register::Source(Place::FileB(READ_NUMBER))),
    Name::Register(Register::Source(Place::FileB(READ_VPM))),
    Name::Register(Register::Source(Place::FileA(READ_DMA_BUSY))),
    Name::Register(Register::Source(Place::FileB(READ_DMA_BUSY))),
    Name::Register(Register::Source(Place::FileA(READ_DMA_WAIT))),
    Name::Register(Register::Source(Place::FileB(READ_DMA_WAIT))),
    Name::Register(Register::Source(Place::FileA(READ_MUTEX))),
    Name::Register(Register::Source(Place::FileB(READ_MUTEX))),
    Name::Register(Register::Target(Place::FileA(WRITE_R5))),
    Name::Register(Register::Target(Place::FileB(WRITE_R5))),
    Name::Register(Register::Target(Place::Both(WRITE_HOST_INT))),
    Name::Register(Register::Target(Place::Both(WRITE_UNIFORMS_ADDRESS))),
    Name::Register(Register::Target(Place::FileA(WRITE_VPM_SETUP))),
    Name::Register(Register::Target(Place::FileB(WRITE_VPM_SETUP))),
    Name::Register(Register::Target(Place::FileA(WRITE_DMA_ADDRESS))),
    Name::Register(Register::Target(Place::FileB(WRITE_DMA_ADDRESS))),
    Name::Register(Register::Target(Place::Both(WRITE_MUTEX))),
    Name::Register(Register::Target(Place::Both(WRITE_TMU0_S))),
    Name::Register(Register::Target(Place::Both(WRITE_TMU1_S))),
];

/// The number of a row's digits: 0 to 31, with no leading zero.
fn row_number(digits: &[u8]) -> Option<u32>
    ensures { result ≡ row_number digits.now }
{
    match digits {
        [ones @ b'0'..=b'9'] => Some(u32::from(*ones - b'0')),
        [tens @ b'1'..=b'2', ones @ b'0'..=b'9'] => Some(
            10 * u32::from(*tens - b'0') + u32::from(*ones - b'0'),
        ),
        [b'3', ones @ b'0'..=b'1'] => Some(30 + u32::from(*ones - b'0')),
        _ => None,
    }
}

/// The row that a name stands for.
#[tactic(auto, unfolding(crate::specs::Names::register_of))]
fn row_of(text: &[u8]) -> Option<Register>
    ensures { result ≡ register_of text.now }
{
    match text {
        [b'r', b'a', digits @ ..] => row_number(digits).map(Register::RowA),
        [b'r', b'b', digits @ ..] => row_number(digits).map(Register::RowB),
        _ => None,
    }
}

/// The first of names with a spelling.
fn found_in(names: &[Name], text: &[u8]) -> Option<Name>
    ensures { result ≡ found_in names.now text.now }
{
    names
        .iter()
        .copied()
        .find(|name| spelling(*name).as_bytes() == text)
}

impl Name {
    /// The name with a spelling; none where there is no such name.
    #[tactic(auto, unfolding(crate::specs::Names::name_of))]
    pub fn of(text: &[u8]) -> Option<Name>
        ensures { result ≡ name_of text.now }
    {
        match row_of(text) {
            Some(row) => Some(Name::Register(row)),
            None => found_in(&WORDS, text),
        }
    }
}
