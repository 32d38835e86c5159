//! Load immediates (Guide, "QPU Instruction Encoding").
ghost use Rattle.std.specs.Prelude.{◌≡◌, ◌==◌};
ghost use Rattle.qpu_line.specs.Loads.{kind_of, kind_code, write_of, load_of, write_cond, write_target, load_high, load_word};

use crate::slots::{
    ADD_ADDRESS, ADD_CONDITION, ADDRESSES, CONDITIONS, EXCHANGE, KIND, MUL_ADDRESS, MUL_CONDITION,
    SETS, SIGNAL, join,
};
use crate::target::{address_of, exchange_of, target_of};
use qpu_word::code::{
    KIND_LOAD, KIND_LOAD_SIGNED, KIND_LOAD_UNSIGNED, NOWHERE, SIGNAL_LOAD_IMMEDIATE,
};
use qpu_word::{Fields, Place};

/// What a load makes of its immediate.
#[derive(Clone, Copy, Debug, PartialEq, Eq)]
pub enum LoadKind {
    /// The whole immediate in all lanes.
    Whole,
    /// Two bits for each lane, with a sign.
    Signed,
    /// Two bits for each lane, without one.
    Unsigned,
}

/// What one unit writes of a load.
#[derive(Clone, Copy, Debug, PartialEq, Eq)]
pub struct Write {
    /// The write condition's code, 1 to 7.
    pub cond: u32,
    /// Where it is written.
    pub to: Place,
}

/// A load immediate.
#[derive(Clone, Copy, Debug, PartialEq, Eq)]
pub struct Load {
    /// What is made of the immediate.
    pub kind: LoadKind,
    /// Whether flags are set.
    pub sets: bool,
    /// What the add unit writes.
    pub add: Option<Write>,
    /// What the mul unit writes.
    pub mul: Option<Write>,
    /// The immediate.
    pub immediate: u32,
}

impl LoadKind {
    /// The kind of a code.
    fn of(code: u32) -> LoadKind
        ensures { result ≡ kind_of code }
    {
        match code {
            KIND_LOAD => LoadKind::Whole,
            KIND_LOAD_SIGNED => LoadKind::Signed,
            _ => LoadKind::Unsigned,
        }
    }

    /// Its code.
    fn code(self) -> u32
        ensures { result ≡ kind_code self }
    {
        match self {
            LoadKind::Whole => KIND_LOAD,
            LoadKind::Signed => KIND_LOAD_SIGNED,
            LoadKind::Unsigned => KIND_LOAD_UNSIGNED,
        }
    }
}

/// What a unit writes, by its condition, file and address.
fn write_of(cond: u32, in_b: bool, address: u32) -> Option<Write>
    ensures { result ≡ write_of cond in_b address }
{
    if cond == 0 || address == NOWHERE {
        None
    } else {
        let to = target_of(in_b, address);
        Some(Write { cond, to })
    }
}

/// The condition of a unit that writes or doesn't.
fn write_cond(write: Option<Write>) -> u32
    ensures { result ≡ write_cond write }
{
    match write {
        None => 0,
        Some(write) => write.cond,
    }
}

/// The target of a unit that writes or doesn't.
fn write_target(write: Option<Write>) -> Place
    ensures { result ≡ write_target write }
{
    match write {
        None => Place::Both(NOWHERE),
        Some(write) => write.to,
    }
}

impl Load {
    /// The load immediate of a word's fields.
    pub(crate) fn of(f: &Fields) -> Load
        ensures { result ≡ load_of f.now }
    {
        Load {
            kind: LoadKind::of(f.kind),
            sets: f.sf == 1,
            add: write_of(f.cond_add, f.ws == 1, f.waddr_add),
            mul: write_of(f.cond_mul, f.ws != 1, f.waddr_mul),
            immediate: f.immediate,
        }
    }

    /// The upper half of its word.
    fn high(&self) -> u32
        ensures { result ≡ load_high self.now }
    {
        let add = write_target(self.add);
        let mul = write_target(self.mul);
        SIGNAL_LOAD_IMMEDIATE * SIGNAL
            + self.kind.code() * KIND
            + write_cond(self.add) % CONDITIONS * ADD_CONDITION
            + write_cond(self.mul) % CONDITIONS * MUL_CONDITION
            + u32::from(self.sets) * SETS
            + exchange_of(add, mul) * EXCHANGE
            + address_of(add) % ADDRESSES * ADD_ADDRESS
            + address_of(mul) % ADDRESSES * MUL_ADDRESS
    }

    /// Its word, as a number.
    pub(crate) fn word(&self) -> u64
        ensures { result ≡ load_word self.now }
    {
        join(self.high(), self.immediate)
    }
}
