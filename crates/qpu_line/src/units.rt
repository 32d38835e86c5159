//! Instructions of both units: ALU and small immediate words (Guide, "QPU Instruction Encoding").
ghost use Rattle.std.specs.Prelude.{◌≡◌, ◌==◌};
ghost use Rattle.qpu_line.specs.Slots.{units_word};
ghost use Rattle.qpu_line.specs.Units.{over_units, row_a, row_b, unpack_of, small_signal, operand_of, pack_at, part_of, part_uses, any_uses, signal_of, other_read, units_of, signal_code, rotation_or, other_or, fields_of_units};

use crate::operand::Operand;
use crate::part::{self, Part, cond_of, first_of, op_of, pack_of, second_of, to_of};
use crate::slots::UnitFields;
use crate::target::{address_of, exchange_of, is_row_a, target_of};
use qpu_word::Place;
use qpu_word::code::{
    MUX_FILE_A, MUX_FILE_B, NOWHERE, ROTATE_BY_R5, SIGNAL_LOAD_TMU0, SIGNAL_LOAD_TMU1, SIGNAL_NONE,
    SIGNAL_PROGRAM_END, SIGNAL_SMALL_IMMEDIATE,
};

/// What an instruction of both units signals beside them.
#[derive(Clone, Copy, Debug, PartialEq, Eq)]
pub enum Signal {
    /// Nothing.
    Nothing,
    /// The program ends.
    End,
    /// A word of the first TMU is loaded.
    Load0,
    /// A word of the second TMU is loaded.
    Load1,
    /// The mul unit's result is rotated, by a code of 48 to 63.
    Rotate(u32),
}

/// An instruction of both units.
#[derive(Clone, Copy, Debug, PartialEq, Eq)]
pub struct Units {
    /// What the add unit does.
    pub add: Option<Part>,
    /// What the mul unit does.
    pub mul: Option<Part>,
    /// Whether flags are set.
    pub sets: bool,
    /// The signal or rotation.
    pub signal: Signal,
    /// A read address of file A that acts though no operand names it.
    pub other_a: Option<u32>,
    /// A read address of file B that acts though no operand names it.
    pub other_b: Option<u32>,
}

/// The pack mode at a target.
fn pack_at(to: Place, pack: u32) -> u32
    ensures { result ≡ pack_at to pack }
{
    if is_row_a(to) { pack } else { 0 }
}

/// Whether a unit with these fields computes and uses a mux.
fn part_uses(op: u32, cond: u32, x: u32, y: u32, mux: u32) -> bool
    ensures { result ≡ part_uses op cond x y mux }
{
    !(op == 0 || cond == 0) && (x == mux || y == mux)
}

/// The signal or rotation of a signal's code and a small immediate's.
#[tactic(auto, unfolding(crate::specs::Units::signal_of))]
fn signal_of(sig: u32, code: u32) -> Signal
    ensures { result ≡ signal_of sig code }
{
    match sig {
        SIGNAL_PROGRAM_END => Signal::End,
        SIGNAL_LOAD_TMU0 => Signal::Load0,
        SIGNAL_LOAD_TMU1 => Signal::Load1,
        SIGNAL_SMALL_IMMEDIATE if ROTATE_BY_R5 <= code => Signal::Rotate(code),
        _ => Signal::Nothing,
    }
}

/// An address that is read though no operand names it.
fn other_read(named: bool, address: u32) -> Option<u32>
    ensures { result ≡ other_read named address }
{
    if named || address == NOWHERE {
        None
    } else {
        Some(address)
    }
}

/// Such an address, or none's.
fn other_or(other: Option<u32>) -> u32
    ensures { result ≡ other_or other }
{
    match other {
        None => NOWHERE,
        Some(address) => address,
    }
}

impl Signal {
    /// The code of a signal.
    fn code(self) -> u32
        ensures { result ≡ signal_code self }
    {
        match self {
            Signal::Nothing => SIGNAL_NONE,
            Signal::End => SIGNAL_PROGRAM_END,
            Signal::Load0 => SIGNAL_LOAD_TMU0,
            Signal::Load1 => SIGNAL_LOAD_TMU1,
            Signal::Rotate(_) => SIGNAL_SMALL_IMMEDIATE,
        }
    }

    /// The code of a rotation, or another in its place.
    fn rotation_or(self, rest: u32) -> u32
        ensures { result ≡ rotation_or self rest }
    {
        match self {
            Signal::Rotate(code) => code,
            _ => rest,
        }
    }
}

impl UnitFields {
    /// What a mux reads.
    fn operand(&self, mux: u32) -> Operand
        ensures { result ≡ operand_of self.now mux }
    {
        if mux < MUX_FILE_A {
            Operand::Accumulator(mux)
        } else if mux == MUX_FILE_A {
            Operand::FileA(self.raddr_a, self.unpack)
        } else if self.sig == SIGNAL_SMALL_IMMEDIATE {
            Operand::Small(self.raddr_b)
        } else {
            Operand::FileB(self.raddr_b)
        }
    }

    /// The part of a unit with these fields.
    #[tactic(auto, unfolding(crate::specs::Units::part_of))]
    fn part(&self, in_b: bool, op: u32, cond: u32, address: u32, x: u32, y: u32) -> Option<Part>
        ensures { result ≡ part_of self.now in_b op cond address x y }
    {
        if op == 0 || cond == 0 {
            None
        } else {
            let to = target_of(in_b, address);
            Some(Part {
                op,
                cond,
                to,
                pack: pack_at(to, self.pack),
                a: self.operand(x),
                b: self.operand(y),
            })
        }
    }

    /// Whether a unit uses a mux.
    fn any_uses(&self, mux: u32) -> bool
        ensures { result ≡ any_uses self.now mux }
    {
        part_uses(self.op_add, self.cond_add, self.add_a, self.add_b, mux)
            || part_uses(self.op_mul, self.cond_mul, self.mul_a, self.mul_b, mux)
    }

    /// The instruction.
    #[tactic(auto, unfolding(crate::specs::Units::units_of))]
    pub(crate) fn units(&self) -> Units
        ensures { result ≡ units_of self.now }
    {
        let exchanged = self.ws == 1;
        let small = self.sig == SIGNAL_SMALL_IMMEDIATE;
        Units {
            add: self.part(
                exchanged,
                self.op_add,
                self.cond_add,
                self.waddr_add,
                self.add_a,
                self.add_b,
            ),
            mul: self.part(
                !exchanged,
                self.op_mul,
                self.cond_mul,
                self.waddr_mul,
                self.mul_a,
                self.mul_b,
            ),
            sets: self.sf == 1,
            signal: signal_of(self.sig, self.raddr_b),
            other_a: other_read(self.any_uses(MUX_FILE_A), self.raddr_a),
            other_b: other_read(small || self.any_uses(MUX_FILE_B), self.raddr_b),
        }
    }
}

impl Units {
    /// The read address of file A.
    fn raddr_a(&self) -> u32
        ensures { result ≡ over_units row_a self.now (other_or self.now.other_a) }
    {
        part::row_a(self.add, part::row_a(self.mul, other_or(self.other_a)))
    }

    /// The read address of file B, or the code of a small immediate or rotation.
    fn raddr_b(&self) -> u32
        ensures { result ≡ over_units row_b self.now (rotation_or self.now.signal (other_or self.now.other_b)) }
    {
        let rest = self.signal.rotation_or(other_or(self.other_b));
        part::row_b(self.add, part::row_b(self.mul, rest))
    }

    /// The fields.
    #[tactic(auto, unfolding(crate::specs::Units::fields_of_units))]
    fn fields(&self) -> UnitFields
        ensures { result ≡ fields_of_units self.now }
    {
        UnitFields {
            sig: part::signal(self.add, part::signal(self.mul, self.signal.code())),
            unpack: part::unpack(self.add, part::unpack(self.mul, 0)),
            pack: pack_of(self.add, pack_of(self.mul, 0)),
            cond_add: cond_of(self.add),
            cond_mul: cond_of(self.mul),
            sf: u32::from(self.sets),
            ws: exchange_of(to_of(self.add), to_of(self.mul)),
            waddr_add: address_of(to_of(self.add)),
            waddr_mul: address_of(to_of(self.mul)),
            op_mul: op_of(self.mul),
            op_add: op_of(self.add),
            raddr_a: self.raddr_a(),
            raddr_b: self.raddr_b(),
            add_a: first_of(self.add),
            add_b: second_of(self.add),
            mul_a: first_of(self.mul),
            mul_b: second_of(self.mul),
        }
    }

    /// Its word, as a number.
    pub(crate) fn word(&self) -> u64
        ensures { result ≡ units_word (fields_of_units self.now) }
    {
        self.fields().word()
    }
}
