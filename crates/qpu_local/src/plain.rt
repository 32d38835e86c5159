//! Plain words: both units compute on registers, and their results go whole to registers.
ghost use Rattle.std.specs.Prelude.{◌≡◌, ◌<◌};
ghost use Rattle.qpu_word.specs.Lanes.{Gives, lanes};
ghost use Rattle.qpu_word.specs.Operations.{add_result, mul_result};
ghost use Rattle.qpu_decoded.specs.Sources.{IsSourceThere, given};
ghost use Rattle.qpu_decoded.specs.Targets.{IsTargetThere, put_to};
ghost use Rattle.qpu_decoded.specs.Units.{AreThere};
ghost use Rattle.qpu_local.specs.Plain.{add_of, carries_of, mul_of, flags_left, plainly_done};

use crate::flagging::set_by;
use crate::processor::Processor;
use qpu_alu::{add_carries, add_results, mul_results};
use qpu_decoded::{Setter, Source, Target, Units};
use qpu_word::{AddOp, Flags, LANES, MulOp};
use std::simd::prelude::*;

/// Each lane's number.
const NUMBERS: [u32; LANES] = [0, 1, 2, 3, 4, 5, 6, 7, 8, 9, 10, 11, 12, 13, 14, 15];

impl Processor {
    /// The lanes of a source.
    #[inline(always)]
    fn lanes_of(&self, source: Source) -> u32x16
        requires { IsSourceThere source }
        ensures { Gives result (given self.now source) }
    {
        match source {
            Source::FileA(row) => u32x16::from_array(self.file_a[row as usize]),
            Source::FileB(row) => u32x16::from_array(self.file_b[row as usize]),
            Source::Accumulator(n) => u32x16::from_array(self.accumulators[n as usize]),
            Source::All(n) => u32x16::splat(n),
            Source::QpuNumber => u32x16::splat(self.q),
            Source::ElementNumber => u32x16::from_array(NUMBERS),
        }
    }

    /// The results of an operation of the add unit.
    #[inline(always)]
    fn added(&self, op: AddOp, a: Source, b: Source) -> u32x16
        requires a { IsSourceThere a }
        requires b { IsSourceThere b }
        ensures { result ≡ lanes (λ i. add_result op (given self.now a i) (given self.now b i)) }
    {
        add_results(op, self.lanes_of(a), self.lanes_of(b))
    }

    /// The results of an operation of the mul unit.
    #[inline(always)]
    fn multiplied(&self, op: MulOp, a: Source, b: Source) -> u32x16
        requires a { IsSourceThere a }
        requires b { IsSourceThere b }
        ensures { result ≡ lanes (λ i. mul_result op (given self.now a i) (given self.now b i)) }
    {
        mul_results(op, self.lanes_of(a), self.lanes_of(b))
    }

    /// The add unit's results.
    #[tactic(auto, unfolding(crate::specs::Plain::add_of), using(qpu_word::proofs::LaneLemmas::lanes_repeated))]
    #[inline(always)]
    fn add_of(&self, units: &Units) -> u32x16
        requires { AreThere units.now }
        ensures { result ≡ add_of self.now units.now }
    {
        let Some(op) = units.add else {
            return u32x16::splat(0);
        };
        self.added(op, units.add_a, units.add_b)
    }

    /// The add unit's carries.
    #[tactic(auto, unfolding(crate::specs::Plain::carries_of))]
    fn carries_of(&self, units: &Units) -> Option<u32>
        requires { AreThere units.now }
        ensures { result ≡ carries_of self.now units.now }
    {
        let op = units.add?;
        add_carries(op, self.lanes_of(units.add_a), self.lanes_of(units.add_b))
    }

    /// The mul unit's results.
    #[tactic(auto, unfolding(crate::specs::Plain::mul_of), using(qpu_word::proofs::LaneLemmas::lanes_repeated))]
    #[inline(always)]
    fn mul_of(&self, units: &Units) -> u32x16
        requires { AreThere units.now }
        ensures { result ≡ mul_of self.now units.now }
    {
        let Some(op) = units.mul else {
            return u32x16::splat(0);
        };
        self.multiplied(op, units.mul_a, units.mul_b)
    }

    /// The flags after both units.
    #[tactic(auto, unfolding(crate::specs::Plain::flags_left))]
    #[inline(always)]
    fn flags_left(&self, units: &Units, add: u32x16, mul: u32x16) -> Flags
        requires there { AreThere units.now }
        requires add { add ≡ add_of self.now units.now }
        requires mul { mul ≡ mul_of self.now units.now }
        ensures { result ≡ flags_left self.now units.now }
    {
        match units.sets {
            Setter::Neither => self.flags,
            Setter::Add => set_by(add, self.carries_of(units)),
            Setter::Mul => set_by(mul, None),
        }
    }

    /// Replaces a target.
    #[inline(always)]
    fn put_to(&mut self, target: Target, values: u32x16)
        requires { IsTargetThere target }
        ensures { self.new ≡ put_to target values self.old }
    {
        match target {
            Target::Nowhere => {}
            Target::FileA(row) => self.file_a[row as usize] = values.to_array(),
            Target::FileB(row) => self.file_b[row as usize] = values.to_array(),
            Target::Accumulator(n) => self.accumulators[n as usize] = values.to_array(),
        }
    }

    /// Does a plain word: both units compute, their results go to their targets, and control goes on.
    #[tactic(auto, unfolding(crate::specs::Plain::plainly_done))]
    pub(crate) fn step_units(&mut self, units: &Units)
        requires executed { self.old.executed < 1000000 }
        requires there { AreThere units.now }
        ensures { self.new ≡ plainly_done units.now self.old }
    {
        let add = self.add_of(units);
        let mul = self.mul_of(units);
        let flags = self.flags_left(units, add, mul);
        let next = self.one_later();
        self.put_to(units.add_to, add);
        self.put_to(units.mul_to, mul);
        self.go_on(flags, next, 0);
    }
}
