//! Words whose units write whole values, which go straight to their places.
ghost use Rattle.std.specs.Prelude.{◌≡◌, true};
ghost use Rattle.qpu_word.specs.Instruction.{add_sent, mul_sent, registers_after};
ghost use Rattle.qpu_decoded.specs.Targets.{is_whole};

use crate::processor::Processor;
use crate::sending::sixteen;
use qpu_word::{Fields, Ins, Sent};

impl Processor {
    /// Writes the registers of a word whose units write whole values: what they send.
    pub(crate) fn put_whole(&mut self, f: &Fields, ins: &Ins, sent: &Sent)
        requires add { sent.now.add.v ≡ add_sent f.now self.old ins.now }
        requires mul { sent.now.mul.v ≡ mul_sent f.now self.old ins.now }
        requires whole { is_whole f.now ≡ true }
        ensures { self.new ≡ registers_after f.now self.old ins.now }
    {
        sixteen(&sent.add);
        sixteen(&sent.mul);
        self.put_add(f, &sent.add);
        self.put_mul(f, &sent.mul);
        self.put_loaded(f, ins);
    }
}
