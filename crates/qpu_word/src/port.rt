//! The door between a processor and what processors share.
ghost use Rattle.std.specs.Prelude.{◌≡◌, ◌<◌, false};
ghost use Rattle.qpu_word.specs.Words.{fields_of, is_branch, IsInProfile};
ghost use Rattle.qpu_word.specs.Books.{IsSoundBook};
ghost use Rattle.qpu_word.specs.Fit.{IsFit};
ghost use Rattle.qpu_word.specs.declared.state.Halt.TheVariants.{Going};
ghost use Rattle.qpu_word.specs.Instruction.{add_sent, mul_sent, flags_after, outs_of, done, halted};

use crate::fault::FaultKind;
use crate::sending::Sent;
use crate::setup::Book;
use crate::traffic::{Ins, Outs};
use crate::word::{Fields, Word};

/// A processor as the shared parts see it: they lend it what an instruction reads, and take what
/// it sends out. Its words are in the profile and no branches; it is going, and has executed fewer
/// than 1,000,000 instructions.
pub trait Port {
    ghost use Rattle.qpu_word.specs.Processor.{ProcessorState};

    /// The processor.
    ghost state: { Self → ProcessorState };

    /// What it was given for its accesses to uniforms, VPM and memory.
    fn book(&self) -> Book
        ensures book { result ≡ (state self.now).book }
        ensures sound { IsSoundBook result };

    /// What a word sends out, with what it reads.
    fn outs(&self, word: Word, ins: &Ins) -> Outs
        requires going { (state self.now).halt ≡ Going }
        requires executed { (state self.now).executed < 1000000 }
        requires profile { IsInProfile word.0 }
        requires straight { is_branch (fields_of word.0) ≡ false }
        ensures { result ≡ outs_of (fields_of word.0) (state self.now) ins.now };

    /// Does the whole instruction, with what it reads and the book that it leaves. The setups of the book
    /// are sound: a book is made of public fields, so that it has no such fact of its own, and each call of
    /// `Book` keeps it.
    fn accept(&mut self, word: Word, ins: &Ins, book: &Book)
        requires going { (state self.old).halt ≡ Going }
        requires executed { (state self.old).executed < 1000000 }
        requires profile { IsInProfile word.0 }
        requires straight { is_branch (fields_of word.0) ≡ false }
        requires sound { IsSoundBook book.now }
        ensures { state self.new ≡ done (fields_of word.0) (state self.old) ins.now book.now };

    /// What a word of these fields sends, with what it reads, and the flags after it.
    fn sends(&self, f: &Fields, ins: &Ins) -> Sent
        requires fit { IsFit f.now }
        requires straight { is_branch f.now ≡ false }
        ensures add { result.add.v ≡ add_sent f.now (state self.now) ins.now }
        ensures mul { result.mul.v ≡ mul_sent f.now (state self.now) ins.now }
        ensures flags { result.flags ≡ flags_after f.now (state self.now) ins.now };

    /// Does the whole instruction of a word of these fields, with what it reads, what it sends, and the
    /// book that it leaves, whose setups are sound.
    fn accept_sent(&mut self, f: &Fields, ins: &Ins, sent: &Sent, book: &Book)
        requires going { (state self.old).halt ≡ Going }
        requires executed { (state self.old).executed < 1000000 }
        requires fit { IsFit f.now }
        requires straight { is_branch f.now ≡ false }
        requires add { sent.now.add.v ≡ add_sent f.now (state self.old) ins.now }
        requires mul { sent.now.mul.v ≡ mul_sent f.now (state self.old) ins.now }
        requires flags { sent.now.flags ≡ flags_after f.now (state self.old) ins.now }
        requires sound { IsSoundBook book.now }
        ensures { state self.new ≡ done f.now (state self.old) ins.now book.now };

    /// Faults at its place: the halt alone changes.
    fn fail(&mut self, kind: FaultKind)
        requires going { (state self.old).halt ≡ Going }
        requires executed { (state self.old).executed < 1000000 }
        ensures { state self.new ≡ halted kind (state self.old) };
}
