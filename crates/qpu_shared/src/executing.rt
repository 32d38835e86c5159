//! One whole shared instruction.
ghost use Rattle.std.specs.Prelude.{◌≡◌, ◌<◌, ℕ, Bool, false, None, length, IfOk, IsSome};
ghost use Rattle.qpu_word.specs.Words.{fields_of, is_branch, IsInProfile};
ghost use Rattle.qpu_word.specs.Books.{IsSoundBook};
ghost use Rattle.qpu_word.specs.declared.state.Halt.TheVariants.{Going};
ghost use Rattle.qpu_word.specs.Instruction.{then_after};
ghost use Rattle.qpu_shared.specs.Instruction.{after_reads, after_writes, first_cause, instruction_result, outcome_under, pending_of};
ghost use Rattle.qpu_shared.specs.Exec.{AreOfProfile, Does, HasRoom};
ghost use Rattle.qpu_shared.specs.Views.{IsFitting};

use crate::did::Did;
use crate::shared::Shared;
use crate::starts::Begun;
use qpu_word::{Book, FaultKind, Fields, Outs, Port, Word};

impl Shared {
    /// What a word starts and issues and the book that it leaves, or its first fault: of its reads,
    /// then of its writes.
    fn due(&self, f: &Fields, outs: &Outs, book: Book) -> Result<Begun, FaultKind>
        requires { IsSoundBook book }
        ensures value { result ≡ then_after (after_reads f.now self.now.memory book) (λ b. after_writes outs.now self.now.memory b) }
        ensures sound { IfOk result (λ starts. IsSoundBook starts.book) }
        ensures load { IfOk result (λ starts. IsFitting (length self.now.memory) starts.load) }
        ensures store { IfOk result (λ starts. IsFitting (length self.now.memory) starts.store) }
        ensures sent { IfOk result (λ starts. IsSome starts.look → IsSome outs.now.look) }
    {
        let book = self.after_reads(f, book)?;
        self.starts(outs, book)
    }

    /// Does an instruction that awaits nothing, or faults.
    fn exec_free<P: Port>(&mut self, q: u32, port: &mut P, f: &Fields) -> Did
        requires q { q < 12 }
        requires number { (P.state port.old).q ≡ q }
        requires going { (P.state port.old).halt ≡ Going }
        requires executed { (P.state port.old).executed < 1000000 }
        requires profile { AreOfProfile f.now }
        requires straight { is_branch f.now ≡ false }
        requires room { HasRoom f.now (pending_of self.old q) }
        requires free { first_cause f.now q self.old ≡ None }
        ensures { (is_link : ℕ → Bool) (word : ℕ) → f.now ≡ fields_of word → Does result (outcome_under (first_cause (fields_of word) q self.old) (instruction_result is_link word (P.state port.old) self.old)) (P.state port.old) self.old (P.state port.new) self.new }
    {
        let before = port.book();
        let ins = self.ins(f, q, &before);
        let sent = port.sends(f, &ins);
        let outs = sent.outs(f);
        match self.due(f, &outs, before) {
            Ok(starts) => {
                self.commit(f, q, &before, &outs, &starts);
                port.accept_sent(f, &ins, &sent, &starts.book);
                Did::Stepped
            }
            Err(kind) => {
                port.fail(kind);
                Did::Faulted(kind)
            }
        }
    }

    /// One whole instruction of processor q, below 12, at a word of the profile that is no branch and
    /// has these fields: the same as `exec` at the word.
    pub fn exec_fields<P: Port>(&mut self, q: u32, port: &mut P, f: &Fields) -> Did
        requires q { q < 12 }
        requires number { (P.state port.old).q ≡ q }
        requires going { (P.state port.old).halt ≡ Going }
        requires executed { (P.state port.old).executed < 1000000 }
        requires profile { AreOfProfile f.now }
        requires straight { is_branch f.now ≡ false }
        requires room { HasRoom f.now (pending_of self.old q) }
        ensures { (is_link : ℕ → Bool) (word : ℕ) → f.now ≡ fields_of word → Does result (outcome_under (first_cause (fields_of word) q self.old) (instruction_result is_link word (P.state port.old) self.old)) (P.state port.old) self.old (P.state port.new) self.new }
    {
        match self.first_cause(f, q) {
            Some(cause) => Did::Awaits(cause),
            None => self.exec_free(q, port, f),
        }
    }

    /// One whole instruction of processor q, below 12, at a word of the profile that is no branch.
    /// It awaits where `awaits` tells a cause, and then nothing changes; else it faults where the
    /// written machine says so, and then the halt alone is set; else it is done whole. The processor
    /// is going and has executed fewer than 1,000,000 instructions; a word that issues a look-up
    /// finds fewer than four outstanding.
    pub fn exec<P: Port>(&mut self, q: u32, port: &mut P, word: Word) -> Did
        requires q { q < 12 }
        requires number { (P.state port.old).q ≡ q }
        requires going { (P.state port.old).halt ≡ Going }
        requires executed { (P.state port.old).executed < 1000000 }
        requires profile { IsInProfile word.0 }
        requires straight { is_branch (fields_of word.0) ≡ false }
        requires room { HasRoom (fields_of word.0) (pending_of self.old q) }
        ensures { (is_link : ℕ → Bool) → Does result (outcome_under (first_cause (fields_of word.0) q self.old) (instruction_result is_link word.0 (P.state port.old) self.old)) (P.state port.old) self.old (P.state port.new) self.new }
    {
        self.exec_fields(q, port, &word.fields())
    }
}
