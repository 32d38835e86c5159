//! One whole local instruction.
ghost use Rattle.std.specs.Prelude.{◌≡◌, ◌+◌, ◌^◌, ◌<◌, ◌≤◌, true, IsTrue, if◌then◌else◌};
ghost use Rattle.qpu_word.specs.Lanes.{lanes};
ghost use Rattle.qpu_word.specs.Words.{fields_of, is_branch, is_local, IsInProfile};
ghost use Rattle.qpu_word.specs.declared.traffic.Ins.{Ins};
ghost use Rattle.qpu_word.specs.declared.state.Halt.TheVariants.{Going};
ghost use Rattle.qpu_word.specs.Fit.{IsFit};
ghost use Rattle.qpu_word.specs.Books.{IsSoundBook};
ghost use Rattle.qpu_word.specs.Processor.{ProcessorState};
ghost use Rattle.qpu_word.specs.Instruction.{registers_after, moved_on, raised_by, add_stored, mul_stored, add_sent, mul_sent, flags_after, no_ins, put_add, put_mul, done, halted, outs_of, after_setups, after_uniform_to, then_after, branch_fails, local_result};
ghost use Rattle.qpu_decoded.specs.Units.{decoded_of};
ghost use Rattle.qpu_local.specs.Steps.{Steps};
ghost use Rattle.qpu_local.specs.Views.{coming_place};
ghost use Rattle.qpu_local.specs.Quiet.{StaysIn, IsQuiet};

use crate::control::NextControl;
use crate::processor::Processor;
use crate::storing::cond_of;
use qpu_decoded::{Decoded, Deed, is_whole};
use qpu_word::code::{NOWHERE, WRITE_HOST_INT};
use qpu_word::{Book, FaultKind, Fields, Flags, Halt, Ins, LANES, Lanes, Program, Sent, Word};

/// What is read where nothing shared is.
#[tactic(auto, unfolding(qpu_word::specs::Lanes::lanes))]
fn nothing_read() -> Ins
    ensures { result ≡ no_ins }
{
    Ins {
        uniform: 0,
        vpm: Lanes { v: [0; LANES] },
        load_busy: false,
        store_busy: false,
        loaded: Lanes { v: [0; LANES] },
    }
}

/// Whether no unit writes an address past the registers.
fn stays_in(f: &Fields) -> bool
    ensures { IsTrue result → StaysIn f.now }
{
    (f.waddr_add <= NOWHERE || !f.add_writes()) && (f.waddr_mul <= NOWHERE || !f.mul_writes())
}

/// Whether a word has no address, sets no flags and takes no look-up.
fn is_quiet(f: &Fields) -> bool
    ensures { IsTrue result → IsQuiet f.now }
{
    f.waddr_add == NOWHERE && f.waddr_mul == NOWHERE && f.sf != 1 && !f.has_tmu_load()
}

impl Processor {
    /// What the add unit leaves at its address, where it writes one; else what it sends, which
    /// goes nowhere.
    #[tactic(auto, unfolding(qpu_word::specs::Instruction::put_add, qpu_word::specs::Instruction::add_stored))]
    fn add_left(&self, f: &Fields, sent: &Sent) -> Lanes
        requires { IsFit f.now }
        ensures { (ins : Ins) (p : ProcessorState) → sent.now.add.v ≡ add_sent f.now self.now ins → put_add f.now result.v p ≡ put_add f.now (add_stored f.now self.now ins) p }
    {
        if !f.add_writes() {
            return sent.add;
        }
        self.stored(
            f,
            f.swaps_writes(),
            f.waddr_add,
            cond_of(f, f.cond_add),
            &sent.add,
        )
    }

    /// What the mul unit leaves at its address, where it writes one; else what it sends, which
    /// goes nowhere.
    #[tactic(auto, unfolding(qpu_word::specs::Instruction::put_mul, qpu_word::specs::Instruction::mul_stored))]
    fn mul_left(&self, f: &Fields, sent: &Sent) -> Lanes
        requires { IsFit f.now }
        ensures { (ins : Ins) (p : ProcessorState) → sent.now.mul.v ≡ mul_sent f.now self.now ins → put_mul f.now result.v p ≡ put_mul f.now (mul_stored f.now self.now ins) p }
    {
        if !f.mul_writes() {
            return sent.mul;
        }
        self.stored(
            f,
            !f.swaps_writes(),
            f.waddr_mul,
            cond_of(f, f.cond_mul),
            &sent.mul,
        )
    }

    /// Writes the registers, whatever the condition and packing.
    #[tactic(auto, unfolding(qpu_word::specs::Instruction::registers_after))]
    fn put_left(&mut self, f: &Fields, ins: &Ins, sent: &Sent)
        requires fit { IsFit f.now }
        requires add { sent.now.add.v ≡ add_sent f.now self.old ins.now }
        requires mul { sent.now.mul.v ≡ mul_sent f.now self.old ins.now }
        ensures { self.new ≡ registers_after f.now self.old ins.now }
    {
        let add = self.add_left(f, sent);
        let mul = self.mul_left(f, sent);
        self.put_add(f, &add);
        self.put_mul(f, &mul);
        self.put_loaded(f, ins);
    }

    /// Writes the registers.
    fn put_registers(&mut self, f: &Fields, ins: &Ins, sent: &Sent)
        requires fit { IsFit f.now }
        requires add { sent.now.add.v ≡ add_sent f.now self.old ins.now }
        requires mul { sent.now.mul.v ≡ mul_sent f.now self.old ins.now }
        ensures { self.new ≡ registers_after f.now self.old ins.now }
    {
        if is_whole(f) {
            self.put_whole(f, ins, sent);
            return;
        }
        self.put_left(f, ins, sent);
    }

    /// Moves on by one instruction, with the book as it is.
    #[tactic(auto, unfolding(qpu_word::specs::Instruction::moved_on))]
    pub(crate) fn go_on(&mut self, flags: Flags, next: NextControl, raised: u32)
        requires executed { self.old.executed < 1000000 }
        requires place { next.place ≤ 2 ^ 29 + self.old.executed + 1 }
        requires coming { coming_place next.rest < 2 ^ 29 }
        requires raised { raised ≤ 1 }
        ensures { self.new ≡ moved_on flags next.place next.rest self.old.book raised next.halt self.old }
    {
        self.flags = flags;
        self.place = next.place;
        self.rest = next.rest;
        self.executed += 1;
        self.interrupts += raised;
        self.halt = next.halt;
    }

    /// Does the whole instruction but for its book, with what it read and what it sends.
    #[tactic(auto, unfolding(qpu_word::specs::Instruction::done), using(qpu_word::proofs::KeptLemmas::executed_kept, crate::proofs::WholeLemmas::book_kept))]
    fn finish_within(&mut self, f: &Fields, ins: &Ins, sent: &Sent)
        requires fit { IsFit f.now }
        requires executed { self.old.executed < 1000000 }
        requires place { IsTrue (is_branch f.now) → self.old.place < 4096 }
        requires add { sent.now.add.v ≡ add_sent f.now self.old ins.now }
        requires mul { sent.now.mul.v ≡ mul_sent f.now self.old ins.now }
        requires flags { sent.now.flags ≡ flags_after f.now self.old ins.now }
        ensures { self.new ≡ done f.now self.old ins.now self.old.book }
    {
        let next = self.next(f);
        let raised = if f.writes(WRITE_HOST_INT) { 1 } else { 0 };
        self.put_registers(f, ins, sent);
        self.go_on(sent.flags, next, raised);
    }

    /// Does the whole instruction, with what it read, what it sends and its new book.
    #[tactic(auto, unfolding(qpu_word::specs::Instruction::done, qpu_word::specs::Instruction::moved_on))]
    pub(crate) fn finish(&mut self, f: &Fields, ins: &Ins, sent: &Sent, book: Book)
        requires fit { IsFit f.now }
        requires executed { self.old.executed < 1000000 }
        requires place { IsTrue (is_branch f.now) → self.old.place < 4096 }
        requires add { sent.now.add.v ≡ add_sent f.now self.old ins.now }
        requires mul { sent.now.mul.v ≡ mul_sent f.now self.old ins.now }
        requires flags { sent.now.flags ≡ flags_after f.now self.old ins.now }
        requires sound { IsSoundBook book }
        ensures { self.new ≡ done f.now self.old ins.now book }
    {
        self.finish_within(f, ins, sent);
        self.book = book;
    }

    /// Faults at its place: the halt alone changes.
    #[tactic(auto, unfolding(qpu_word::specs::Instruction::halted))]
    pub(crate) fn fault(&mut self, kind: FaultKind)
        ensures { self.new ≡ halted kind self.old }
    {
        self.halt = Halt::Faulted(kind, self.place);
    }

    /// Moves on past a word that leaves the registers and flags as they are.
    #[tactic(auto, using(crate::proofs::StayLemmas::done_quietly))]
    fn pass(&mut self, f: &Fields)
        requires fit { IsFit f.now }
        requires executed { self.old.executed < 1000000 }
        requires place { IsTrue (is_branch f.now) → self.old.place < 4096 }
        requires quiet { IsQuiet f.now }
        ensures { (ins : Ins) → self.new ≡ done f.now self.old ins self.old.book }
    {
        let next = self.next(f);
        self.go_on(self.flags(), next, 0);
    }

    /// Does a local word that writes no address past the registers.
    fn step_within(&mut self, f: &Fields)
        requires fit { IsFit f.now }
        requires executed { self.old.executed < 1000000 }
        requires place { self.old.place < 4096 }
        ensures { self.new ≡ done f.now self.old no_ins self.old.book }
    {
        if is_quiet(f) {
            self.pass(f);
            return;
        }
        let ins = nothing_read();
        let sent = self.sent(f, &ins);
        self.finish_within(f, &ins, &sent);
    }

    /// Does a local word that may write a setup or the uniforms address.
    #[tactic(auto, using(qpu_word::proofs::BookLemmas::kept_by_setups, qpu_word::proofs::BookLemmas::uniform_sound))]
    fn step_sending(&mut self, f: &Fields) -> Option<FaultKind>
        requires fit { IsFit f.now }
        requires executed { self.old.executed < 1000000 }
        requires place { self.old.place < 4096 }
        ensures { Steps result (then_after (after_setups (outs_of f.now self.old no_ins) self.old.book) (λ book. Ok (done f.now self.old no_ins (after_uniform_to (outs_of f.now self.old no_ins).uniform_to book)))) self.old self.new }
    {
        let ins = nothing_read();
        let sent = self.sent(f, &ins);
        let out = sent.outs(f);
        match self.book_now().with_setups(&out) {
            Ok(book) => {
                self.finish(f, &ins, &sent, book.with_uniform_to(out.uniform_to));
                None
            }
            Err(kind) => {
                self.fault(kind);
                Some(kind)
            }
        }
    }

    /// Does a local word that doesn't fail as a branch.
    fn step_word(&mut self, f: &Fields) -> Option<FaultKind>
        requires fit { IsFit f.now }
        requires executed { self.old.executed < 1000000 }
        requires place { self.old.place < 4096 }
        ensures { Steps result (then_after (after_setups (outs_of f.now self.old no_ins) self.old.book) (λ book. Ok (done f.now self.old no_ins (after_uniform_to (outs_of f.now self.old no_ins).uniform_to book)))) self.old self.new }
    {
        if !stays_in(f) {
            return self.step_sending(f);
        }
        self.step_within(f);
        None
    }

    /// One whole local instruction at its place, whose fields these are, of a program of at most
    /// 4,096 words. None: it was done. Some: it faulted with `Setup`, `SetupsFull` or `Branch`, and
    /// the halt alone changed.
    #[tactic(auto, unfolding(qpu_word::specs::Instruction::local_result), using(qpu_word::proofs::ProfileLemmas::fit_of_fields))]
    fn step_fields<G: Program>(&mut self, program: &G, f: &Fields) -> Option<FaultKind>
        requires going { self.old.halt ≡ Going }
        requires executed { self.old.executed < 1000000 }
        requires words { G.len program.now ≤ 4096 }
        requires place { self.old.place < G.len program.now }
        requires profile { IsInProfile (G.word program.now self.old.place) }
        requires fields { f.now ≡ fields_of (G.word program.now self.old.place) }
        requires local { IsTrue (is_local f.now) }
        ensures { Steps result (local_result (G.is_link program.now) (G.word program.now self.old.place) self.old) self.old self.new }
    {
        if self.branch_fails(f, program) {
            self.fault(FaultKind::Branch);
            return Some(FaultKind::Branch);
        }
        self.step_word(f)
    }

    /// One whole local instruction at its place, decoded, of a program of at most 4,096 words. None:
    /// it was done. Some: it faulted with `Setup`, `SetupsFull` or `Branch`, and the halt alone changed.
    pub fn step_decoded<G: Program>(&mut self, program: &G, word: &Decoded) -> Option<FaultKind>
        requires going { self.old.halt ≡ Going }
        requires executed { self.old.executed < 1000000 }
        requires words { G.len program.now ≤ 4096 }
        requires place { self.old.place < G.len program.now }
        requires profile { IsInProfile (G.word program.now self.old.place) }
        requires decoded { word.now ≡ decoded_of (G.word program.now self.old.place) }
        requires local { word.now.local ≡ true }
        ensures { Steps result (local_result (G.is_link program.now) (G.word program.now self.old.place) self.old) self.old self.new }
    {
        if let Deed::Plain(units) = &word.deed {
            self.step_units(units);
            return None;
        }
        self.step_fields(program, &word.fields)
    }

    /// One whole local instruction at its place, of a program of at most 4,096 words. None: it was
    /// done. Some: it faulted with `Setup`, `SetupsFull` or `Branch`, and the halt alone changed.
    #[tactic(auto, unfolding(qpu_word::specs::Instruction::local_result), using(qpu_word::proofs::ProfileLemmas::fit_of_fields))]
    pub fn step_local<G: Program>(&mut self, program: &G) -> Option<FaultKind>
        requires going { self.old.halt ≡ Going }
        requires executed { self.old.executed < 1000000 }
        requires words { G.len program.now ≤ 4096 }
        requires place { self.old.place < G.len program.now }
        requires profile { IsInProfile (G.word program.now self.old.place) }
        requires local { IsTrue (is_local (fields_of (G.word program.now self.old.place))) }
        ensures { Steps result (local_result (G.is_link program.now) (G.word program.now self.old.place) self.old) self.old self.new }
    {
        let Some(word) = program.word(self.place) else {
            unreachable!()
        };
        self.step_fields(program, &word.fields())
    }
}
