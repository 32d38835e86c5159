//! Whole programs through `step_local`. Their words come from an independent assembler of the
//! manual's tables, checked against words that were encoded by hand.
ghost use Rattle.std.specs.Prelude.{◌≡◌, ◌≤◌, ℕ, length, slice_index};
ghost use Rattle.qpu_word.specs.Words.{fields_of, writes_link};
ghost use Rattle.qpu_word.specs.Instruction.{is_link_point};

use crate::{Halt, Processor};
use qpu_word::code::BRANCH_SLOTS;
use qpu_word::{FaultKind, LANES, Program, SetupFault, Word};

/// A program of a few words.
#[derive(Drop)]
struct Listed<'a> {
    words: &'a [u64],
    ghost short: { length words.now ≤ 4096 },
}

/// Whether a word is a branch that writes a link.
fn links(word: u64) -> bool
    ensures { result ≡ writes_link (fields_of word) }
{
    Word(word).fields().writes_link()
}

impl Program for Listed<'_> {
    ghost len = { λ program. length program.words.now };

    ghost word = { λ program at. slice_index program.words.now at };

    ghost is_link = { λ program at. is_link_point program.words.now at };

    fn len(&self) -> u32 {
        self.words.len() as u32
    }

    fn word(&self, at: u32) -> Option<Word> {
        match self.words.get(at as usize) {
            Some(word) => Some(Word(*word)),
            None => None,
        }
    }

    #[tactic(auto, unfolding(qpu_word::specs::Instruction::is_link_point))]
    fn is_link(&self, at: u32) -> bool {
        let first = 1 + BRANCH_SLOTS;
        if at < first || self.words.len() <= at as usize {
            return false;
        }
        links(self.words[(at - first) as usize])
    }
}

/// Steps a new processor, number 3, until so many steps were done, it halts, or its word isn't
/// local.
fn run(words: &[u64], steps: u32) -> Processor
    requires { length words.now ≤ 4096 }
{
    let program = Listed { words };
    let mut processor = Processor::new(3, 0);
    for _ in 0..steps {
        if processor.halt() != Halt::Going || processor.executed() >= 1000 {
            return processor;
        }
        let Some(word) = program.word(processor.place()) else {
            return processor;
        };
        if word.form().is_err() || !word.is_local() {
            return processor;
        }
        let _fault = processor.step_local(&program);
    }
    processor
}

/// The number of the lane in each lane.
const NUMBERS: [u32; LANES] = [0, 1, 2, 3, 4, 5, 6, 7, 8, 9, 10, 11, 12, 13, 14, 15];

#[test]
fn units_set_registers_and_flags(rt: HostRuntime) {
    // ldi r0, 0x00ffffff; nop and mul24 r1, r0, r0; sub.setf r2, r3, 1 and mul24 r3, r3, r3; clz r3, r3
    let p = run(
        &[
            0xe002082700ffffff,
            0x100049e1409e7000,
            0xd00268a34d9c17db,
            0x100208e7189e76c0,
        ],
        4,
    );
    assert!(rt; p.executed() == 4);
    for (n, value) in [
        (0, 0x00ffffff),
        (1, 0xfe000001),
        (2, 0xffffffff),
        (3, 0x00000020),
    ] {
        assert!(rt; p.accumulator(n).v == [value; LANES], "r{n}");
    }
    assert!(rt; p.flags().zn == Some((0x0000, 0xffff)));
    assert!(rt; p.flags().c == Some(0xffff));
}

#[test]
fn rotations_go_by_a_number_and_by_r5(rt: HostRuntime) {
    // or r0, elem_num, elem_num; nop; v8min r1, r0, r0 rot 1; v8min r2, r0, r0 rot r5, which is 0
    let zero = run(
        &[
            0x10020827159a7d80,
            0x100009e7009e7000,
            0xd00049e1809f1000,
            0xd00049e2809f0000,
        ],
        4,
    );
    let by_one = [15, 0, 1, 2, 3, 4, 5, 6, 7, 8, 9, 10, 11, 12, 13, 14];
    assert!(rt; zero.accumulator(1).v == by_one);
    assert!(rt; zero.accumulator(2).v == NUMBERS);
    // the same with ldi r5rep, 5 before the last
    let five = run(
        &[
            0x10020827159a7d80,
            0xe002196700000005,
            0x100009e7009e7000,
            0xd00049e2809f0000,
        ],
        4,
    );
    let by_five = [11, 12, 13, 14, 15, 0, 1, 2, 3, 4, 5, 6, 7, 8, 9, 10];
    assert!(rt; five.accumulator(2).v == by_five);
}

#[test]
fn values_are_packed_and_clamped(rt: HostRuntime) {
    // ldi r0, 0xff01ff01; ldi r1, 0x02020202; v8adds r2, r0, r1; ldi r3, 300; or ra0.8as, r3, r3;
    // ldi ra1, 0xffffffff; or ra1.8as, -1, -1
    let p = run(
        &[
            0xe0020827ff01ff01,
            0xe002086702020202,
            0x100208a71e9e7040,
            0xe00208e70000012c,
            0x10c20027159e76c0,
            0xe0020067ffffffff,
            0xd0c20067159dffc0,
        ],
        7,
    );
    assert!(rt; p.accumulator(2).v == [0xff03ff03; LANES]);
    assert!(rt; p.row(false, 0).v == [0x000000ff; LANES]);
    assert!(rt; p.row(false, 1).v == [0xffffff00; LANES]);
}

#[test]
fn branches_go_on_after_three_slots(rt: HostRuntime) {
    let nop = 0x100009e7009e7000;
    // :a brr -, :a with its slots
    let loops = run(&[0xf0f809e7ffffffe0, nop, nop, nop], 998);
    assert!(rt; (loops.executed(), loops.place()) == (998, 2));
    // ldi ra1, 32; nop; brr ra0, 0, whose link point is word 6; bra -, ra1 at word 6: 32 is no
    // link point, and the branch faults
    let fails = run(
        &[
            0xe002006700000020,
            nop,
            0xf0f8002700000000,
            nop,
            nop,
            nop,
            0xf0f409e700000000 + (1 << 45),
            nop,
            nop,
            nop,
        ],
        20,
    );
    assert!(rt; fails.halt() == Halt::Faulted(FaultKind::Branch, 6));
    assert!(rt; fails.executed() == 6);
    assert!(rt; fails.row(false, 0).v == [48; LANES]);
    // the same with bra -, ra0: it goes to word 6 again and again
    let reaches = run(
        &[
            0xe002006700000020,
            nop,
            0xf0f8002700000000,
            nop,
            nop,
            nop,
            0xf0f409e700000000,
            nop,
            nop,
            nop,
        ],
        15,
    );
    assert!(rt; reaches.halt() == Halt::Going);
    assert!(rt; (reaches.executed(), reaches.place()) == (15, 7));
}

#[test]
fn setups_are_refused(rt: HostRuntime) {
    // ldi vr_setup (file A) or vw_setup (file B), value
    let read = 0xe0020c6700000000;
    let write = 0xe0021c6700000000;
    for (word, fault) in [
        (read + 0x00100b00, SetupFault::Size),
        (read + 0x40000000, SetupFault::Kind),
        (write + 0x00000300, SetupFault::Size),
        (write + 0x40000000, SetupFault::Kind),
        (write + 0x80000001, SetupFault::Width),
        (write + 0xc0010000, SetupFault::Block),
    ] {
        let p = run(&[word], 1);
        assert!(rt;
            p.halt() == Halt::Faulted(FaultKind::Setup(fault), 0),
            "{word}"
        );
        assert!(rt; p.executed() == 0);
    }
    // a third read setup of vectors while two are unfinished
    let full = run(
        &[read + 0x00100a00, read + 0x00100a00, read + 0x00100a00],
        3,
    );
    assert!(rt; full.halt() == Halt::Faulted(FaultKind::SetupsFull, 2));
    assert!(rt; full.executed() == 2);
}

#[test]
fn the_file_bit_exchanges_the_units_files(rt: HostRuntime) {
    // not ra1, r0 and v8min rb1, elem_num, elem_num; the same with the file bit: rb1 and ra1
    for (word, add_in_b) in [(0x10024041979a7036, false), (0x10025041979a7036, true)] {
        let p = run(&[word], 1);
        assert!(rt; p.row(add_in_b, 1).v == [0xffffffff; LANES]);
        assert!(rt; p.row(!add_in_b, 1).v == NUMBERS);
    }
}
