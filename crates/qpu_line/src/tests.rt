//! What words say, and which words say nothing that has no effect. Words and their lines come from
//! the table of worked words, or were made from one by changing a field by hand.
use crate::{Branch, Instruction, Load, LoadKind, Operand, Part, Semaphore, Signal, Units, Write};
use qpu_word::{Place, Word};

/// The target `r0`, and those of other accumulators after it.
const R0: u32 = 32;

/// The address `-`.
const NOWHERE: Place = Place::Both(39);

/// An instruction of both units without flags and other reads.
fn both(add: Option<Part>, mul: Option<Part>, signal: Signal) -> Instruction {
    Instruction::Both(Units {
        add,
        mul,
        sets: false,
        signal,
        other_a: None,
        other_b: None,
    })
}

/// A part with condition always and no packing.
fn part(op: u32, to: Place, a: Operand, b: Operand) -> Option<Part> {
    Some(Part {
        op,
        cond: 1,
        to,
        pack: 0,
        a,
        b,
    })
}

/// A load of the add unit with condition always.
fn load(to: Place, immediate: u32) -> Instruction {
    Instruction::Load(Load {
        kind: LoadKind::Whole,
        sets: false,
        add: Some(Write { cond: 1, to }),
        mul: None,
        immediate,
    })
}

/// A relative branch that writes no link.
fn branch(cond: u32, immediate: u32) -> Instruction {
    Instruction::Branch(Branch {
        cond,
        relative: true,
        register: None,
        add: NOWHERE,
        mul: NOWHERE,
        immediate,
    })
}

#[test]
fn words_of_one_unit_say_what_their_lines_say(rt: HostRuntime) {
    let unif = Operand::FileA(32, 0);
    let r0 = Operand::Accumulator(0);
    let r2 = Operand::Accumulator(2);
    let row = Operand::FileA(1, 0);
    let mutex = Operand::FileA(51, 0);
    for (word, add) in [
        (0x100009e7009e7000, None),
        (0x1002082715827d80, part(21, Place::Both(R0), unif, unif)),
        (
            0x100208270c820dc0,
            part(12, Place::Both(R0), unif, Operand::FileB(32)),
        ),
        (
            0xd00208670c9c41c0,
            part(12, Place::Both(R0 + 1), r0, Operand::Small(4)),
        ),
        (0x10020067159e7000, part(21, Place::FileA(1), r0, r0)),
        (0x100208a715067d80, part(21, Place::Both(R0 + 2), row, row)),
        (0x10020c27159e7480, part(21, Place::Both(48), r2, r2)),
        (0x100209e715ce7d80, part(21, NOWHERE, mutex, mutex)),
    ] {
        let instruction = both(add, None, Signal::Nothing);
        assert!(rt; Instruction::of(Word(word)) == Some(instruction), "{word}");
        assert!(rt; instruction.word() == Word(word), "{word}");
    }
}

#[test]
fn words_with_a_signal_or_flags_say_so(rt: HostRuntime) {
    let r0 = Operand::Accumulator(0);
    let turned = part(4, Place::Both(R0 + 1), r0, r0);
    let counted = part(
        13,
        Place::Both(R0 + 3),
        Operand::Accumulator(3),
        Operand::Small(1),
    );
    for (word, instruction) in [
        (0x300009e7009e7000, both(None, None, Signal::End)),
        (0xa00009e7009e7000, both(None, None, Signal::Load0)),
        (0xd00049e1809f1000, both(None, turned, Signal::Rotate(49))),
        (
            0xd00228e70d9c17c0,
            Instruction::Both(Units {
                add: counted,
                mul: None,
                sets: true,
                signal: Signal::Nothing,
                other_a: None,
                other_b: None,
            }),
        ),
    ] {
        assert!(rt; Instruction::of(Word(word)) == Some(instruction), "{word}");
        assert!(rt; instruction.word() == Word(word), "{word}");
    }
}

#[test]
fn other_words_say_what_their_lines_say(rt: HostRuntime) {
    let up = Semaphore {
        down: false,
        number: 3,
    };
    let down = Semaphore {
        down: true,
        number: 3,
    };
    for (word, instruction) in [
        (0xe002082712345678, load(Place::Both(R0), 0x12345678)),
        (0xe0021c6700001a00, load(Place::FileB(49), 0x00001a00)),
        (0xf0f809e7ffffffe0, branch(15, 0xffffffe0)),
        (0xf03809e7ffffff90, branch(3, 0xffffff90)),
        (0xe80009e700000003, Instruction::Semaphore(up)),
        (0xe80009e700000013, Instruction::Semaphore(down)),
    ] {
        assert!(rt; Instruction::of(Word(word)) == Some(instruction), "{word}");
        assert!(rt; instruction.word() == Word(word), "{word}");
    }
}

#[test]
fn a_word_that_breaks_a_rule_of_units_is_not_canonical(rt: HostRuntime) {
    for word in [
        // an idle unit with a mux, with a condition
        0x100009e7009e7001,
        0x100209e7009e7000,
        // a condition other than always that writes nowhere
        0x100409e715ce7d80,
        // not with two operands, and the packing's unit chosen
        0x10020c27179e7400,
        0x110009e7009e7000,
        // flags without a unit, and exchanged files without one
        0x100029e7009e7000,
        0x100019e7009e7000,
        // rows of both files that aren't read
        0x100009e700067000,
        0x100009e7009c1000,
        // an immediate that isn't used, and a rotation of nothing
        0xd00009e7009c1000,
        0xd00009e7009f1000,
    ] {
        assert!(rt; Instruction::of(Word(word)).is_none(), "{word}");
    }
}

#[test]
fn another_word_that_breaks_a_rule_is_not_canonical(rt: HostRuntime) {
    for word in [
        // outside the profile
        0x000009e7009e7000,
        // a load with a condition that writes nowhere
        0xe002482712345678,
        // a semaphore word with a further bit
        0xe80009e700000023,
        // a branch with a kind, and with a row that isn't added
        0xf2f809e7ffffffe0,
        0xf0f829e7ffffffe0,
    ] {
        assert!(rt; Instruction::of(Word(word)).is_none(), "{word}");
    }
}
