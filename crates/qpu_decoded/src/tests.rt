use crate::{Decoded, Deed, Setter, Source, Target, Units};
use qpu_word::{AddOp, MulOp, Word};

/// Units that compute nothing.
const IDLE: Units = Units {
    add: None,
    add_a: Source::Accumulator(0),
    add_b: Source::Accumulator(0),
    add_to: Target::Nowhere,
    mul: None,
    mul_a: Source::Accumulator(0),
    mul_b: Source::Accumulator(0),
    mul_to: Target::Nowhere,
    sets: Setter::Neither,
};

/// Words taken apart by hand, by the tables of the Guide's "QPU Instruction Encoding".
#[test]
fn plain_words_are_decoded(rt: HostRuntime) {
    let table = [
        // nop
        (0x1000_09e7_009e_7000, IDLE),
        // add ra1, r0, r1; mul24 r2, r1, r3
        (
            0x1002_4062_4c9e_704b,
            Units {
                add: Some(AddOp::Add),
                add_b: Source::Accumulator(1),
                add_to: Target::FileA(1),
                mul: Some(MulOp::Mul24),
                mul_a: Source::Accumulator(1),
                mul_b: Source::Accumulator(3),
                mul_to: Target::Accumulator(2),
                ..IDLE
            },
        ),
        // shl r3, r1, 3; v8min r2, r2, ra2
        (
            0xd002_48e2_9108_33d6,
            Units {
                add: Some(AddOp::Shl),
                add_a: Source::Accumulator(1),
                add_b: Source::All(3),
                add_to: Target::Accumulator(3),
                mul: Some(MulOp::V8min),
                mul_a: Source::Accumulator(2),
                mul_b: Source::FileA(2),
                mul_to: Target::Accumulator(2),
                sets: Setter::Neither,
            },
        ),
        // xor.setf rb3, r3, ra1; mul24 ra2, r1, r2
        (
            0x1002_70c2_5606_778a,
            Units {
                add: Some(AddOp::Xor),
                add_a: Source::Accumulator(3),
                add_b: Source::FileA(1),
                add_to: Target::FileB(3),
                mul: Some(MulOp::Mul24),
                mul_a: Source::Accumulator(1),
                mul_b: Source::Accumulator(2),
                mul_to: Target::FileA(2),
                sets: Setter::Add,
            },
        ),
        // add ra1, elem_num, qpu_num
        (
            0x1002_0067_0c9a_6dc0,
            Units {
                add: Some(AddOp::Add),
                add_a: Source::ElementNumber,
                add_b: Source::QpuNumber,
                add_to: Target::FileA(1),
                ..IDLE
            },
        ),
    ];
    for (word, units) in table {
        assert_eq!(rt; Decoded::of(Word(word)).deed, Deed::Plain(units));
    }
}

/// Words that do more than compute and write whole values.
#[test]
fn other_words_are_told_by_their_fields(rt: HostRuntime) {
    let table = [
        // add.ifz ra1, r0, r1
        0x1004_0067_0c9e_7040,
        // add r5quad, r0, r1
        0x1002_0967_0c9e_7040,
        // add ra1, ra2.16a, r1
        0x1202_0067_0c0a_7c40,
        // mul24 r2 << 1, r1, r3
        0xd000_49e2_409f_100b,
        // nop; thrend
        0x3000_09e7_009e_7000,
    ];
    for word in table {
        assert_eq!(rt; Decoded::of(Word(word)).deed, Deed::Other);
    }
}
