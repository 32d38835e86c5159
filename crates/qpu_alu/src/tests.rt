use crate::{AddOp, MulOp, add_unit, mul_unit};
use qpu_word::{LANES, Lanes};

/// The operands, lane by lane: 0, 1, the ends of signed and unsigned numbers, and mixed bytes.
const FIRST: Lanes = Lanes {
    v: [
        0x00000000, 0x00000001, 0x7fffffff, 0x80000000, 0xffffffff, 0x00000000, 0x00000001,
        0x7fffffff, 0xff01ff01, 0x02020202, 0x12345678, 0x80000000, 0xffffffff, 0x00ffffff,
        0x00000005, 0x7f80ff01,
    ],
};

const SECOND: Lanes = Lanes {
    v: [
        0x00000000, 0xffffffff, 0x00000001, 0x80000000, 0xffffffff, 0x00000001, 0x80000000,
        0x7fffffff, 0x02020202, 0xff01ff01, 0x00000004, 0x0000001f, 0x00000020, 0x00ffffff,
        0x80000003, 0x01ff7f80,
    ],
};

/// Expected values come from an independent program.
#[test]
fn add_unit_gives_the_tables_results(rt: HostRuntime) {
    let table: [(AddOp, [u32; LANES], Option<u32>); 15] = [
        (
            AddOp::Add,
            [
                0x00000000, 0x00000000, 0x80000000, 0x00000000, 0xfffffffe, 0x00000001, 0x80000001,
                0xfffffffe, 0x01040103, 0x01040103, 0x1234567c, 0x8000001f, 0x0000001f, 0x01fffffe,
                0x80000008, 0x81807e81,
            ],
            Some(0x131a),
        ),
        (
            AddOp::Sub,
            [
                0x00000000, 0x00000002, 0x7ffffffe, 0x00000000, 0x00000000, 0xffffffff, 0x80000001,
                0x00000000, 0xfcfffcff, 0x03000301, 0x12345674, 0x7fffffe1, 0xffffffdf, 0x00000000,
                0x80000002, 0x7d817f81,
            ],
            Some(0x4262),
        ),
        (
            AddOp::Shr,
            [
                0x00000000, 0x00000000, 0x3fffffff, 0x80000000, 0x00000001, 0x00000000, 0x00000001,
                0x00000000, 0x3fc07fc0, 0x01010101, 0x01234567, 0x00000001, 0xffffffff, 0x00000000,
                0x00000000, 0x7f80ff01,
            ],
            None,
        ),
        (
            AddOp::Asr,
            [
                0x00000000, 0x00000000, 0x3fffffff, 0x80000000, 0xffffffff, 0x00000000, 0x00000001,
                0x00000000, 0xffc07fc0, 0x01010101, 0x01234567, 0xffffffff, 0xffffffff, 0x00000000,
                0x00000000, 0x7f80ff01,
            ],
            None,
        ),
        (
            AddOp::Ror,
            [
                0x00000000, 0x00000002, 0xbfffffff, 0x80000000, 0xffffffff, 0x00000000, 0x00000001,
                0xfffffffe, 0x7fc07fc0, 0x01010101, 0x81234567, 0x00000001, 0xffffffff, 0x01fffffe,
                0xa0000000, 0x7f80ff01,
            ],
            None,
        ),
        (
            AddOp::Shl,
            [
                0x00000000, 0x80000000, 0xfffffffe, 0x80000000, 0x80000000, 0x00000000, 0x00000001,
                0x80000000, 0xfc07fc04, 0x04040404, 0x23456780, 0x00000000, 0xffffffff, 0x80000000,
                0x00000028, 0x7f80ff01,
            ],
            None,
        ),
        (
            AddOp::Min,
            [
                0x00000000, 0xffffffff, 0x00000001, 0x80000000, 0xffffffff, 0x00000000, 0x80000000,
                0x7fffffff, 0xff01ff01, 0xff01ff01, 0x00000004, 0x80000000, 0xffffffff, 0x00ffffff,
                0x80000003, 0x01ff7f80,
            ],
            None,
        ),
        (
            AddOp::Max,
            [
                0x00000000, 0x00000001, 0x7fffffff, 0x80000000, 0xffffffff, 0x00000001, 0x00000001,
                0x7fffffff, 0x02020202, 0x02020202, 0x12345678, 0x0000001f, 0x00000020, 0x00ffffff,
                0x00000005, 0x7f80ff01,
            ],
            None,
        ),
        (
            AddOp::And,
            [
                0x00000000, 0x00000001, 0x00000001, 0x80000000, 0xffffffff, 0x00000000, 0x00000000,
                0x7fffffff, 0x02000200, 0x02000200, 0x00000000, 0x00000000, 0x00000020, 0x00ffffff,
                0x00000001, 0x01807f00,
            ],
            None,
        ),
        (
            AddOp::Or,
            [
                0x00000000, 0xffffffff, 0x7fffffff, 0x80000000, 0xffffffff, 0x00000001, 0x80000001,
                0x7fffffff, 0xff03ff03, 0xff03ff03, 0x1234567c, 0x8000001f, 0xffffffff, 0x00ffffff,
                0x80000007, 0x7fffff81,
            ],
            None,
        ),
        (
            AddOp::Xor,
            [
                0x00000000, 0xfffffffe, 0x7ffffffe, 0x00000000, 0x00000000, 0x00000001, 0x80000001,
                0x00000000, 0xfd03fd03, 0xfd03fd03, 0x1234567c, 0x8000001f, 0xffffffdf, 0x00000000,
                0x80000006, 0x7e7f8081,
            ],
            None,
        ),
        (
            AddOp::Not,
            [
                0xffffffff, 0xfffffffe, 0x80000000, 0x7fffffff, 0x00000000, 0xffffffff, 0xfffffffe,
                0x80000000, 0x00fe00fe, 0xfdfdfdfd, 0xedcba987, 0x7fffffff, 0x00000000, 0xff000000,
                0xfffffffa, 0x807f00fe,
            ],
            None,
        ),
        (
            AddOp::Clz,
            [
                0x00000020, 0x0000001f, 0x00000001, 0x00000000, 0x00000000, 0x00000020, 0x0000001f,
                0x00000001, 0x00000000, 0x00000006, 0x00000003, 0x00000000, 0x00000000, 0x00000008,
                0x0000001d, 0x00000001,
            ],
            None,
        ),
        (
            AddOp::V8adds,
            [
                0x00000000, 0xffffffff, 0x7fffffff, 0xff000000, 0xffffffff, 0x00000001, 0x80000001,
                0xfeffffff, 0xff03ff03, 0xff03ff03, 0x1234567c, 0x8000001f, 0xffffffff, 0x00ffffff,
                0x80000008, 0x80ffff81,
            ],
            None,
        ),
        (
            AddOp::V8subs,
            [
                0x00000000, 0x00000000, 0x7ffffffe, 0x00000000, 0x00000000, 0x00000000, 0x00000001,
                0x00000000, 0xfd00fd00, 0x00010001, 0x12345674, 0x80000000, 0xffffffdf, 0x00000000,
                0x00000002, 0x7e008000,
            ],
            None,
        ),
    ];
    for (op, results, carries) in table {
        let (value, mask) = add_unit(op, &FIRST, &SECOND);
        assert!(rt; value.v == results, "{op:?}");
        assert!(rt; mask == carries, "{op:?}");
    }
}

/// Expected values come from an independent program.
#[test]
fn mul_unit_gives_the_tables_results(rt: HostRuntime) {
    let table: [(MulOp, [u32; LANES]); 6] = [
        (
            MulOp::Mul24,
            [
                0x00000000, 0x00ffffff, 0x00ffffff, 0x00000000, 0xfe000001, 0x00000000, 0x00000000,
                0xfe000001, 0x02040002, 0x02040002, 0x00d159e0, 0x00000000, 0x1fffffe0, 0xfe000001,
                0x0000000f, 0x40ffff80,
            ],
        ),
        (
            MulOp::V8muld,
            [
                0x00000000, 0x00000001, 0x00000001, 0x40000000, 0xffffffff, 0x00000000, 0x00000000,
                0x3fffffff, 0x02000200, 0x02000200, 0x00000002, 0x00000000, 0x00000020, 0x00ffffff,
                0x00000000, 0x00807f01,
            ],
        ),
        (
            MulOp::V8min,
            [
                0x00000000, 0x00000001, 0x00000001, 0x80000000, 0xffffffff, 0x00000000, 0x00000000,
                0x7fffffff, 0x02010201, 0x02010201, 0x00000004, 0x00000000, 0x00000020, 0x00ffffff,
                0x00000003, 0x01807f01,
            ],
        ),
        (
            MulOp::V8max,
            [
                0x00000000, 0xffffffff, 0x7fffffff, 0x80000000, 0xffffffff, 0x00000001, 0x80000001,
                0x7fffffff, 0xff02ff02, 0xff02ff02, 0x12345678, 0x8000001f, 0xffffffff, 0x00ffffff,
                0x80000005, 0x7fffff80,
            ],
        ),
        (
            MulOp::V8adds,
            [
                0x00000000, 0xffffffff, 0x7fffffff, 0xff000000, 0xffffffff, 0x00000001, 0x80000001,
                0xfeffffff, 0xff03ff03, 0xff03ff03, 0x1234567c, 0x8000001f, 0xffffffff, 0x00ffffff,
                0x80000008, 0x80ffff81,
            ],
        ),
        (
            MulOp::V8subs,
            [
                0x00000000, 0x00000000, 0x7ffffffe, 0x00000000, 0x00000000, 0x00000000, 0x00000001,
                0x00000000, 0xfd00fd00, 0x00010001, 0x12345674, 0x80000000, 0xffffffdf, 0x00000000,
                0x00000002, 0x7e008000,
            ],
        ),
    ];
    for (op, results) in table {
        assert!(rt; mul_unit(op, &FIRST, &SECOND).v == results, "{op:?}");
    }
}

/// The ends of numbers with and without sign.
const ENDS: [u32; 5] = [0x00000000, 0x00000001, 0x7fffffff, 0x80000000, 0xffffffff];

/// The five ends in the first five lanes.
const END_LANES: Lanes = Lanes {
    v: [
        0x00000000, 0x00000001, 0x7fffffff, 0x80000000, 0xffffffff, 0, 0, 0, 0, 0, 0, 0, 0, 0, 0, 0,
    ],
};

/// The results in the first five lanes for each end as first operand and the five as second ones.
type Ends = [[u32; 5]; 5];

/// Expected values come from an independent program.
#[test]
fn numbers_at_their_ends(rt: HostRuntime) {
    let table: [(AddOp, Ends); 8] = [
        (
            AddOp::Add,
            [
                [0x00000000, 0x00000001, 0x7fffffff, 0x80000000, 0xffffffff],
                [0x00000001, 0x00000002, 0x80000000, 0x80000001, 0x00000000],
                [0x7fffffff, 0x80000000, 0xfffffffe, 0xffffffff, 0x7ffffffe],
                [0x80000000, 0x80000001, 0xffffffff, 0x00000000, 0x7fffffff],
                [0xffffffff, 0x00000000, 0x7ffffffe, 0x7fffffff, 0xfffffffe],
            ],
        ),
        (
            AddOp::Sub,
            [
                [0x00000000, 0xffffffff, 0x80000001, 0x80000000, 0x00000001],
                [0x00000001, 0x00000000, 0x80000002, 0x80000001, 0x00000002],
                [0x7fffffff, 0x7ffffffe, 0x00000000, 0xffffffff, 0x80000000],
                [0x80000000, 0x7fffffff, 0x00000001, 0x00000000, 0x80000001],
                [0xffffffff, 0xfffffffe, 0x80000000, 0x7fffffff, 0x00000000],
            ],
        ),
        (
            AddOp::Shr,
            [
                [0x00000000, 0x00000000, 0x00000000, 0x00000000, 0x00000000],
                [0x00000001, 0x00000000, 0x00000000, 0x00000001, 0x00000000],
                [0x7fffffff, 0x3fffffff, 0x00000000, 0x7fffffff, 0x00000000],
                [0x80000000, 0x40000000, 0x00000001, 0x80000000, 0x00000001],
                [0xffffffff, 0x7fffffff, 0x00000001, 0xffffffff, 0x00000001],
            ],
        ),
        (
            AddOp::Asr,
            [
                [0x00000000, 0x00000000, 0x00000000, 0x00000000, 0x00000000],
                [0x00000001, 0x00000000, 0x00000000, 0x00000001, 0x00000000],
                [0x7fffffff, 0x3fffffff, 0x00000000, 0x7fffffff, 0x00000000],
                [0x80000000, 0xc0000000, 0xffffffff, 0x80000000, 0xffffffff],
                [0xffffffff, 0xffffffff, 0xffffffff, 0xffffffff, 0xffffffff],
            ],
        ),
        (
            AddOp::Ror,
            [
                [0x00000000, 0x00000000, 0x00000000, 0x00000000, 0x00000000],
                [0x00000001, 0x80000000, 0x00000002, 0x00000001, 0x00000002],
                [0x7fffffff, 0xbfffffff, 0xfffffffe, 0x7fffffff, 0xfffffffe],
                [0x80000000, 0x40000000, 0x00000001, 0x80000000, 0x00000001],
                [0xffffffff, 0xffffffff, 0xffffffff, 0xffffffff, 0xffffffff],
            ],
        ),
        (
            AddOp::Shl,
            [
                [0x00000000, 0x00000000, 0x00000000, 0x00000000, 0x00000000],
                [0x00000001, 0x00000002, 0x80000000, 0x00000001, 0x80000000],
                [0x7fffffff, 0xfffffffe, 0x80000000, 0x7fffffff, 0x80000000],
                [0x80000000, 0x00000000, 0x00000000, 0x80000000, 0x00000000],
                [0xffffffff, 0xfffffffe, 0x80000000, 0xffffffff, 0x80000000],
            ],
        ),
        (
            AddOp::Min,
            [
                [0x00000000, 0x00000000, 0x00000000, 0x80000000, 0xffffffff],
                [0x00000000, 0x00000001, 0x00000001, 0x80000000, 0xffffffff],
                [0x00000000, 0x00000001, 0x7fffffff, 0x80000000, 0xffffffff],
                [0x80000000, 0x80000000, 0x80000000, 0x80000000, 0x80000000],
                [0xffffffff, 0xffffffff, 0xffffffff, 0x80000000, 0xffffffff],
            ],
        ),
        (
            AddOp::Max,
            [
                [0x00000000, 0x00000001, 0x7fffffff, 0x00000000, 0x00000000],
                [0x00000001, 0x00000001, 0x7fffffff, 0x00000001, 0x00000001],
                [0x7fffffff, 0x7fffffff, 0x7fffffff, 0x7fffffff, 0x7fffffff],
                [0x00000000, 0x00000001, 0x7fffffff, 0x80000000, 0xffffffff],
                [0x00000000, 0x00000001, 0x7fffffff, 0xffffffff, 0xffffffff],
            ],
        ),
    ];
    for (op, rows) in table {
        for (i, row) in rows.into_iter().enumerate() {
            let value = add_unit(
                op,
                &Lanes {
                    v: [ENDS[i]; LANES],
                },
                &END_LANES,
            )
            .0;
            assert!(rt; value.v[..5] == row[..], "{op:?} {i}");
        }
    }
}

/// Expected values come from an independent program.
#[test]
fn bits_and_bytes_at_their_ends(rt: HostRuntime) {
    let table: [(AddOp, Ends); 7] = [
        (
            AddOp::And,
            [
                [0x00000000, 0x00000000, 0x00000000, 0x00000000, 0x00000000],
                [0x00000000, 0x00000001, 0x00000001, 0x00000000, 0x00000001],
                [0x00000000, 0x00000001, 0x7fffffff, 0x00000000, 0x7fffffff],
                [0x00000000, 0x00000000, 0x00000000, 0x80000000, 0x80000000],
                [0x00000000, 0x00000001, 0x7fffffff, 0x80000000, 0xffffffff],
            ],
        ),
        (
            AddOp::Or,
            [
                [0x00000000, 0x00000001, 0x7fffffff, 0x80000000, 0xffffffff],
                [0x00000001, 0x00000001, 0x7fffffff, 0x80000001, 0xffffffff],
                [0x7fffffff, 0x7fffffff, 0x7fffffff, 0xffffffff, 0xffffffff],
                [0x80000000, 0x80000001, 0xffffffff, 0x80000000, 0xffffffff],
                [0xffffffff, 0xffffffff, 0xffffffff, 0xffffffff, 0xffffffff],
            ],
        ),
        (
            AddOp::Xor,
            [
                [0x00000000, 0x00000001, 0x7fffffff, 0x80000000, 0xffffffff],
                [0x00000001, 0x00000000, 0x7ffffffe, 0x80000001, 0xfffffffe],
                [0x7fffffff, 0x7ffffffe, 0x00000000, 0xffffffff, 0x80000000],
                [0x80000000, 0x80000001, 0xffffffff, 0x00000000, 0x7fffffff],
                [0xffffffff, 0xfffffffe, 0x80000000, 0x7fffffff, 0x00000000],
            ],
        ),
        (
            AddOp::Not,
            [
                [0xffffffff, 0xffffffff, 0xffffffff, 0xffffffff, 0xffffffff],
                [0xfffffffe, 0xfffffffe, 0xfffffffe, 0xfffffffe, 0xfffffffe],
                [0x80000000, 0x80000000, 0x80000000, 0x80000000, 0x80000000],
                [0x7fffffff, 0x7fffffff, 0x7fffffff, 0x7fffffff, 0x7fffffff],
                [0x00000000, 0x00000000, 0x00000000, 0x00000000, 0x00000000],
            ],
        ),
        (
            AddOp::Clz,
            [
                [0x00000020, 0x00000020, 0x00000020, 0x00000020, 0x00000020],
                [0x0000001f, 0x0000001f, 0x0000001f, 0x0000001f, 0x0000001f],
                [0x00000001, 0x00000001, 0x00000001, 0x00000001, 0x00000001],
                [0x00000000, 0x00000000, 0x00000000, 0x00000000, 0x00000000],
                [0x00000000, 0x00000000, 0x00000000, 0x00000000, 0x00000000],
            ],
        ),
        (
            AddOp::V8adds,
            [
                [0x00000000, 0x00000001, 0x7fffffff, 0x80000000, 0xffffffff],
                [0x00000001, 0x00000002, 0x7fffffff, 0x80000001, 0xffffffff],
                [0x7fffffff, 0x7fffffff, 0xfeffffff, 0xffffffff, 0xffffffff],
                [0x80000000, 0x80000001, 0xffffffff, 0xff000000, 0xffffffff],
                [0xffffffff, 0xffffffff, 0xffffffff, 0xffffffff, 0xffffffff],
            ],
        ),
        (
            AddOp::V8subs,
            [
                [0x00000000, 0x00000000, 0x00000000, 0x00000000, 0x00000000],
                [0x00000001, 0x00000000, 0x00000000, 0x00000001, 0x00000000],
                [0x7fffffff, 0x7ffffffe, 0x00000000, 0x00ffffff, 0x00000000],
                [0x80000000, 0x80000000, 0x01000000, 0x00000000, 0x00000000],
                [0xffffffff, 0xfffffffe, 0x80000000, 0x7fffffff, 0x00000000],
            ],
        ),
    ];
    for (op, rows) in table {
        for (i, row) in rows.into_iter().enumerate() {
            let value = add_unit(
                op,
                &Lanes {
                    v: [ENDS[i]; LANES],
                },
                &END_LANES,
            )
            .0;
            assert!(rt; value.v[..5] == row[..], "{op:?} {i}");
        }
    }
}

/// Expected values come from an independent program.
#[test]
fn products_and_bytes_at_their_ends(rt: HostRuntime) {
    let table: [(MulOp, Ends); 6] = [
        (
            MulOp::Mul24,
            [
                [0x00000000, 0x00000000, 0x00000000, 0x00000000, 0x00000000],
                [0x00000000, 0x00000001, 0x00ffffff, 0x00000000, 0x00ffffff],
                [0x00000000, 0x00ffffff, 0xfe000001, 0x00000000, 0xfe000001],
                [0x00000000, 0x00000000, 0x00000000, 0x00000000, 0x00000000],
                [0x00000000, 0x00ffffff, 0xfe000001, 0x00000000, 0xfe000001],
            ],
        ),
        (
            MulOp::V8muld,
            [
                [0x00000000, 0x00000000, 0x00000000, 0x00000000, 0x00000000],
                [0x00000000, 0x00000000, 0x00000001, 0x00000000, 0x00000001],
                [0x00000000, 0x00000001, 0x3fffffff, 0x40000000, 0x7fffffff],
                [0x00000000, 0x00000000, 0x40000000, 0x40000000, 0x80000000],
                [0x00000000, 0x00000001, 0x7fffffff, 0x80000000, 0xffffffff],
            ],
        ),
        (
            MulOp::V8min,
            [
                [0x00000000, 0x00000000, 0x00000000, 0x00000000, 0x00000000],
                [0x00000000, 0x00000001, 0x00000001, 0x00000000, 0x00000001],
                [0x00000000, 0x00000001, 0x7fffffff, 0x7f000000, 0x7fffffff],
                [0x00000000, 0x00000000, 0x7f000000, 0x80000000, 0x80000000],
                [0x00000000, 0x00000001, 0x7fffffff, 0x80000000, 0xffffffff],
            ],
        ),
        (
            MulOp::V8max,
            [
                [0x00000000, 0x00000001, 0x7fffffff, 0x80000000, 0xffffffff],
                [0x00000001, 0x00000001, 0x7fffffff, 0x80000001, 0xffffffff],
                [0x7fffffff, 0x7fffffff, 0x7fffffff, 0x80ffffff, 0xffffffff],
                [0x80000000, 0x80000001, 0x80ffffff, 0x80000000, 0xffffffff],
                [0xffffffff, 0xffffffff, 0xffffffff, 0xffffffff, 0xffffffff],
            ],
        ),
        (
            MulOp::V8adds,
            [
                [0x00000000, 0x00000001, 0x7fffffff, 0x80000000, 0xffffffff],
                [0x00000001, 0x00000002, 0x7fffffff, 0x80000001, 0xffffffff],
                [0x7fffffff, 0x7fffffff, 0xfeffffff, 0xffffffff, 0xffffffff],
                [0x80000000, 0x80000001, 0xffffffff, 0xff000000, 0xffffffff],
                [0xffffffff, 0xffffffff, 0xffffffff, 0xffffffff, 0xffffffff],
            ],
        ),
        (
            MulOp::V8subs,
            [
                [0x00000000, 0x00000000, 0x00000000, 0x00000000, 0x00000000],
                [0x00000001, 0x00000000, 0x00000000, 0x00000001, 0x00000000],
                [0x7fffffff, 0x7ffffffe, 0x00000000, 0x00ffffff, 0x00000000],
                [0x80000000, 0x80000000, 0x01000000, 0x00000000, 0x00000000],
                [0xffffffff, 0xfffffffe, 0x80000000, 0x7fffffff, 0x00000000],
            ],
        ),
    ];
    for (op, rows) in table {
        for (i, row) in rows.into_iter().enumerate() {
            let value = mul_unit(
                op,
                &Lanes {
                    v: [ENDS[i]; LANES],
                },
                &END_LANES,
            );
            assert!(rt; value.v[..5] == row[..], "{op:?} {i}");
        }
    }
}

/// The carries of sums and the borrows of differences, in the first five lanes.
#[test]
fn carries_at_the_ends(rt: HostRuntime) {
    let table: [(u32, u32, u32); 5] = [
        (0x00000000, 0b00000, 0b11110),
        (0x00000001, 0b10000, 0b11100),
        (0x7fffffff, 0b10000, 0b11000),
        (0x80000000, 0b11000, 0b10000),
        (0xffffffff, 0b11110, 0b00000),
    ];
    for (first, carries, borrows) in table {
        let first = Lanes { v: [first; LANES] };
        for (op, mask) in [(AddOp::Add, carries), (AddOp::Sub, borrows)] {
            let (_, told) = add_unit(op, &first, &END_LANES);
            assert!(rt; told.map(|told| told % 32) == Some(mask), "{op:?}");
        }
    }
}
