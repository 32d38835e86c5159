use crate::{immediate_of, pack_into, rotate, small_code, unpack};
use qpu_word::{LANES, Lanes};

/// What is packed: values that clamp and that don't.
const VALUES: Lanes = Lanes {
    v: [
        0x00000000, 0x12345678, 0x00008000, 0xffff7fff, 0x7fffffff, 0x80000000, 0x000000ff,
        0x00000100, 0xffffffff, 0x0000012c, 0x00000000, 0x00000000, 0x00000000, 0x00000000,
        0x00000000, 0x00000000,
    ],
};

/// What is packed into.
const OLD: Lanes = Lanes {
    v: [0x11223344; LANES],
};

/// Expected values come from an independent program.
#[test]
fn each_pack_mode_leaves_the_tables_bits(rt: HostRuntime) {
    let table: [(u32, [u32; LANES]); 15] = [
        (
            0,
            [
                0x00000000, 0x12345678, 0x00008000, 0xffff7fff, 0x7fffffff, 0x80000000, 0x000000ff,
                0x00000100, 0xffffffff, 0x0000012c, 0x00000000, 0x00000000, 0x00000000, 0x00000000,
                0x00000000, 0x00000000,
            ],
        ),
        (
            1,
            [
                0x11220000, 0x11225678, 0x11228000, 0x11227fff, 0x1122ffff, 0x11220000, 0x112200ff,
                0x11220100, 0x1122ffff, 0x1122012c, 0x11220000, 0x11220000, 0x11220000, 0x11220000,
                0x11220000, 0x11220000,
            ],
        ),
        (
            2,
            [
                0x00003344, 0x56783344, 0x80003344, 0x7fff3344, 0xffff3344, 0x00003344, 0x00ff3344,
                0x01003344, 0xffff3344, 0x012c3344, 0x00003344, 0x00003344, 0x00003344, 0x00003344,
                0x00003344, 0x00003344,
            ],
        ),
        (
            3,
            [
                0x00000000, 0x78787878, 0x00000000, 0xffffffff, 0xffffffff, 0x00000000, 0xffffffff,
                0x00000000, 0xffffffff, 0x2c2c2c2c, 0x00000000, 0x00000000, 0x00000000, 0x00000000,
                0x00000000, 0x00000000,
            ],
        ),
        (
            4,
            [
                0x11223300, 0x11223378, 0x11223300, 0x112233ff, 0x112233ff, 0x11223300, 0x112233ff,
                0x11223300, 0x112233ff, 0x1122332c, 0x11223300, 0x11223300, 0x11223300, 0x11223300,
                0x11223300, 0x11223300,
            ],
        ),
        (
            5,
            [
                0x11220044, 0x11227844, 0x11220044, 0x1122ff44, 0x1122ff44, 0x11220044, 0x1122ff44,
                0x11220044, 0x1122ff44, 0x11222c44, 0x11220044, 0x11220044, 0x11220044, 0x11220044,
                0x11220044, 0x11220044,
            ],
        ),
        (
            6,
            [
                0x11003344, 0x11783344, 0x11003344, 0x11ff3344, 0x11ff3344, 0x11003344, 0x11ff3344,
                0x11003344, 0x11ff3344, 0x112c3344, 0x11003344, 0x11003344, 0x11003344, 0x11003344,
                0x11003344, 0x11003344,
            ],
        ),
        (
            7,
            [
                0x00223344, 0x78223344, 0x00223344, 0xff223344, 0xff223344, 0x00223344, 0xff223344,
                0x00223344, 0xff223344, 0x2c223344, 0x00223344, 0x00223344, 0x00223344, 0x00223344,
                0x00223344, 0x00223344,
            ],
        ),
        (
            9,
            [
                0x11220000, 0x11227fff, 0x11227fff, 0x11228000, 0x11227fff, 0x11228000, 0x112200ff,
                0x11220100, 0x1122ffff, 0x1122012c, 0x11220000, 0x11220000, 0x11220000, 0x11220000,
                0x11220000, 0x11220000,
            ],
        ),
        (
            10,
            [
                0x00003344, 0x7fff3344, 0x7fff3344, 0x80003344, 0x7fff3344, 0x80003344, 0x00ff3344,
                0x01003344, 0xffff3344, 0x012c3344, 0x00003344, 0x00003344, 0x00003344, 0x00003344,
                0x00003344, 0x00003344,
            ],
        ),
        (
            11,
            [
                0x00000000, 0xffffffff, 0xffffffff, 0x00000000, 0xffffffff, 0x00000000, 0xffffffff,
                0xffffffff, 0x00000000, 0xffffffff, 0x00000000, 0x00000000, 0x00000000, 0x00000000,
                0x00000000, 0x00000000,
            ],
        ),
        (
            12,
            [
                0x11223300, 0x112233ff, 0x112233ff, 0x11223300, 0x112233ff, 0x11223300, 0x112233ff,
                0x112233ff, 0x11223300, 0x112233ff, 0x11223300, 0x11223300, 0x11223300, 0x11223300,
                0x11223300, 0x11223300,
            ],
        ),
        (
            13,
            [
                0x11220044, 0x1122ff44, 0x1122ff44, 0x11220044, 0x1122ff44, 0x11220044, 0x1122ff44,
                0x1122ff44, 0x11220044, 0x1122ff44, 0x11220044, 0x11220044, 0x11220044, 0x11220044,
                0x11220044, 0x11220044,
            ],
        ),
        (
            14,
            [
                0x11003344, 0x11ff3344, 0x11ff3344, 0x11003344, 0x11ff3344, 0x11003344, 0x11ff3344,
                0x11ff3344, 0x11003344, 0x11ff3344, 0x11003344, 0x11003344, 0x11003344, 0x11003344,
                0x11003344, 0x11003344,
            ],
        ),
        (
            15,
            [
                0x00223344, 0xff223344, 0xff223344, 0x00223344, 0xff223344, 0x00223344, 0xff223344,
                0xff223344, 0x00223344, 0xff223344, 0x00223344, 0x00223344, 0x00223344, 0x00223344,
                0x00223344, 0x00223344,
            ],
        ),
    ];
    for (mode, expected) in table {
        if mode < 16 && mode != 8 {
            assert!(rt; pack_into(mode, &OLD, &VALUES).v == expected, "pack {mode}");
        }
    }
}

/// What is unpacked.
const PACKED: Lanes = Lanes {
    v: [
        0x12345678, 0x8091a2b3, 0x7fff8000, 0x00ff00ff, 0x12345678, 0x8091a2b3, 0x7fff8000,
        0x00ff00ff, 0x12345678, 0x8091a2b3, 0x7fff8000, 0x00ff00ff, 0x12345678, 0x8091a2b3,
        0x7fff8000, 0x00ff00ff,
    ],
};

/// Expected values come from an independent program.
#[test]
fn each_unpack_mode_gives_the_tables_part(rt: HostRuntime) {
    let table: [(u32, [u32; LANES]); 8] = [
        (
            0,
            [
                0x12345678, 0x8091a2b3, 0x7fff8000, 0x00ff00ff, 0x12345678, 0x8091a2b3, 0x7fff8000,
                0x00ff00ff, 0x12345678, 0x8091a2b3, 0x7fff8000, 0x00ff00ff, 0x12345678, 0x8091a2b3,
                0x7fff8000, 0x00ff00ff,
            ],
        ),
        (
            1,
            [
                0x00005678, 0xffffa2b3, 0xffff8000, 0x000000ff, 0x00005678, 0xffffa2b3, 0xffff8000,
                0x000000ff, 0x00005678, 0xffffa2b3, 0xffff8000, 0x000000ff, 0x00005678, 0xffffa2b3,
                0xffff8000, 0x000000ff,
            ],
        ),
        (
            2,
            [
                0x00001234, 0xffff8091, 0x00007fff, 0x000000ff, 0x00001234, 0xffff8091, 0x00007fff,
                0x000000ff, 0x00001234, 0xffff8091, 0x00007fff, 0x000000ff, 0x00001234, 0xffff8091,
                0x00007fff, 0x000000ff,
            ],
        ),
        (
            3,
            [
                0x12121212, 0x80808080, 0x7f7f7f7f, 0x00000000, 0x12121212, 0x80808080, 0x7f7f7f7f,
                0x00000000, 0x12121212, 0x80808080, 0x7f7f7f7f, 0x00000000, 0x12121212, 0x80808080,
                0x7f7f7f7f, 0x00000000,
            ],
        ),
        (
            4,
            [
                0x00000078, 0x000000b3, 0x00000000, 0x000000ff, 0x00000078, 0x000000b3, 0x00000000,
                0x000000ff, 0x00000078, 0x000000b3, 0x00000000, 0x000000ff, 0x00000078, 0x000000b3,
                0x00000000, 0x000000ff,
            ],
        ),
        (
            5,
            [
                0x00000056, 0x000000a2, 0x00000080, 0x00000000, 0x00000056, 0x000000a2, 0x00000080,
                0x00000000, 0x00000056, 0x000000a2, 0x00000080, 0x00000000, 0x00000056, 0x000000a2,
                0x00000080, 0x00000000,
            ],
        ),
        (
            6,
            [
                0x00000034, 0x00000091, 0x000000ff, 0x000000ff, 0x00000034, 0x00000091, 0x000000ff,
                0x000000ff, 0x00000034, 0x00000091, 0x000000ff, 0x000000ff, 0x00000034, 0x00000091,
                0x000000ff, 0x000000ff,
            ],
        ),
        (
            7,
            [
                0x00000012, 0x00000080, 0x0000007f, 0x00000000, 0x00000012, 0x00000080, 0x0000007f,
                0x00000000, 0x00000012, 0x00000080, 0x0000007f, 0x00000000, 0x00000012, 0x00000080,
                0x0000007f, 0x00000000,
            ],
        ),
    ];
    for (mode, expected) in table {
        if mode < 8 {
            assert!(rt; unpack(mode, &PACKED).v == expected, "unpack {mode}");
        }
    }
}

/// Lane i has i.
const NUMBERS: Lanes = Lanes {
    v: [0, 1, 2, 3, 4, 5, 6, 7, 8, 9, 10, 11, 12, 13, 14, 15],
};

#[test]
fn a_rotation_sends_lane_i_to_lane_i_and_n(rt: HostRuntime) {
    let table: [(u32, [u32; LANES]); 3] = [
        (0, [0, 1, 2, 3, 4, 5, 6, 7, 8, 9, 10, 11, 12, 13, 14, 15]),
        (1, [15, 0, 1, 2, 3, 4, 5, 6, 7, 8, 9, 10, 11, 12, 13, 14]),
        (15, [1, 2, 3, 4, 5, 6, 7, 8, 9, 10, 11, 12, 13, 14, 15, 0]),
    ];
    for (n, expected) in table {
        if n < 16 {
            assert!(rt; rotate(&NUMBERS, n).v == expected, "by {n}");
        }
    }
}

/// The value of each code: 0 to 15, -16 to -1, 1.0 to 128.0, 1/256 to 1/2.
const IMMEDIATES: [u32; 48] = [
    0x00000000, 0x00000001, 0x00000002, 0x00000003, 0x00000004, 0x00000005, 0x00000006, 0x00000007,
    0x00000008, 0x00000009, 0x0000000a, 0x0000000b, 0x0000000c, 0x0000000d, 0x0000000e, 0x0000000f,
    0xfffffff0, 0xfffffff1, 0xfffffff2, 0xfffffff3, 0xfffffff4, 0xfffffff5, 0xfffffff6, 0xfffffff7,
    0xfffffff8, 0xfffffff9, 0xfffffffa, 0xfffffffb, 0xfffffffc, 0xfffffffd, 0xfffffffe, 0xffffffff,
    0x3f800000, 0x40000000, 0x40800000, 0x41000000, 0x41800000, 0x42000000, 0x42800000, 0x43000000,
    0x3b800000, 0x3c000000, 0x3c800000, 0x3d000000, 0x3d800000, 0x3e000000, 0x3e800000, 0x3f000000,
];

#[test]
fn each_small_immediate_has_its_code(rt: HostRuntime) {
    for code in 0..48u32 {
        let value = IMMEDIATES[code as usize];
        assert!(rt; immediate_of(code) == value, "code {code}");
        assert!(rt; small_code(value) == Some(code), "value {value}");
    }
    for value in [
        16,
        0xffff_ffef,
        0x3f80_0001,
        0x4380_0000,
        0x3b00_0000,
        0x8000_0000,
    ] {
        assert!(rt; small_code(value) == None, "value {value}");
    }
}
