use crate::{VectorSetup, Vpm};
use qpu_bytes::Size;
use qpu_word::{LANES, Lanes};

/// The number of each lane in the lane.
const NUMBERS: Lanes = Lanes {
    v: [0, 1, 2, 3, 4, 5, 6, 7, 8, 9, 10, 11, 12, 13, 14, 15],
};

/// A VPM whose word in row r and column c is 100 r + c.
fn counted_vpm() -> Vpm {
    let mut vpm = Vpm::new();
    for row in 0..64 {
        for column in 0..16 {
            vpm.set(row, column, 100 * row + column);
        }
    }
    vpm
}

#[test]
fn a_column_is_written_and_a_row_of_it_is_read(rt: HostRuntime) {
    let mut vpm = Vpm::new();
    vpm.put_vector(VectorSetup::of(0x0000_023f), 0, &NUMBERS);
    for row in 0..64 {
        for column in 0..16 {
            let wanted = if column == 15 && row >= 48 {
                row - 48
            } else {
                0
            };
            assert!(rt;
                vpm.word(row, column) == wanted,
                "row {row} column {column}"
            );
        }
    }
    let read = vpm.vector(VectorSetup::of(0x0010_0a3f), 0);
    for i in 0..LANES {
        assert!(rt; read.v[i] == if i == 15 { 15 } else { 0 }, "lane {i}");
    }
}

#[test]
fn setups_have_their_fields(rt: HostRuntime) {
    let table: [(u32, bool, bool, Size, u32, u32, u32); 6] = [
        (0x0000_1a00, true, false, Size::Word, 1, 0, 16),
        (0x0000_0a3f, true, false, Size::Word, 64, 63, 16),
        (0x0010_0e3f, true, true, Size::Word, 64, 63, 1),
        (0x00f3_f0c0, false, false, Size::Byte, 63, 192, 15),
        (0x3f0c_2d7f, true, true, Size::Half, 2, 127, 16),
        (0x0000_1449, false, true, Size::Byte, 1, 73, 16),
    ];
    for (value, horizontal, laned, size, stride, at, count) in table {
        let setup = VectorSetup::of(value);
        assert!(rt; setup.horizontal == horizontal, "{value}");
        assert!(rt; setup.laned == laned, "{value}");
        assert!(rt; setup.size == size, "{value}");
        assert!(rt; setup.stride == stride, "{value}");
        assert!(rt; setup.at == at, "{value}");
        assert!(rt; setup.count == count, "{value}");
    }
}

/// The setup, the access, and what its first and last lane read.
#[test]
fn places_step_by_the_stride_and_wrap(rt: HostRuntime) {
    let vpm = counted_vpm();
    let table: [(u32, u32, u32, u32); 9] = [
        (0x0000_1a00, 0, 0, 15),
        (0x0000_1a00, 15, 1500, 1515),
        (0x0000_3a3e, 1, 100, 115),
        (0x0000_0a3f, 7, 6300, 6315),
        (0x0000_2207, 0, 7, 1507),
        (0x0000_2207, 5, 1601, 3101),
        (0x0000_223f, 1, 1, 1501),
        (0x0000_1aff, 0, 6300, 6315),
        (0x0003_fa01, 0xffff_ffff, 200, 215),
    ];
    for (setup, k, first, last) in table {
        let read = vpm.vector(VectorSetup::of(setup), k);
        assert!(rt; read.v[0] == first, "{setup} {k} first");
        assert!(rt; read.v[15] == last, "{setup} {k} last");
    }
}

/// A word in each lane whose bytes differ, and in the low byte of which the lane's number stands.
const MARKS: Lanes = Lanes {
    v: [
        0x0504_0310,
        0x0504_0311,
        0x0504_0312,
        0x0504_0313,
        0x0504_0314,
        0x0504_0315,
        0x0504_0316,
        0x0504_0317,
        0x0504_0318,
        0x0504_0319,
        0x0504_031a,
        0x0504_031b,
        0x0504_031c,
        0x0504_031d,
        0x0504_031e,
        0x0504_031f,
    ],
};

/// The word in a row and a column; 0 outside the VPM.
fn word_at(vpm: &Vpm, row: u32, column: u32) -> u32 {
    if row < 64 && column < 16 {
        vpm.word(row, column)
    } else {
        0
    }
}

/// How many words of the VPM aren't 0.
fn filled_words(vpm: &Vpm) -> u32 {
    let mut count = 0;
    for row in 0..64 {
        for column in 0..16 {
            if vpm.word(row, column) != 0 && count < 1_024 {
                count += 1;
            }
        }
    }
    count
}

/// The row and column of the first and of the last word that an access of a setup writes, these
/// words, how many words it writes, and the bits of a lane that are kept. Row 1 is written along, and
/// column 2 of rows 16 to 31 down, where elements have parts in part 1 or 2.
#[test]
fn each_shape_has_its_bytes(rt: HostRuntime) {
    let table: [(u32, u32, u32, u32, u32, u32, u32, u32, u32); 10] = [
        (0x1805, 1, 4, 0x1312_1110, 1, 7, 0x1f1e_1d1c, 4, 0xff),
        (0x1c06, 1, 0, 0x0010_0000, 1, 15, 0x001f_0000, 16, 0xff),
        (0x1903, 1, 8, 0x0311_0310, 1, 15, 0x031f_031e, 8, 0xffff),
        (0x1d03, 1, 0, 0x0310_0000, 1, 15, 0x031f_0000, 16, 0xffff),
        (
            0x1a01,
            1,
            0,
            0x0504_0310,
            1,
            15,
            0x0504_031f,
            16,
            0xffff_ffff,
        ),
        (0x1049, 20, 2, 0x1312_1110, 23, 2, 0x1f1e_1d1c, 4, 0xff),
        (0x1449, 16, 2, 0x0000_1000, 31, 2, 0x0000_1f00, 16, 0xff),
        (0x1125, 24, 2, 0x0311_0310, 31, 2, 0x031f_031e, 8, 0xffff),
        (0x1525, 16, 2, 0x0310_0000, 31, 2, 0x031f_0000, 16, 0xffff),
        (
            0x1612,
            16,
            2,
            0x0504_0310,
            31,
            2,
            0x0504_031f,
            16,
            0xffff_ffff,
        ),
    ];
    for (value, row, column, first, last_row, last_column, last, words, kept) in table {
        let setup = VectorSetup::of(value);
        let mut vpm = Vpm::new();
        vpm.put_vector(setup, 0, &MARKS);
        assert!(rt; word_at(&vpm, row, column) == first, "{value} first");
        assert!(rt;
            word_at(&vpm, last_row, last_column) == last,
            "{value} last"
        );
        assert!(rt; filled_words(&vpm) == words, "{value} words");
        let read = vpm.vector(setup, 0);
        for i in 0..LANES {
            assert!(rt; read.v[i] == MARKS.v[i] & kept, "{value} lane {i}");
        }
    }
}

#[test]
fn bytes_are_written_in_a_row_and_read_in_lanes(rt: HostRuntime) {
    let mut vpm = Vpm::new();
    vpm.put_vector(VectorSetup::of(0x0000_1801), 0, &NUMBERS);
    assert!(rt; vpm.word(0, 4) == 0x0302_0100);
    assert!(rt; vpm.word(0, 5) == 0x0706_0504);
    assert!(rt; vpm.word(0, 6) == 0x0b0a_0908);
    assert!(rt; vpm.word(0, 7) == 0x0f0e_0d0c);
    assert!(rt; filled_words(&vpm) == 4);
    let read = vpm.vector(VectorSetup::of(0x0010_1c00), 0);
    for i in 0..LANES {
        let wanted = match i {
            5 => 4,
            6 => 8,
            7 => 12,
            _ => 0,
        };
        assert!(rt; read.v[i] == wanted, "lane {i}");
    }
}

#[test]
fn sixty_five_packed_writes_fill_sixteen_rows_and_four_words(rt: HostRuntime) {
    let mut vpm = Vpm::new();
    for k in 0..65 {
        vpm.put_vector(VectorSetup::of(0x0000_1800), k, &NUMBERS);
    }
    for row in 0..64 {
        for column in 0..16 {
            let wanted = if row > 16 || row == 16 && column > 3 {
                0
            } else {
                match column % 4 {
                    0 => 0x0302_0100,
                    1 => 0x0706_0504,
                    2 => 0x0b0a_0908,
                    _ => 0x0f0e_0d0c,
                }
            };
            assert!(rt;
                vpm.word(row, column) == wanted,
                "row {row} column {column}"
            );
        }
    }
}

/// The last places of bytes and of halves, and the places behind them.
#[test]
fn places_of_small_elements_wrap(rt: HostRuntime) {
    let table: [(u32, u32, u32, u32, u32); 4] = [
        (0x18ff, 0, 63, 12, 0x1312_1110),
        (0x18ff, 1, 0, 0, 0x1312_1110),
        (0x19ff, 0, 63, 8, 0x0311_0310),
        (0x19ff, 1, 0, 0, 0x0311_0310),
    ];
    for (value, k, row, column, word) in table {
        let mut vpm = Vpm::new();
        vpm.put_vector(VectorSetup::of(value), k, &MARKS);
        assert!(rt; word_at(&vpm, row, column) == word, "{value} {k}");
    }
}

#[test]
fn elements_are_set_at_byte_places(rt: HostRuntime) {
    let mut vpm = Vpm::new();
    vpm.set(63, 15, 0xffff_ffff);
    vpm.set_part(4_095, Size::Byte, 0x1234);
    assert!(rt; vpm.word(63, 15) == 0x34ff_ffff);
    vpm.set_part(4_092, Size::Half, 0x0001_0002);
    assert!(rt; vpm.word(63, 15) == 0x34ff_0002);
    assert!(rt; vpm.part(4_094, Size::Half) == 0x34ff);
    assert!(rt; vpm.part(4_095, Size::Byte) == 0x34);
    assert!(rt; vpm.part(4_092, Size::Word) == 0x34ff_0002);
    vpm.set_part(0, Size::Word, 0x0506_0708);
    assert!(rt; vpm.word(0, 0) == 0x0506_0708);
    assert!(rt; vpm.part(1, Size::Byte) == 7);
}
