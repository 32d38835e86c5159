ghost use Rattle.std.specs.Prelude.{◌<◌};

use crate::{Direction, Pair, Transfer};
use qpu_bytes::Size;
use std::test::Fail;

/// Which loads may start: the setup, the extended pitch, the address, the words of memory.
#[test]
fn loads_start_where_all_places_are_there(rt: HostRuntime) {
    let table: [(u32, u32, u32, u32, bool); 9] = [
        (0x8001_1000, 0, 0, 16, true),
        (0x8001_1000, 0, 0, 15, false),
        (0x8001_1000, 0, 4, 16, false),
        (0x8001_1001, 0, 0, 16, false),
        (0x8001_13f0, 0, 0, 16, true),
        (0x8001_1400, 0, 0, 16, false),
        (0x8232_d874, 0, 0, 1024, false),
        (0x8011_1000, 0, 0xffff_fffc, 1_048_576, false),
        (0x8012_1000, 0xffff_fffc, 4, 1_048_576, false),
    ];
    for (setup, pitch, address, words, may) in table {
        let load = Transfer::of(Direction::Load, setup, pitch, address, words);
        assert!(rt; load.is_ok() == may, "{setup} {pitch} {address} {words}");
    }
}

/// The same of addresses and pitches that are no multiples of four bytes.
#[test]
fn loads_start_at_words(rt: HostRuntime) {
    let table: [(u32, u32, u32, u32, bool); 5] = [
        (0x8011_1000, 6, 0, 1024, true),
        (0x8012_1000, 6, 0, 1024, false),
        (0x8012_1000, 8, 0, 3, true),
        (0x8012_1000, 8, 0, 2, false),
        (0x8011_1000, 0, 2, 1024, false),
    ];
    for (setup, pitch, address, words, may) in table {
        let load = Transfer::of(Direction::Load, setup, pitch, address, words);
        assert!(rt; load.is_ok() == may, "{setup} {pitch} {address} {words}");
    }
}

/// The same of elements of 16 and 8 bits, and of multiples of their size.
#[test]
fn loads_start_at_halves_and_bytes(rt: HostRuntime) {
    let table: [(u32, u32, u32, u32, bool); 6] = [
        (0xa012_1000, 6, 2, 1024, true),
        (0xa012_1000, 7, 2, 1024, false),
        (0xa011_1000, 7, 3, 1024, false),
        (0xc012_1000, 7, 3, 1024, true),
        (0xb032_4052, 10, 6, 6, true),
        (0xb032_4052, 10, 6, 5, false),
    ];
    for (setup, pitch, address, words, may) in table {
        let load = Transfer::of(Direction::Load, setup, pitch, address, words);
        assert!(rt; load.is_ok() == may, "{setup} {pitch} {address} {words}");
    }
}

/// Which stores may start: the setup, the stride, the address, the words of memory.
#[test]
fn stores_start_where_all_places_are_there(rt: HostRuntime) {
    let table: [(u32, u32, u32, u32, bool); 9] = [
        (0x8010_4000, 0, 0, 1024, false),
        (0xa010_4000, 0, 0, 1024, true),
        (0xa010_4000, 0, 0, 1023, false),
        (0xa010_4000, 4, 0, 1024, false),
        (0x8103_4290, 8, 0, 8, true),
        (0x8103_4290, 8, 0, 7, false),
        (0x8103_4290, 6, 0, 1024, false),
        (0x8083_4290, 6, 0, 1024, true),
        (0x8083_4290, 0, 1, 1024, false),
    ];
    for (setup, stride, address, words, may) in table {
        let store = Transfer::of(Direction::Store, setup, stride, address, words);
        assert!(rt; store.is_ok() == may, "{setup} {stride} {address} {words}");
    }
}

/// The same of elements of 16 and 8 bits.
#[test]
fn stores_start_at_halves_and_bytes(rt: HostRuntime) {
    let table: [(u32, u32, u32, u32, bool); 9] = [
        (0x8101_4002, 6, 2, 1024, true),
        (0x8101_4002, 7, 2, 1024, false),
        (0x8081_4002, 7, 2, 1024, true),
        (0x8081_4002, 0, 1, 1024, false),
        (0x8101_4004, 7, 3, 1024, true),
        (0x8103_c293, 2, 4, 5, true),
        (0x8103_c293, 2, 4, 4, false),
        (0x8083_4173, 0, 0, 1024, true),
        (0x8084_4173, 0, 0, 1024, false),
    ];
    for (setup, stride, address, words, may) in table {
        let store = Transfer::of(Direction::Store, setup, stride, address, words);
        assert!(rt; store.is_ok() == may, "{setup} {stride} {address} {words}");
    }
}

/// Whether element j of row k of a transfer is as said: its byte address in memory, and its row,
/// column and byte in the VPM. A row or element that isn't there is not.
fn stands(transfer: &Transfer, place: (u32, u32), said: Pair) -> bool {
    let (k, j) = place;
    k < transfer.rows() && j < transfer.length() && transfer.pair(k, j) == said
}

/// The pair of a byte address and a row, a column and a byte of the VPM.
fn pair(at: u32, row: u32, column: u32, byte: u32, size: Size) -> Pair
    requires row { row < 64 }
    requires column { column < 16 }
    requires byte { byte < 4 }
{
    Pair {
        at,
        place: 64 * row + 4 * column + byte,
        size,
    }
}

#[test]
fn a_load_pairs_addresses_with_rows_or_columns(rt: HostRuntime) -> Result<(), Fail> {
    let Ok(level) = Transfer::of(Direction::Load, 0x8001_1000, 0, 0, 1024) else {
        return Err(Fail::from("the row doesn't fit"));
    };
    assert!(rt; level.rows() == 1);
    assert!(rt; level.length() == 16);
    assert!(rt; stands(&level, (0, 0), pair(0, 0, 0, 0, Size::Word)));
    assert!(rt; stands(&level, (0, 15), pair(60, 0, 15, 0, Size::Word)));
    let Ok(upright) = Transfer::of(Direction::Load, 0x8232_5874, 0, 0x40, 1024) else {
        return Err(Fail::from("the columns don't fit"));
    };
    assert!(rt; upright.rows() == 2);
    assert!(rt; upright.length() == 3);
    assert!(rt; stands(&upright, (0, 0), pair(64, 7, 4, 0, Size::Word)));
    assert!(rt; stands(&upright, (0, 2), pair(72, 9, 4, 0, Size::Word)));
    assert!(rt; stands(&upright, (1, 0), pair(96, 7, 9, 0, Size::Word)));
    assert!(rt; stands(&upright, (1, 2), pair(104, 9, 9, 0, Size::Word)));
    Ok(())
}

#[test]
fn a_store_pairs_rows_or_columns_with_addresses(rt: HostRuntime) -> Result<(), Fail> {
    let Ok(level) = Transfer::of(Direction::Store, 0x8103_4290, 8, 0, 1024) else {
        return Err(Fail::from("the rows don't fit"));
    };
    assert!(rt; level.rows() == 2);
    assert!(rt; level.length() == 3);
    assert!(rt; stands(&level, (0, 2), pair(8, 5, 4, 0, Size::Word)));
    assert!(rt; stands(&level, (1, 0), pair(20, 6, 2, 0, Size::Word)));
    let Ok(upright) = Transfer::of(Direction::Store, 0x8103_0290, 8, 0, 1024) else {
        return Err(Fail::from("the columns don't fit"));
    };
    assert!(rt; upright.rows() == 2);
    assert!(rt; upright.length() == 3);
    assert!(rt; stands(&upright, (0, 2), pair(8, 7, 2, 0, Size::Word)));
    assert!(rt; stands(&upright, (1, 0), pair(20, 5, 3, 0, Size::Word)));
    Ok(())
}

/// A load's elements of 16 and 8 bits lie in a word each, from the part that the width says.
#[test]
fn a_load_places_halves_and_bytes_in_words_of_their_own(rt: HostRuntime) -> Result<(), Fail> {
    let Ok(level) = Transfer::of(Direction::Load, 0xb032_4052, 10, 6, 1024) else {
        return Err(Fail::from("the rows don't fit"));
    };
    assert!(rt; stands(&level, (0, 0), pair(6, 5, 2, 2, Size::Half)));
    assert!(rt; stands(&level, (0, 2), pair(10, 5, 4, 2, Size::Half)));
    assert!(rt; stands(&level, (1, 0), pair(16, 9, 2, 2, Size::Half)));
    assert!(rt; stands(&level, (1, 2), pair(20, 9, 4, 2, Size::Half)));
    let Ok(upright) = Transfer::of(Direction::Load, 0xe142_3bc1, 0, 7, 1024) else {
        return Err(Fail::from("the columns don't fit"));
    };
    assert!(rt; stands(&upright, (0, 0), pair(7, 60, 1, 2, Size::Byte)));
    assert!(rt; stands(&upright, (0, 3), pair(10, 63, 1, 2, Size::Byte)));
    assert!(rt; stands(&upright, (1, 0), pair(23, 60, 4, 2, Size::Byte)));
    assert!(rt; stands(&upright, (1, 3), pair(26, 63, 4, 2, Size::Byte)));
    Ok(())
}

/// A store takes them so where it is laned, and else packed along the row.
#[test]
fn a_store_takes_halves_and_bytes_along_a_row(rt: HostRuntime) -> Result<(), Fail> {
    let Ok(bytes) = Transfer::of(Direction::Store, 0x8090_4024, 0, 1, 8) else {
        return Err(Fail::from("the bytes don't fit"));
    };
    assert!(rt; bytes.rows() == 1);
    assert!(rt; bytes.length() == 16);
    assert!(rt; stands(&bytes, (0, 0), pair(1, 0, 4, 0, Size::Byte)));
    assert!(rt; stands(&bytes, (0, 15), pair(16, 0, 7, 3, Size::Byte)));
    let Ok(laned) = Transfer::of(Direction::Store, 0x8103_c293, 2, 4, 1024) else {
        return Err(Fail::from("the laned rows don't fit"));
    };
    assert!(rt; stands(&laned, (0, 0), pair(4, 5, 2, 2, Size::Half)));
    assert!(rt; stands(&laned, (1, 2), pair(16, 6, 4, 2, Size::Half)));
    let Ok(packed) = Transfer::of(Direction::Store, 0x8083_4173, 0, 0, 1024) else {
        return Err(Fail::from("the packed row doesn't fit"));
    };
    assert!(rt; stands(&packed, (0, 0), pair(0, 2, 14, 2, Size::Half)));
    assert!(rt; stands(&packed, (0, 1), pair(2, 2, 15, 0, Size::Half)));
    assert!(rt; stands(&packed, (0, 2), pair(4, 2, 15, 2, Size::Half)));
    Ok(())
}

/// The same along a column: four bytes of a word, and then the next row.
#[test]
fn a_store_takes_bytes_along_a_column(rt: HostRuntime) -> Result<(), Fail> {
    let Ok(packed) = Transfer::of(Direction::Store, 0x8107_081d, 1, 3, 1024) else {
        return Err(Fail::from("the columns don't fit"));
    };
    assert!(rt; stands(&packed, (0, 0), pair(3, 16, 3, 1, Size::Byte)));
    assert!(rt; stands(&packed, (0, 2), pair(5, 16, 3, 3, Size::Byte)));
    assert!(rt; stands(&packed, (0, 3), pair(6, 17, 3, 0, Size::Byte)));
    assert!(rt; stands(&packed, (0, 6), pair(9, 17, 3, 3, Size::Byte)));
    assert!(rt; stands(&packed, (1, 0), pair(11, 16, 4, 1, Size::Byte)));
    let Ok(long) = Transfer::of(Direction::Store, 0x8080_0004, 0, 0, 1024) else {
        return Err(Fail::from("the long column doesn't fit"));
    };
    assert!(rt; long.length() == 128);
    assert!(rt; stands(&long, (0, 127), pair(127, 31, 0, 3, Size::Byte)));
    Ok(())
}

#[test]
fn a_row_is_moved_at_a_time(rt: HostRuntime) -> Result<(), Fail> {
    let Ok(load) = Transfer::of(Direction::Load, 0x8012_1000, 4, 0, 1024) else {
        return Err(Fail::from("the rows don't fit"));
    };
    assert!(rt; load.moved() == 0);
    let Some(rest) = load.next() else {
        return Err(Fail::from("there is no second row"));
    };
    assert!(rt; rest.moved() == 1);
    assert!(rt; rest.next().is_none());
    Ok(())
}
