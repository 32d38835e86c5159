use crate::Memory;
use qpu_bytes::Size;
use std::test::Fail;

/// The element at a byte address that is a multiple of the size.
fn part_at(memory: &Memory, at: u32, size: Size) -> Option<u32> {
    if at % size.bytes() == 0 {
        memory.part(at, size)
    } else {
        None
    }
}

/// Whether the element at a byte address, a multiple of the size, was set.
fn set_at(memory: &mut Memory, at: u32, size: Size, value: u32) -> bool {
    at % size.bytes() == 0 && memory.set_part(at, size, value)
}

#[test]
fn a_memory_begins_clear_and_is_copied(rt: HostRuntime) -> Result<(), Fail> {
    let alloc = rt.alloc();
    let Ok(mut memory) = Memory::new(alloc, 3) else {
        return Err(Fail::from("want of memory"));
    };
    assert!(rt; memory.set(1, 7));
    assert!(rt; !memory.set(3, 9));
    let Ok(copy) = memory.copy(alloc) else {
        return Err(Fail::from("want of memory"));
    };
    assert!(rt; memory.set(1, 8));
    for (at, word) in [(0, Some(0)), (1, Some(7)), (2, Some(0)), (3, None)] {
        assert!(rt; copy.word(at) == word, "word {at}");
    }
    assert!(rt; copy.len() == 3);
    Ok(())
}

#[test]
fn a_memory_of_4097_words_ends_with_its_last_word(rt: HostRuntime) -> Result<(), Fail> {
    let Ok(mut memory) = Memory::new(rt.alloc(), 4_097) else {
        return Err(Fail::from("want of memory"));
    };
    assert!(rt; memory.set(4_096, 5));
    assert!(rt; !memory.set(4_097, 1));
    for (at, word) in [(4_095, Some(0)), (4_096, Some(5)), (4_097, None)] {
        assert!(rt; memory.word(at) == word, "word {at}");
    }
    Ok(())
}

/// Byte addresses, sizes, and what is read there.
#[test]
fn elements_are_read_at_byte_addresses(rt: HostRuntime) -> Result<(), Fail> {
    let Ok(mut memory) = Memory::new(rt.alloc(), 3) else {
        return Err(Fail::from("want of memory"));
    };
    for (at, word) in [(0, 0x0302_0100), (1, 0xf706_f504), (2, 0x0b0a_0908)] {
        assert!(rt; memory.set(at, word));
    }
    let inside: [(u32, Size, u32); 8] = [
        (0, Size::Byte, 0x00),
        (3, Size::Byte, 0x03),
        (5, Size::Byte, 0xf5),
        (11, Size::Byte, 0x0b),
        (2, Size::Half, 0x0302),
        (4, Size::Half, 0xf504),
        (6, Size::Half, 0xf706),
        (4, Size::Word, 0xf706_f504),
    ];
    for (at, size, value) in inside {
        assert!(rt; part_at(&memory, at, size) == Some(value), "byte {at}");
    }
    let outside: [(u32, Size); 5] = [
        (12, Size::Byte),
        (12, Size::Half),
        (12, Size::Word),
        (0xffff_fffc, Size::Word),
        (0xffff_ffff, Size::Byte),
    ];
    for (at, size) in outside {
        assert!(rt; part_at(&memory, at, size) == None, "byte {at}");
        assert!(rt; !set_at(&mut memory, at, size, 1), "byte {at}");
    }
    Ok(())
}

/// Elements set one after another in words of ones, and the words after each.
#[test]
fn elements_are_set_and_other_bytes_stay(rt: HostRuntime) -> Result<(), Fail> {
    let Ok(mut memory) = Memory::new(rt.alloc(), 2) else {
        return Err(Fail::from("want of memory"));
    };
    assert!(rt; memory.set(0, 0xffff_ffff));
    assert!(rt; memory.set(1, 0xffff_ffff));
    let table: [(u32, Size, u32, u32, u32); 6] = [
        (1, Size::Byte, 0x1234_5678, 0xffff_78ff, 0xffff_ffff),
        (4, Size::Byte, 0x1234_5601, 0xffff_78ff, 0xffff_ff01),
        (2, Size::Half, 0x1234_5678, 0x5678_78ff, 0xffff_ff01),
        (0, Size::Half, 0xabcd_0000, 0x5678_0000, 0xffff_ff01),
        (4, Size::Word, 0x1234_5678, 0x5678_0000, 0x1234_5678),
        (7, Size::Byte, 0xffff_ff00, 0x5678_0000, 0x0034_5678),
    ];
    for (at, size, value, first, second) in table {
        assert!(rt; set_at(&mut memory, at, size, value), "byte {at}");
        assert!(rt; memory.word(0) == Some(first), "word 0 after byte {at}");
        assert!(rt; memory.word(1) == Some(second), "word 1 after byte {at}");
    }
    Ok(())
}
