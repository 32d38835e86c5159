use crate::{Size, part_of, with_part_of};

/// A word whose bytes differ.
const WORD: u32 = 0xf706_f504;

#[test]
fn elements_of_a_word_are_read(rt: HostRuntime) {
    assert!(rt; part_of(WORD, 0, Size::Byte) == 0x04);
    assert!(rt; part_of(WORD, 1, Size::Byte) == 0xf5);
    assert!(rt; part_of(WORD, 2, Size::Byte) == 0x06);
    assert!(rt; part_of(WORD, 3, Size::Byte) == 0xf7);
    assert!(rt; part_of(WORD, 0, Size::Half) == 0xf504);
    assert!(rt; part_of(WORD, 2, Size::Half) == 0xf706);
    assert!(rt; part_of(WORD, 0, Size::Word) == WORD);
}

#[test]
fn elements_of_a_word_are_replaced(rt: HostRuntime) {
    let value = 0x1122_3344;
    assert!(rt; with_part_of(WORD, 0, Size::Byte, value) == 0xf706_f544);
    assert!(rt; with_part_of(WORD, 1, Size::Byte, value) == 0xf706_4404);
    assert!(rt; with_part_of(WORD, 2, Size::Byte, value) == 0xf744_f504);
    assert!(rt; with_part_of(WORD, 3, Size::Byte, value) == 0x4406_f504);
    assert!(rt; with_part_of(WORD, 0, Size::Half, value) == 0xf706_3344);
    assert!(rt; with_part_of(WORD, 2, Size::Half, value) == 0x3344_f504);
    assert!(rt; with_part_of(WORD, 0, Size::Word, value) == value);
}

#[test]
fn words_hold_whole_elements(rt: HostRuntime) {
    for size in [Size::Byte, Size::Half, Size::Word] {
        assert!(rt; size.bytes() * size.in_word() == 4);
    }
    assert!(rt; Size::Half.bytes() == 2);
}
