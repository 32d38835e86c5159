//! Words and their canonical words. The canonical ones come from the table of worked words, or were
//! made by hand, field by field; the others were made from them by changing a field.
use crate::Word;

/// The canonical word that does nothing.
const NOP: u64 = 0x100009e7009e7000;

#[test]
fn words_of_units_are_their_own(rt: HostRuntime) {
    for word in [
        NOP,
        0x300009e7009e7000,
        0xa00009e7009e7000,
        0x1002082715827d80,
        0x100208270c820dc0,
        0xd00208670c9c41c0,
        0xd00228e70d9c17c0,
        0x10020067159e7000,
        0x100208a715067d80,
        0x10020c27159e7480,
        0x100209e715ce7d80,
        0xd00049e1809f1000,
    ] {
        assert!(rt; Word(word).is_canonical(), "{word}");
        assert!(rt; Word(word).canonical_of() == Word(word), "{word}");
    }
}

#[test]
fn words_of_other_forms_are_their_own(rt: HostRuntime) {
    for word in [
        0xe002082712345678,
        0xe0021c6700001a00,
        0xf0f809e7ffffffe0,
        0xf03809e7ffffff90,
        0xe80009e700000003,
        0xe80009e700000013,
        // ws of 1 that chooses the file of a row, and a branch that adds row 5
        0x10021067159e7000,
        0xf0fca9e7ffffffe0,
    ] {
        assert!(rt; Word(word).is_canonical(), "{word}");
        assert!(rt; Word(word).canonical_of() == Word(word), "{word}");
    }
}

#[test]
fn what_an_idle_unit_says_is_dropped(rt: HostRuntime) {
    for (word, own) in [
        // a mux of the idle mul unit
        (0x100009e7009e7001, NOP),
        // an add unit with the condition never; its read of a uniform stands in the field
        (0x1000082715827d80, 0x100009e700827000),
        // a condition on a result that goes nowhere
        (0x100409e715ce7d80, 0x100209e715ce7d80),
        // a second operand of not
        (0x10020867179e7140, 0x10020867179e7000),
        // the unit that packs, where nothing is packed
        (0x110009e7009e7000, NOP),
        // flags that no unit sets
        (0x100029e7009e7000, NOP),
    ] {
        assert!(rt; !Word(word).is_canonical(), "{word}");
        assert!(rt; Word(word).canonical_of() == Word(own), "{word}");
    }
}

#[test]
fn files_rows_and_codes_without_effect_are_dropped(rt: HostRuntime) {
    for (word, own) in [
        // an exchange of the files for r0
        (0x1002182715827d80, 0x1002082715827d80),
        // rows 5 and 7 that aren't read
        (0x100009e700167000, NOP),
        (0x100009e7009c7000, NOP),
        // an immediate that isn't used, and a rotation of an idle unit
        (0xd00009e7009c4000, NOP),
        (0xd00009e7009f1000, NOP),
    ] {
        assert!(rt; !Word(word).is_canonical(), "{word}");
        assert!(rt; Word(word).canonical_of() == Word(own), "{word}");
    }
}

#[test]
fn what_loads_semaphores_and_branches_say_for_nothing_is_dropped(rt: HostRuntime) {
    for (word, own) in [
        // the mul unit of a load: a condition and no address, an address and the condition never
        (0xe002482712345678, 0xe002082712345678),
        (0xe002082112345678, 0xe002082712345678),
        // a load that writes nothing
        (0xe00209e700000005, 0xe00009e700000005),
        // a semaphore word with a condition, flags, an exchange and a long immediate
        (0xe80e39e7abcdef23, 0xe80009e700000003),
        // a branch with a kind, with a row that it doesn't add, and with an exchange for r1
        (0xfff809e7ffffffe0, 0xf0f809e7ffffffe0),
        (0xf0f8a9e7ffffffe0, 0xf0f809e7ffffffe0),
        (0xf0f81867ffffffe0, 0xf0f80867ffffffe0),
    ] {
        assert!(rt; !Word(word).is_canonical(), "{word}");
        assert!(rt; Word(word).canonical_of() == Word(own), "{word}");
    }
}

#[test]
fn words_outside_the_profile_come_back(rt: HostRuntime) {
    for word in [0, 0x4000000000000001, 0x1002082701827d80] {
        assert!(rt; !Word(word).is_canonical(), "{word}");
        assert!(rt; Word(word).canonical_of() == Word(word), "{word}");
    }
}
