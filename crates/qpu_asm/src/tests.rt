use crate::assemble;
use qpu_token::MOST_BYTES;
use qpu_word::Word;
use std::alloc::Global;
use std::test::Fail;

/// Lines of one word, in the order of the grammar's rules, with words worked out by the bit fields of the
/// Guide's "QPU Instruction Encoding". docs/FORMATS.md shows them.
const LINES: [(&str, u64); 44] = [
    ("nop", 0x1000_09e7_009e_7000),
    ("add ra1, r0, r1", 0x1002_0067_0c9e_7040),
    ("nop; mul24 r2, r0, r1", 0x1000_49e2_409e_7001),
    ("add ra1, r0, r1; mul24 rb2, r2, r3", 0x1002_4042_4c9e_7053),
    ("add rb1, r0, r1; mul24 ra2, r2, r3", 0x1002_5042_4c9e_7053),
    ("mov r0, r1", 0x1002_0827_159e_7240),
    ("nop; mov r0, r1", 0x1000_49e0_809e_7009),
    ("not r0, r1", 0x1002_0827_179e_7240),
    ("add.ifz r0, r1, r2", 0x1004_0827_0c9e_7280),
    ("add.ifz -, r1, r2", 0x1002_09e7_0c9e_7280),
    ("sub.setf -, r1, r2", 0x1002_29e7_0d9e_7280),
    ("add ra1.16a, r0, r1", 0x1012_0067_0c9e_7040),
    ("add r0, ra1.8b, r1", 0x1a02_0827_0c06_7c40),
    ("add r0, ra1, rb2", 0x1002_0827_0c04_2dc0),
    ("add r0, unif, r1", 0x1002_0827_0c82_7c40),
    ("add r0, r1, 15", 0xd002_0827_0c9c_f3c0),
    ("add r0, r1, -1", 0xd002_0827_0c9d_f3c0),
    ("add r0, r1, 0xffffffff", 0xd002_0827_0c9d_f3c0),
    ("add r0, r1, 3 * 4 + 1", 0xd002_0827_0c9c_d3c0),
    ("mov r0, 0x3f800000", 0xd002_0827_159e_0fc0),
    ("nop; thrend", 0x3000_09e7_009e_7000),
    ("mov r0, r1; ldtmu0", 0xa002_0827_159e_7240),
    ("nop; mov r0, r1; rot 3", 0xd000_49e0_809f_3009),
    ("nop; mov r0, r1; rot r5", 0xd000_49e0_809f_0009),
    ("nop; reada vpm", 0x1000_09e7_00c2_7000),
    ("mov r0, vpm; reada vpm", 0x1002_0827_15c2_7d80),
    ("nop; readb mutex_acqb; ldtmu1", 0xb000_09e7_009f_3000),
    ("ldi r0, 0x12345678", 0xe002_0827_1234_5678),
    ("ldi.ifc.setf ra1, 7", 0xe00c_2067_0000_0007),
    ("ldis r0, 0x00020001", 0xe202_0827_0002_0001),
    ("ldiu r0, 3", 0xe602_0827_0000_0003),
    ("ldi -, 0", 0xe000_09e7_0000_0000),
    ("ldi r0, 5; also rb1", 0xe002_4801_0000_0005),
    ("ldi r0, 5; also.ifz r1", 0xe002_8821_0000_0005),
    ("sinc 3", 0xe800_09e7_0000_0003),
    ("sdec 15", 0xe800_09e7_0000_001f),
    ("bra -, 16", 0xf0f0_09e7_0000_0010),
    ("brr.anynz -, -32", 0xf038_09e7_ffff_ffe0),
    (":here brr -, :here", 0xf0f8_09e7_ffff_ffe0),
    (":here bra -, :here", 0xf0f0_09e7_0000_0000),
    ("bra -, ra3", 0xf0f4_69e7_0000_0000),
    ("bra ra2, 0; link rb4", 0xf0f0_0084_0000_0000),
    ("bra r0, 8; reg ra3", 0xf0f4_6827_0000_0008),
    (".word 0x100009e7009e7000", 0x1000_09e7_009e_7000),
];

/// The words of a text.
fn words(alloc: Global, text: &str) -> Result<Vec<Word>, Fail> {
    if text.len() > MOST_BYTES {
        return Err(Fail::from("a text that is short enough"));
    }
    assemble(alloc, text).map_err(|_| Fail::from("a line without a fault"))
}

#[test]
fn lines_are_their_words(rt: HostRuntime) -> Result<(), Fail> {
    for (line, word) in &LINES {
        let words = words(rt.alloc(), line)?;
        assert!(rt; words.as_slice() == [Word(*word)].as_slice(), "{line}");
    }
    Ok(())
}
