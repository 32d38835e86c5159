use qpu_asm::words_of;
use qpu_token::{AsmFault, AsmKind};
use qpu_word::Word;
use std::test::Fail;

#[test]
fn lines_have_their_words(rt: HostRuntime) -> Result<(), Fail> {
    let text =
        "# words\n0x0\n\r\n \t0xabcDEF0123456789 \t\r\n\n0x0000000000000001# one\n\t# none\r\n0xFFFFFFFFFFFFFFFF # 0x2";
    let Ok(words) = words_of(rt.alloc(), text) else {
        return Err(Fail::from("a text with words"));
    };
    let due = [
        Word(0),
        Word(0xabcd_ef01_2345_6789),
        Word(1),
        Word(u64::MAX),
    ];
    assert!(rt; words.as_slice() == due.as_slice());
    Ok(())
}

#[test]
fn texts_without_words(rt: HostRuntime) -> Result<(), Fail> {
    for text in ["", "\n", "#", " \t\r\n# 0x1\n"] {
        let Ok(words) = words_of(rt.alloc(), text) else {
            return Err(Fail::from("a text of no words"));
        };
        assert!(rt; words.is_empty(), "{text}");
    }
    Ok(())
}

#[test]
fn the_first_line_that_is_none_is_answered(rt: HostRuntime) -> Result<(), Fail> {
    for (text, line) in [
        ("0x1 0x2", 1),
        ("0x1\n0x2 0x3\n0x", 2),
        ("\n\n0x00000000000000001", 3),
        ("0X1\n", 1),
        ("0x1\r\n0x 1", 2),
        ("0x1\n# 0x\n\t0x # 1\n", 3),
        ("0x1\n2\n", 2),
        ("0x1g", 1),
        ("x", 1),
    ] {
        let fault = words_of(rt.alloc(), text).err();
        let due = AsmFault {
            kind: AsmKind::Shape,
            line,
            column: 1,
        };
        assert!(rt; fault == Some(due), "{text}");
    }
    Ok(())
}
