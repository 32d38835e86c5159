//! The command `dis`: words, and the lines or the refusal that are written.
use crate::asking::{ASM, DIS, answered};
use qpu_tool::{MOST_INPUT, Status};
use std::test::Fail;

/// Worked words, one of each form and signal, and their lines.
const WORKED: [(&str, &str); 9] = [
    ("0x100009e7009e7000", "nop\n"),
    ("0x300009e7009e7000", "nop; thrend\n"),
    ("0xa00009e7009e7000", "nop; ldtmu0\n"),
    ("0xe002082712345678", "ldi r0, 0x12345678\n"),
    ("0xe0021c6700001a00", "ldi vw_setup, 0x00001a00\n"),
    ("0x1002082715827d80", "or r0, unif, unif\n"),
    ("0x100208270c820dc0", "add r0, unif, unifb\n"),
    ("0xd00208670c9c41c0", "add r1, r0, 4\n"),
    ("0xd00228e70d9c17c0", "sub.setf r3, r3, 1\n"),
];

/// More of them, with rows, rotations, branches and semaphores.
const MORE_WORKED: [(&str, &str); 9] = [
    ("0x10020067159e7000", "or ra1, r0, r0\n"),
    ("0x100208a715067d80", "or r2, ra1, ra1\n"),
    ("0x10020c27159e7480", "or vpm, r2, r2\n"),
    ("0x100209e715ce7d80", "or -, mutex_acq, mutex_acq\n"),
    ("0xd00049e1809f1000", "nop; v8min r1, r0, r0; rot 1\n"),
    ("0xf0f809e7ffffffe0", "brr -, -32\n"),
    ("0xf03809e7ffffff90", "brr.anynz -, -112\n"),
    ("0xe80009e700000003", "sinc 3\n"),
    ("0xe80009e700000013", "sdec 3\n"),
];

#[test]
fn a_word_has_its_line(rt: HostRuntime) -> Result<(), Fail> {
    let alloc = rt.alloc();
    for (word, line) in WORKED {
        let answer = answered(alloc, &DIS, word.as_bytes(), &[], &[])?;
        assert!(rt; answer.status == Status::Done, "{word}");
        assert!(rt; answer.text.as_slice() == line.as_bytes(), "{word}");
    }
    for (word, line) in MORE_WORKED {
        let answer = answered(alloc, &DIS, word.as_bytes(), &[], &[])?;
        assert!(rt; answer.status == Status::Done, "{word}");
        assert!(rt; answer.text.as_slice() == line.as_bytes(), "{word}");
    }
    Ok(())
}

#[test]
fn a_word_that_is_not_canonical_stands_as_it_is(rt: HostRuntime) -> Result<(), Fail> {
    let alloc = rt.alloc();
    // a floating sum; an idle unit with a mux; the number 5; capital letters
    let rows = [
        ("0x10020827019e7280", ".word 0x10020827019e7280\n"),
        ("0x100009e7009e7001", ".word 0x100009e7009e7001\n"),
        ("0x5", ".word 0x0000000000000005\n"),
        ("0xABCDEF", ".word 0x0000000000abcdef\n"),
    ];
    for (word, line) in rows {
        let answer = answered(alloc, &DIS, word.as_bytes(), &[], &[])?;
        assert!(rt; answer.status == Status::Done, "{word}");
        assert!(rt; answer.text.as_slice() == line.as_bytes(), "{word}");
    }
    Ok(())
}

#[test]
fn lines_that_are_written_are_assembled_to_their_words(rt: HostRuntime) -> Result<(), Fail> {
    let alloc = rt.alloc();
    for (word, line) in WORKED {
        let answer = answered(alloc, &ASM, line.as_bytes(), &[], &[])?;
        assert!(rt; answer.status == Status::Done, "{line}");
        assert!(rt;
            answer.text.as_slice().starts_with(word.as_bytes()),
            "{line}"
        );
        assert!(rt; answer.text.len() == word.len() + 1, "{line}");
    }
    let raw = answered(alloc, &ASM, b".word 0x10020827019e7280\n", &[], &[])?;
    assert!(rt; raw.status == Status::Done);
    assert!(rt; raw.text.as_slice() == b"0x10020827019e7280\n".as_slice());
    Ok(())
}

#[test]
fn blanks_comments_and_empty_lines_may_stand_anywhere(rt: HostRuntime) -> Result<(), Fail> {
    let alloc = rt.alloc();
    let rows = [
        ("", ""),
        ("\n \t\r\n# nothing\n", ""),
        (
            " 0xe80009e700000003 \t# a semaphore\r\n\n\t0x300009e7009e7000",
            "sinc 3\nnop; thrend\n",
        ),
    ];
    for (text, lines) in rows {
        let answer = answered(alloc, &DIS, text.as_bytes(), &[], &[])?;
        assert!(rt; answer.status == Status::Done, "{text}");
        assert!(rt; answer.text.as_slice() == lines.as_bytes(), "{text}");
    }
    Ok(())
}

#[test]
fn a_line_that_is_no_word_is_refused(rt: HostRuntime) -> Result<(), Fail> {
    let alloc = rt.alloc();
    let rows = [
        ("0x", "refused asm Shape at line 1 column 1\n"),
        (
            "0x1\n\n  100009e7009e7000\n",
            "refused asm Shape at line 3 column 1\n",
        ),
        (
            "0x10000000000000000\n",
            "refused asm Shape at line 1 column 1\n",
        ),
        ("0X1\n", "refused asm Shape at line 1 column 1\n"),
        ("0x1 0x2\n", "refused asm Shape at line 1 column 1\n"),
        ("0x1\n0x1g\n", "refused asm Shape at line 2 column 1\n"),
        ("nop\n", "refused asm Shape at line 1 column 1\n"),
    ];
    for (text, line) in rows {
        let answer = answered(alloc, &DIS, text.as_bytes(), &[], &[])?;
        assert!(rt; answer.status == Status::AsmRefused, "{text}");
        assert!(rt; answer.text.as_slice() == line.as_bytes(), "{text}");
    }
    Ok(())
}

#[test]
fn an_input_that_is_no_text_is_refused(rt: HostRuntime) -> Result<(), Fail> {
    let alloc = rt.alloc();
    let high = answered(alloc, &DIS, &[0x30, 0x78, 0x80], &[], &[])?;
    assert!(rt; high.status == Status::NotAscii);
    assert!(rt; high.text.as_slice() == b"not ascii at 2\n".as_slice());
    let lines = vec![in alloc; b'\n'; MOST_INPUT as usize + 1]?;
    let long = answered(alloc, &DIS, &lines, &[], &[])?;
    assert!(rt; long.status == Status::TooLong);
    let broken = answered(alloc, &DIS, b"0x1\n", &[0], &[])?;
    assert!(rt; broken.status == Status::ReadFault);
    let cut = answered(alloc, &DIS, b"0xe80009e700000003\n", &[], &[0])?;
    assert!(rt; cut.status == Status::WriteFault);
    assert!(rt; cut.text.is_empty());
    let words = answered(alloc, &["dis", "0"], b"", &[], &[])?;
    assert!(rt; words.status == Status::Usage);
    Ok(())
}
