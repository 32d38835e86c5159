//! The command `asm`: texts, and the words or the refusal that are written.
use crate::asking::{ASM, answered};
use crate::assembler_limits::{nested_macros, repeated};
use qpu_tool::{MOST_INPUT, Status};
use std::test::Fail;

#[test]
fn a_line_gives_its_word(rt: HostRuntime) -> Result<(), Fail> {
    let alloc = rt.alloc();
    let rows: [(&str, &str); 5] = [
        ("nop; thrend\n", "0x300009e7009e7000\n"),
        ("ldi r0, 0x12345678\n", "0xe002082712345678\n"),
        ("add r1, r0, 4\n", "0xd00208670c9c41c0\n"),
        ("brr.anynz -, -112\n", "0xf03809e7ffffff90\n"),
        ("sdec 3\n", "0xe80009e700000013\n"),
    ];
    for (text, words) in rows {
        let answer = answered(alloc, &ASM, text.as_bytes(), &[], &[])?;
        assert!(rt; answer.status == Status::Done, "{text}");
        assert!(rt; answer.text.as_slice() == words.as_bytes(), "{text}");
    }
    Ok(())
}

#[test]
fn a_text_gives_its_words(rt: HostRuntime) -> Result<(), Fail> {
    let alloc = rt.alloc();
    let rows: [(&str, &str); 4] = [
        ("", ""),
        (
            ".macro twice, d\nadd d, d, d\n.endm\ntwice r1\n",
            "0x100208670c9e7240\n",
        ),
        (".word 0x10020827019e7280\n", "0x10020827019e7280\n"),
        (
            "sinc 3\nsdec 3\nnop # the last one",
            "0xe80009e700000003\n0xe80009e700000013\n0x100009e7009e7000\n",
        ),
    ];
    for (text, words) in rows {
        let answer = answered(alloc, &ASM, text.as_bytes(), &[], &[])?;
        assert!(rt; answer.status == Status::Done, "{text}");
        assert!(rt; answer.text.as_slice() == words.as_bytes(), "{text}");
    }
    Ok(())
}

#[test]
fn a_text_with_a_fault_is_refused(rt: HostRuntime) -> Result<(), Fail> {
    let alloc = rt.alloc();
    let rows: [(&str, &str); 8] = [
        (
            "or r0, 1, 2\n",
            "refused asm TwoImmediates at line 1 column 11\n",
        ),
        ("brr -, :x\n", "refused asm Label at line 1 column 9\n"),
        (
            "ldi r0, 4294967296\n",
            "refused asm NumberTooLarge at line 1 column 9\n",
        ),
        (
            "nop\nmov r0, ?\n",
            "refused asm BadByte at line 2 column 9\n",
        ),
        (
            "nop\n\nfoo r0\n",
            "refused asm UnknownOp at line 3 column 1\n",
        ),
        (
            "ldi r0, 1 + q\n",
            "refused asm UnknownName at line 1 column 9\n",
        ),
        (":a nop\n:a nop\n", "refused asm Twice at line 2 column 2\n"),
        (
            "ldi r0, 1 / 0\n",
            "refused asm DivideByZero at line 1 column 11\n",
        ),
    ];
    for (text, line) in rows {
        let answer = answered(alloc, &ASM, text.as_bytes(), &[], &[])?;
        assert!(rt; answer.status == Status::AsmRefused, "{text}");
        assert!(rt; answer.text.as_slice() == line.as_bytes(), "{text}");
    }
    Ok(())
}

#[test]
fn a_text_past_a_limit_is_refused(rt: HostRuntime) -> Result<(), Fail> {
    let alloc = rt.alloc();
    let rows = [
        (
            String::from_str(alloc, ".rep 4097\nnop\n.endr\n")?,
            "refused asm Range at line 1 column 6\n",
        ),
        (
            nested_macros(alloc, 17)?,
            "refused asm TooDeep at line 5 column 1\n",
        ),
        (
            repeated(alloc, "nop\n", 4_097)?,
            "refused asm TooLong at line 4097 column 1\n",
        ),
    ];
    for (text, line) in &rows {
        let answer = answered(alloc, &ASM, text.as_bytes(), &[], &[])?;
        assert!(rt; answer.status == Status::AsmRefused, "{line}");
        assert!(rt; answer.text.as_slice() == line.as_bytes(), "{line}");
    }
    Ok(())
}

#[test]
fn a_comment_may_be_as_long_as_the_input(rt: HostRuntime) -> Result<(), Fail> {
    let alloc = rt.alloc();
    let mut text = vec![in alloc; b'#'; MOST_INPUT as usize]?;
    let whole = answered(alloc, &ASM, &text, &[], &[])?;
    assert!(rt; whole.status == Status::Done);
    assert!(rt; whole.text.is_empty());
    text.push(b'#')?;
    let longer = answered(alloc, &ASM, &text, &[], &[])?;
    assert!(rt; longer.status == Status::TooLong);
    assert!(rt; longer.text.as_slice() == b"too long\n".as_slice());
    Ok(())
}

#[test]
fn an_input_that_is_no_text_is_refused(rt: HostRuntime) -> Result<(), Fail> {
    let alloc = rt.alloc();
    let high = answered(alloc, &ASM, &[0x61, 0xc3], &[], &[])?;
    assert!(rt; high.status == Status::NotAscii);
    assert!(rt; high.text.as_slice() == b"not ascii at 1\n".as_slice());
    let broken = answered(alloc, &ASM, b"nop\n", &[0], &[])?;
    assert!(rt; broken.status == Status::ReadFault);
    assert!(rt; broken.text.as_slice() == b"read fault\n".as_slice());
    Ok(())
}

#[test]
fn a_write_that_fails_cuts_the_words_off(rt: HostRuntime) -> Result<(), Fail> {
    let alloc = rt.alloc();
    let whole = b"0x100009e7009e7000\n".as_slice();
    // The line is three writes: `0x`, the digits, and the line feed.
    for call in 0..3u64 {
        let answer = answered(alloc, &ASM, b"nop\n", &[], &[call])?;
        assert!(rt; answer.status == Status::WriteFault, "call {call}");
        assert!(rt; whole.starts_with(&answer.text), "call {call}");
        assert!(rt; answer.text.len() < whole.len(), "call {call}");
    }
    let answer = answered(alloc, &ASM, b"nop\n", &[], &[3])?;
    assert!(rt; answer.status == Status::Done);
    assert!(rt; answer.text.as_slice() == whole);
    Ok(())
}
