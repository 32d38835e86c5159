//! Lines with more tokens than a text may reach: each is answered by its limit, or by a lesser fault.
use crate::asking::{ASM, answered};
use qpu_asm::assemble;
use qpu_token::{AsmFault, AsmKind, MOST_BYTES};
use qpu_tool::Status;
use std::alloc::Global;
use std::test::Fail;

/// How often a piece of a long line is doubled, up to 4,194,304 pieces.
const DOUBLINGS: usize = 22;

/// A head, 4,194,304 times a piece, and a tail.
fn long_text(alloc: Global, head: &str, piece: &str, tail: &str) -> Result<String, Fail> {
    let mut middle = String::from_str(alloc, piece)?;
    for _ in 0..DOUBLINGS {
        let half = middle.clone()?;
        middle.push_str(half.as_str())?;
    }
    let mut text = String::from_str(alloc, head)?;
    text.push_str(middle.as_str())?;
    text.push_str(tail)?;
    Ok(text)
}

/// The fault of a long text.
fn long_fault(
    alloc: Global,
    head: &str,
    piece: &str,
    tail: &str,
) -> Result<Option<AsmFault>, Fail> {
    let text = long_text(alloc, head, piece, tail)?;
    if text.len() > MOST_BYTES {
        return Err(Fail::from("a text that is short enough"));
    }
    Ok(assemble(alloc, text.as_str()).err())
}

#[test]
fn token_1_048_577_is_one_too_many(rt: HostRuntime) -> Result<(), Fail> {
    for (head, tail, line, column) in [
        ("", ";", 1, 1_048_577),
        (".set x, ", "", 1, 1_048_581),
        (".rep ", "", 1, 1_048_580),
        (".macro m, ", "", 1, 1_048_583),
        (".word ", "", 1, 1_048_581),
        (".foo ", "", 1, 1_048_580),
        (".rep 1\n.endr ", "", 2, 1_048_578),
    ] {
        let due = AsmFault {
            kind: AsmKind::TooLong,
            line,
            column,
        };
        let fault = long_fault(rt.alloc(), head, ";", tail)?;
        assert!(rt; fault == Some(due), "{head}");
    }
    Ok(())
}

#[test]
fn unknown_names_of_a_long_line_come_first(rt: HostRuntime) -> Result<(), Fail> {
    for (head, piece, tail, column) in [
        (".set x, q", "+1", "", 9),
        (".rep q", "+1", "\n.endr", 6),
        ("nop q", "+1", "", 5),
        ("nop ", ";", "nop q+1", 4_194_313),
        (".foo ", ";", "nop q+1", 4_194_314),
    ] {
        let due = AsmFault {
            kind: AsmKind::UnknownName,
            line: 1,
            column,
        };
        let fault = long_fault(rt.alloc(), head, piece, tail)?;
        assert!(rt; fault == Some(due), "{head}");
    }
    Ok(())
}

#[test]
fn names_of_a_long_line_that_are_there_twice_come_first(rt: HostRuntime) -> Result<(), Fail> {
    for (head, piece, line, column) in [
        (":a nop\n:a ", ";", 2, 2),
        (".set x, 1\n.set x, 1", "+1", 2, 6),
        (".macro m, d, d", ";", 1, 14),
        (".macro m\n.endm\n.macro m", ";", 3, 8),
        (":a nop\n.rep 1\n:a .endr ", ";", 3, 2),
    ] {
        let due = AsmFault {
            kind: AsmKind::Twice,
            line,
            column,
        };
        let fault = long_fault(rt.alloc(), head, piece, "")?;
        assert!(rt; fault == Some(due), "{head}");
    }
    Ok(())
}

/// Macros of which each calls the one before it; the second calls with what stands behind its name.
fn nested_macros(alloc: Global) -> Result<String, Fail> {
    let mut text = String::from_str(alloc, "\n.endm\n")?;
    for i in 3_u32..18 {
        let before = i - 1;
        text.push_str(format!(in alloc; ".macro m{i}\nm{before}\n.endm\n")?.as_str())?;
    }
    text.push_str("m17\n")?;
    Ok(text)
}

#[test]
fn a_long_call_that_is_nested_too_deep_comes_first(rt: HostRuntime) -> Result<(), Fail> {
    let head = ".macro m1\nnop\n.endm\n.macro m2\n m1 ";
    let fault = long_fault(rt.alloc(), head, ";", nested_macros(rt.alloc())?.as_str())?;
    let due = AsmFault {
        kind: AsmKind::TooDeep,
        line: 5,
        column: 2,
    };
    assert!(rt; fault == Some(due));
    Ok(())
}

#[test]
fn a_line_as_long_as_an_input_is_refused(rt: HostRuntime) -> Result<(), Fail> {
    let text = long_text(rt.alloc(), "", ";;", "")?;
    let answer = answered(rt.alloc(), &ASM, text.as_bytes(), &[], &[])?;
    assert!(rt; answer.status == Status::AsmRefused);
    let line = b"refused asm TooLong at line 1 column 1048577\n";
    assert!(rt; answer.text.as_slice() == line.as_slice());
    Ok(())
}
