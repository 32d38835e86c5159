use qpu_asm::assemble;
use qpu_token::{AsmKind, MOST_BYTES};
use std::alloc::Global;
use std::test::Fail;

/// Whether a text has a fault at a place.
fn has_fault(alloc: Global, text: &str, kind: AsmKind, line: u32, column: u32) -> bool {
    if text.len() > MOST_BYTES {
        return false;
    }
    match assemble(alloc, text) {
        Ok(_) => false,
        Err(fault) => fault.kind == kind && fault.line == line && fault.column == column,
    }
}

/// Bytes, numbers, names that are used and names that are there twice.
#[test]
fn tokens_and_names_are_judged(rt: HostRuntime) -> Result<(), Fail> {
    for (text, kind, line, column) in [
        ("nop $", AsmKind::BadByte, 1, 5),
        ("nop\nldi r0, 1 < 2", AsmKind::BadByte, 2, 11),
        ("ldi r0, 4294967296", AsmKind::NumberTooLarge, 1, 9),
        (".word 18446744073709551616", AsmKind::NumberTooLarge, 1, 7),
        ("ldi r0, 1 + q", AsmKind::UnknownName, 1, 9),
        (".set x, q", AsmKind::UnknownName, 1, 9),
        (":a nop\n:a nop", AsmKind::Twice, 2, 2),
        (".set x, 1\n .set x, 2", AsmKind::Twice, 2, 7),
        (".macro m\n.endm\n.macro m\n.endm", AsmKind::Twice, 3, 8),
    ] {
        assert!(rt; has_fault(rt.alloc(), text, kind, line, column), "{text}");
    }
    Ok(())
}

/// Depth, length and divisions.
#[test]
fn lengths_and_divisions_are_judged(rt: HostRuntime) -> Result<(), Fail> {
    for (text, kind, line, column) in [
        (".macro m\n  m\n.endm\nm", AsmKind::TooDeep, 2, 3),
        (".rep 4096\nnop\n.endr\n :a nop", AsmKind::TooLong, 4, 2),
        (".rep 4096\nnop\nnop\n.endr", AsmKind::TooLong, 2, 1),
        ("ldi r0, 1/0", AsmKind::DivideByZero, 1, 10),
        (
            "ldi r0, 4 + 1 % (2 - 2) + 3 / 0",
            AsmKind::DivideByZero,
            1,
            15,
        ),
        ("ldi r0, 1 / (2 / 0)", AsmKind::DivideByZero, 1, 16),
        (".rep 2\nnop", AsmKind::Shape, 1, 1),
        (".macro m\nnop", AsmKind::Shape, 1, 1),
        ("nop\n .endr", AsmKind::Shape, 2, 2),
    ] {
        assert!(rt; has_fault(rt.alloc(), text, kind, line, column), "{text}");
    }
    Ok(())
}

/// The shape of a part.
#[test]
fn pieces_that_are_not_due(rt: HostRuntime) -> Result<(), Fail> {
    for (text, kind, line, column) in [
        ("add r0, r1", AsmKind::Shape, 1, 11),
        ("add r0,, r1", AsmKind::Shape, 1, 8),
        ("add r0, r1; thrend", AsmKind::Shape, 1, 11),
        ("not r0, r1, r2", AsmKind::Shape, 1, 11),
        ("nop r0", AsmKind::Shape, 1, 5),
        ("nop;", AsmKind::Shape, 1, 5),
        ("nop; ; thrend", AsmKind::Shape, 1, 6),
        ("; nop", AsmKind::Shape, 1, 1),
        ("nop; rot 1", AsmKind::Shape, 1, 6),
        ("nop; nop; rot 1", AsmKind::Shape, 1, 11),
    ] {
        assert!(rt; has_fault(rt.alloc(), text, kind, line, column), "{text}");
    }
    Ok(())
}

/// The order of parts, suffixes and expressions.
#[test]
fn parts_that_are_not_due(rt: HostRuntime) -> Result<(), Fail> {
    for (text, kind, line, column) in [
        ("nop.setf", AsmKind::Shape, 1, 4),
        ("nop.ifz; thrend", AsmKind::Shape, 1, 4),
        ("mul24 r0, r1, r1", AsmKind::Shape, 1, 1),
        ("add r0, r0, r0; nop", AsmKind::Shape, 1, 17),
        ("nop; add r0, r0, r0", AsmKind::Shape, 1, 6),
        ("nop; ldtmu0; thrend", AsmKind::Shape, 1, 14),
        ("sinc 3; thrend", AsmKind::Shape, 1, 9),
        ("thrend", AsmKind::Shape, 1, 1),
        ("nop; reada unif; reada unif", AsmKind::Shape, 1, 18),
        ("brr -, ra1; reg ra1", AsmKind::Shape, 1, 13),
    ] {
        assert!(rt; has_fault(rt.alloc(), text, kind, line, column), "{text}");
    }
    Ok(())
}

/// Expressions, targets, directives and labels.
#[test]
fn more_shapes(rt: HostRuntime) -> Result<(), Fail> {
    for (text, kind, line, column) in [
        ("add.ifz.setf.ifz r0, r0, r0", AsmKind::Shape, 1, 13),
        ("ldi ra0.8a, 5", AsmKind::Shape, 1, 8),
        ("ldi r0, 1 2", AsmKind::Shape, 1, 11),
        ("ldi r0, (1 2)", AsmKind::Shape, 1, 9),
        ("ldi r0, 1 +", AsmKind::Shape, 1, 9),
        ("ldi r0, + 1", AsmKind::Shape, 1, 9),
        ("ldi r0,", AsmKind::Shape, 1, 8),
        ("ldi r0, 5.8a", AsmKind::Shape, 1, 10),
        ("ldi 5, 5", AsmKind::Shape, 1, 5),
        ("or r0, -, r1", AsmKind::Shape, 1, 8),
    ] {
        assert!(rt; has_fault(rt.alloc(), text, kind, line, column), "{text}");
    }
    Ok(())
}

/// What can't stand where it does is told also where something is missing further on.
#[test]
fn places_are_judged_from_the_left(rt: HostRuntime) -> Result<(), Fail> {
    for (text, kind, line, column) in [
        ("brr :x", AsmKind::Shape, 1, 5),
        ("sub 2+3", AsmKind::Shape, 1, 5),
        ("or r0, :5, r0", AsmKind::Shape, 1, 8),
        ("brr -, :5", AsmKind::Shape, 1, 9),
        ("ldi r0, 5; also -", AsmKind::Operands, 1, 17),
        ("brr -, 0; link -", AsmKind::Operands, 1, 16),
    ] {
        assert!(rt; has_fault(rt.alloc(), text, kind, line, column), "{text}");
    }
    Ok(())
}

/// Unknown directives, labels that aren't due, and malformed headings of macros.
#[test]
fn malformed_lines_are_judged(rt: HostRuntime) -> Result<(), Fail> {
    for (text, kind, line, column) in [
        (".foo; add r0, r0, 1/0", AsmKind::DivideByZero, 1, 20),
        (":a :b add r0, r0, 1/0", AsmKind::Shape, 1, 4),
        (":a :b; add r0, r0, 1/0", AsmKind::DivideByZero, 1, 21),
        (".macro t, d, d x\n.endm", AsmKind::Twice, 1, 14),
        (".macro t, d, d x", AsmKind::Twice, 1, 14),
        (".macro m\n.endm\n.macro m 5\n.endm", AsmKind::Twice, 3, 8),
        (".macro 5, d, d x\n.endm", AsmKind::Shape, 1, 8),
    ] {
        assert!(rt; has_fault(rt.alloc(), text, kind, line, column), "{text}");
    }
    Ok(())
}

/// Mnemonics that are none, and labels that aren't there.
#[test]
fn mnemonics_are_judged(rt: HostRuntime) -> Result<(), Fail> {
    for (text, kind, line, column) in [
        ("foo r0", AsmKind::UnknownOp, 1, 1),
        ("nop; Thrend", AsmKind::UnknownOp, 1, 6),
        ("foo. 5 (,; nop", AsmKind::UnknownOp, 1, 1),
        ("thrend; foo", AsmKind::UnknownOp, 1, 9),
        ("m\n.macro m\n.endm", AsmKind::UnknownOp, 1, 1),
        ("brr -, :x", AsmKind::Label, 1, 9),
        ("nop\nbra ra0, :y\n:x", AsmKind::Label, 2, 11),
        (".rep 0\n:z nop\n.endr\nbrr -, :z", AsmKind::Label, 4, 9),
    ] {
        assert!(rt; has_fault(rt.alloc(), text, kind, line, column), "{text}");
    }
    Ok(())
}

/// Names that aren't allowed in their places.
#[test]
fn names_are_judged(rt: HostRuntime) -> Result<(), Fail> {
    for (text, kind, line, column) in [
        ("or r0, q, r0", AsmKind::Operands, 1, 8),
        ("or r4, r0, r0", AsmKind::Operands, 1, 4),
        ("or unif, r0, r0", AsmKind::Operands, 1, 4),
        ("or r0, t0s, r0", AsmKind::Operands, 1, 8),
        ("ldi r0, q", AsmKind::Operands, 1, 9),
        ("ldi r0, r0", AsmKind::Operands, 1, 9),
        ("sinc r0", AsmKind::Operands, 1, 6),
        ("nop; v8min r0, r0, r0; rot r4", AsmKind::Operands, 1, 28),
        ("brr -, rb1", AsmKind::Operands, 1, 8),
        ("brr t0s, 0", AsmKind::Operands, 1, 5),
    ] {
        assert!(rt; has_fault(rt.alloc(), text, kind, line, column), "{text}");
    }
    Ok(())
}

/// Suffixes, and what doesn't stand beside another.
#[test]
fn suffixes_are_judged(rt: HostRuntime) -> Result<(), Fail> {
    for (text, kind, line, column) in [
        ("add.foo r0, r0, r0", AsmKind::Operands, 1, 4),
        ("add.setf.ifz r0, r0, r0", AsmKind::Operands, 1, 9),
        ("brr.ifz -, 0", AsmKind::Operands, 1, 4),
        ("ldi r0, 5; also.setf r1", AsmKind::Operands, 1, 16),
        (
            "add r0, r0, r0; v8min.setf r1, r1, r1",
            AsmKind::Operands,
            1,
            22,
        ),
        (
            "or ra0, r0, r0; v8min ra1, r1, r1",
            AsmKind::Operands,
            1,
            23,
        ),
        ("ldi ra0, 5; also vr_setup", AsmKind::Operands, 1, 18),
        ("brr ra0, 0; link ra1", AsmKind::Operands, 1, 18),
        ("or rb0.8a, r0, r0", AsmKind::Operands, 1, 7),
        ("or ra0.8dr, r0, r0", AsmKind::Operands, 1, 7),
        ("or r0, -.8a, r1", AsmKind::Operands, 1, 9),
        ("nop; v8min r1, r0, -.16b", AsmKind::Operands, 1, 21),
    ] {
        assert!(rt; has_fault(rt.alloc(), text, kind, line, column), "{text}");
    }
    Ok(())
}

/// Immediates and reads.
#[test]
fn immediates_and_reads_are_judged(rt: HostRuntime) -> Result<(), Fail> {
    for (text, kind, line, column) in [
        ("or r0, 1, 2", AsmKind::TwoImmediates, 1, 11),
        ("or r0, 100, 200", AsmKind::TwoImmediates, 1, 13),
        ("or r0, rb0, 1", AsmKind::TwoImmediates, 1, 13),
        ("or r0, 1, unifb", AsmKind::TwoImmediates, 1, 11),
        (
            "or r0, r0, 1; v8min r0, 2, r0",
            AsmKind::TwoImmediates,
            1,
            25,
        ),
        ("or r0, r0, 1; readb unifb", AsmKind::TwoImmediates, 1, 21),
        ("or r0, ra0, ra1", AsmKind::TwoReads, 1, 13),
        ("or r0, unif, ra1", AsmKind::TwoReads, 1, 14),
        (
            "or r0, rb0, r1; v8min r1, unifb, r1",
            AsmKind::TwoReads,
            1,
            27,
        ),
        ("or r0, ra0, r1; reada unif", AsmKind::TwoReads, 1, 23),
    ] {
        assert!(rt; has_fault(rt.alloc(), text, kind, line, column), "{text}");
    }
    Ok(())
}

/// Numbers out of their ranges.
#[test]
fn ranges_are_judged(rt: HostRuntime) -> Result<(), Fail> {
    for (text, kind, line, column) in [
        (".rep 4097\nnop\n.endr", AsmKind::Range, 1, 6),
        (".rep -1\n.endr", AsmKind::Range, 1, 6),
        ("add r0, r0, 16", AsmKind::Range, 1, 13),
        ("add r0, r0, 10 + 10", AsmKind::Range, 1, 13),
        ("sinc 16", AsmKind::Range, 1, 6),
        ("sdec -1", AsmKind::Range, 1, 6),
        ("nop; v8min r0, r0, r0; rot 16", AsmKind::Range, 1, 28),
        ("nop; v8min r0, r0, r0; rot 0", AsmKind::Range, 1, 28),
    ] {
        assert!(rt; has_fault(rt.alloc(), text, kind, line, column), "{text}");
    }
    Ok(())
}
