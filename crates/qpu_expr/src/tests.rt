use crate::{Expanded, PlainLine, expand};
use qpu_token::{AsmFault, AsmKind, MOST_BYTES, Token, TokenKind, tokens};
use std::alloc::Global;
use std::test::Fail;

/// The expansion of a text.
fn expansion(alloc: Global, text: &str) -> Result<Result<Expanded, AsmFault>, Fail> {
    if text.len() > MOST_BYTES {
        return Err(Fail::from("a text that is short enough"));
    }
    let Ok(found) = tokens(alloc, text) else {
        return Err(Fail::from("a text with tokens"));
    };
    Ok(expand(alloc, text, &found))
}

/// Appends a token with a space behind it.
fn show_token(alloc: Global, text: &str, token: Token, out: &mut String) -> Result<(), Fail> {
    match token.kind {
        TokenKind::Number(value) => out.push_str(format!(in alloc; "{value}")?.as_str())?,
        TokenKind::Name | TokenKind::Punct => out.push_str(
            text.get(token.from..token.to).unwrap_or("?"),
        )?,
        TokenKind::LineEnd => out.push_str("|")?,
    }
    out.push_str(" ")?;
    Ok(())
}

/// The lines that are left of a text, each token with a space behind it and each end as `|`; then each
/// label with the word behind it.
fn shown(alloc: Global, text: &str) -> Result<String, Fail> {
    let Ok(expanded) = expansion(alloc, text)? else {
        return Err(Fail::from("a text without a fault"));
    };
    let mut out = String::new(alloc);
    for line in &expanded.lines {
        for token in &line.tokens {
            show_token(alloc, text, *token, &mut out)?;
        }
    }
    for label in &expanded.labels {
        let name = text.get(label.from..label.to).unwrap_or("?");
        let word = label.word;
        out.push_str(format!(in alloc; "{name}={word} ")?.as_str())?;
    }
    Ok(out)
}

#[test]
fn numbers_are_worked_out_by_precedence(rt: HostRuntime) -> Result<(), Fail> {
    for (text, due) in [
        ("ldi r0, 2 + 3 * 4", "ldi r0 , 14 | "),
        ("ldi r0, (2 + 3) * 4", "ldi r0 , 20 | "),
        ("ldi r0, 10 - 3 - 2", "ldi r0 , 5 | "),
        ("ldi r0, 1 - 3 + 2", "ldi r0 , 0 | "),
        ("ldi r0, -1 / 2", "ldi r0 , 2147483647 | "),
        ("ldi r0, 2 - -3", "ldi r0 , 5 | "),
        ("ldi r0, ~0 & 12 | 1 ^ 3", "ldi r0 , 14 | "),
        ("ldi r0, 1 << 33 | 8 >> 1 + 1", "ldi r0 , 2 | "),
        ("ldi r0, 1 << 2 << 3", "ldi r0 , 32 | "),
        ("ldi r0, 17 % 5 * 2", "ldi r0 , 4 | "),
    ] {
        let found = shown(rt.alloc(), text)?;
        assert!(rt; found.as_str() == due, "{text}: {found}");
    }
    Ok(())
}

#[test]
fn names_alone_are_registers_or_set_or_left(rt: HostRuntime) -> Result<(), Fail> {
    for (text, due) in [
        (".set x, 5\nldi r0, x", "ldi r0 , 5 | "),
        (
            ".set r0, 5\nldi r1, r0\nldi r1, (r0)\nldi r1, r0 + 0",
            "ldi r1 , r0 | ldi r1 , 5 | ldi r1 , 5 | ",
        ),
        (".set q, 7\nadd q, ra31, q", "add 7 , ra31 , 7 | "),
        (
            ".set rb32, 1\n.set r6, 2\n.set ra01, 3\nadd rb32, r6, ra01",
            "add 1 , 2 , 3 | ",
        ),
        (
            ".set t0s, 1\n.set vpm_ld_busy, 2\n.set r5rep, 3\nmov t0s, vpm_ld_busy, r5rep",
            "mov t0s , vpm_ld_busy , r5rep | ",
        ),
        (
            "sinc q\nadd.ifz ra0.8a, q, r1",
            "sinc q | add . ifz ra0 . 8a , q , r1 | ",
        ),
        (
            ".set x, 3\nadd r0, x.8a, x + 1.8b",
            "add r0 , 3 . 8a , 4 . 8b | ",
        ),
        (
            ".set add, 1\n.set ifz, 2\nadd.ifz r0, add, ifz",
            "add . ifz r0 , 1 , 2 | ",
        ),
        (".set x, 1\n:x brr -, :x", "brr - , : x | x=0 "),
        (
            ".set q, 1\n.word q\n.word 18446744073709551615",
            ". word q | . word 18446744073709551615 | ",
        ),
        (
            ".set r5, 3\nnop; nop; rot r5\nnop; nop; rot (r5)",
            "nop ; nop ; rot r5 | nop ; nop ; rot 3 | ",
        ),
        ("ldi r0, 4294967295 + 3", "ldi r0 , 2 | "),
    ] {
        let found = shown(rt.alloc(), text)?;
        assert!(rt; found.as_str() == due, "{text}: {found}");
    }
    Ok(())
}

#[test]
fn lines_of_no_shape_are_left_and_give_a_word(rt: HostRuntime) -> Result<(), Fail> {
    for (text, due) in [
        (
            "ldi r0, 1/0 2\nldi r0, 1 +",
            "ldi r0 , 1 / 0 2 | ldi r0 , 1 + | ",
        ),
        (":5 nop 1/0\n:", ": 5 nop 1 / 0 | : | "),
        (":a :b nop\n:c nop", ": a : b nop | nop | a=0 c=1 "),
        (".foo 1/0\n:a nop", ". foo 1 / 0 | nop | a=1 "),
        (
            ".set x 5\n.set x, 1 +\n.set\n.set x, 2\n:a ldi r0, x",
            ". set x 5 | . set x , 1 + | . set | ldi r0 , 2 | a=3 ",
        ),
        (
            "; 5 1/0\n7, 1/0; foo 1 + 1",
            "; 5 1 / 0 | 7 , 1 / 0 ; foo 2 | ",
        ),
        ("add.x.5 1 + 1.y, , (2)", "add . x . 5 2 . y , , 2 | "),
        ("nop,1 - 1", "nop , 0 | "),
        ("m\n.macro m\nnop\n.endm\nm", "m | nop | "),
    ] {
        let found = shown(rt.alloc(), text)?;
        assert!(rt; found.as_str() == due, "{text}: {found}");
    }
    Ok(())
}

#[test]
fn labels_stand_before_the_next_word(rt: HostRuntime) -> Result<(), Fail> {
    for (text, due) in [
        ("", ""),
        ("\n# c\n nop # c\n\n", "nop | "),
        (
            ":a nop\n\n:b\n:c .rep 2\nnop\n:d .endr\n:e",
            "nop | nop | nop | a=0 b=1 c=1 d=3 e=3 ",
        ),
        (
            ":a .set x, 1\n:b .macro m\n:c nop\n:d .endm\nnop\n:e m\n:f",
            "nop | nop | a=0 b=0 d=0 e=1 c=1 f=2 ",
        ),
        (".rep 0\n:a nop\n.endr\n:b nop", "nop | b=0 "),
        (". set x , 1\n. rep x\n: a1 nop\n. endr", "nop | a1=0 "),
    ] {
        let found = shown(rt.alloc(), text)?;
        assert!(rt; found.as_str() == due, "{text}: {found}");
    }
    Ok(())
}

#[test]
fn bodies_are_run_with_their_parameters_replaced(rt: HostRuntime) -> Result<(), Fail> {
    for (text, due) in [
        (
            ".macro twice, d\nadd d, d, d\n.endm\ntwice r1",
            "add r1 , r1 , r1 | ",
        ),
        (
            ".macro m, p\n.p x, 5\n:p nop\n.endm\nm set\nldi r0, x",
            "nop | ldi r0 , 5 | set=0 ",
        ),
        (
            ".macro o, p\n.macro p, q\nadd q, q, p\n.endm\n.endm\no i\ni r1",
            "add r1 , r1 , i | ",
        ),
        (
            ".macro m, p\nldi r0, p * 2; also p\n.endm\nm 1 + 2",
            "ldi r0 , 5 ; also 3 | ",
        ),
        (
            ".macro a, x, y\nadd x, y, x\n.endm\n.macro b, y\na y + 1, r0.8a\n.endm\nb 4",
            "add 5 , r0 . 8a , 5 | ",
        ),
        (
            ".macro m, word\n.word 4294967298\nnop\n.endr\n.endm\nm rep",
            "nop | nop | ",
        ),
        (
            ". rep 2\n.rep 3\nnop\n.endr\n. endr",
            "nop | nop | nop | nop | nop | nop | ",
        ),
        (".macro m\n.rep 1\n.endm\nnop", "nop | "),
        (
            ".macro m, n\nnop\n.rep n\nm n - 1\n.endr\n.endm\nm 2",
            "nop | nop | nop | nop | nop | ",
        ),
        (
            ".set n, 3\n.rep n - 1\nnop\n.endr\n.rep 0\nfoo 1/0\n.endr",
            "nop | nop | ",
        ),
        (
            ".macro nop2\nnop\nnop\n.endm\n:a nop2\n:b nop2",
            "nop | nop | nop | nop | a=0 b=2 ",
        ),
    ] {
        let found = shown(rt.alloc(), text)?;
        assert!(rt; found.as_str() == due, "{text}: {found}");
    }
    Ok(())
}

/// The fault of a text.
fn fault(alloc: Global, text: &str) -> Result<AsmFault, Fail> {
    match expansion(alloc, text)? {
        Ok(_) => Err(Fail::from("a text with a fault")),
        Err(fault) => Ok(fault),
    }
}

#[test]
fn unknown_names_come_first(rt: HostRuntime) -> Result<(), Fail> {
    for (text, line, column) in [
        ("ldi r0, 1 + q", 1, 9),
        ("nop\n.set x, 1 + q", 2, 9),
        (".rep q\n.endr", 1, 6),
        (".rep q", 1, 6),
        ("add r0 - 5, r0, r0", 1, 5),
        ("ldi r0, 1/0; ldi r1, q + 1", 1, 22),
        ("ldi r0, 0 + x\n.set x, 1", 1, 9),
        (".macro m, p\nldi r0, p\n.endm\nm 1 + q", 2, 9),
        (".set x, 1\n.set x, q", 2, 9),
    ] {
        let due = AsmFault {
            kind: AsmKind::UnknownName,
            line,
            column,
        };
        assert!(rt; fault(rt.alloc(), text)? == due, "{text}");
    }
    Ok(())
}

#[test]
fn names_that_are_there_twice_are_refused(rt: HostRuntime) -> Result<(), Fail> {
    for (text, line, column) in [
        (".set x, 1\n.set x, 2", 2, 6),
        (":a nop\n:a nop", 2, 2),
        (":a nop\n:a .set y, 1", 2, 2),
        (".macro m\n.endm\n.macro m\n.endm", 3, 8),
        (".macro m, p, q, p\n.endm", 1, 17),
        (".rep 2\n:a nop\n.endr", 2, 2),
        (".macro m\n.set x, 1\n.endm\nm\nm", 2, 6),
        (".macro m\n.macro n\n.endm\n.endm\nm\nm", 2, 8),
        (".set x, 1\n.set x, 1/0", 2, 6),
        (".macro m\n.endm\n.macro m", 3, 8),
        (".set m, 1\n:m .macro m, m\n.endm\nm 1\n:m", 5, 2),
    ] {
        let due = AsmFault {
            kind: AsmKind::Twice,
            line,
            column,
        };
        assert!(rt; fault(rt.alloc(), text)? == due, "{text}");
    }
    Ok(())
}

#[test]
fn divisions_by_0_have_the_place_of_their_sign(rt: HostRuntime) -> Result<(), Fail> {
    for (text, line, column) in [
        ("ldi r0, 1 / 0", 1, 11),
        ("foo r0, 1/0", 1, 10),
        ("add 1/0, r0, r0", 1, 6),
        ("nop 1/0", 1, 6),
        ("ldi r0, 1 % (2 - 2) + 1 / 0", 1, 11),
        ("ldi r0, 1 / (1 / 0)", 1, 16),
        (".rep 1/0\n.endr", 1, 7),
        (".rep 1/0", 1, 7),
        (".set x, 5 % 0", 1, 11),
        (".macro m, p\nldi r0, 1 p\n.endm\nm / 0", 2, 11),
        ("ldi r0, 1 / 4294967295 / 2 ; nop 2 / (1 - 1)", 1, 36),
    ] {
        let due = AsmFault {
            kind: AsmKind::DivideByZero,
            line,
            column,
        };
        assert!(rt; fault(rt.alloc(), text)? == due, "{text}");
    }
    Ok(())
}

#[test]
fn repeats_have_a_shape_and_a_range(rt: HostRuntime) -> Result<(), Fail> {
    for (text, line, column) in [
        (".rep\n.endr", 1, 5),
        (".rep 1 2\n.endr", 1, 8),
        (".rep 1 +\n.endr", 1, 6),
        (".rep (1 2)\n.endr", 1, 6),
        (".rep 1)\n.endr", 1, 7),
        (".rep 2\nldi r0, 1/0", 1, 1),
        (" .rep 4097\nnop", 1, 2),
        ("nop\n  .endr", 2, 3),
        (".rep 1\n.endr 5", 2, 7),
        (".macro m\n.endr\n.endm\n.rep 1\nm", 4, 1),
        (".macro m, pp\n.pp\n.endr\n.endm\nm rep", 2, 4),
    ] {
        let due = AsmFault {
            kind: AsmKind::Shape,
            line,
            column,
        };
        assert!(rt; fault(rt.alloc(), text)? == due, "{text}");
    }
    for text in [".rep 4097\nnop\n.endr", ".rep -1\n.endr"] {
        let due = AsmFault {
            kind: AsmKind::Range,
            line: 1,
            column: 6,
        };
        assert!(rt; fault(rt.alloc(), text)? == due, "{text}");
    }
    Ok(())
}

#[test]
fn macros_have_a_shape(rt: HostRuntime) -> Result<(), Fail> {
    for (text, line, column) in [
        (".macro\n.endm", 1, 7),
        (".macro 5\n.endm", 1, 8),
        (".macro m p\n.endm", 1, 10),
        (".macro m,\n.endm", 1, 10),
        (" .macro m\nnop", 1, 2),
        ("nop\n.endm", 2, 1),
        (".macro m\n.endm x", 2, 7),
        (".macro m, p\n.endm\nm", 3, 1),
        (".macro m, p\n.endm\n:a m 1, 2", 3, 4),
        (".macro m, p\n.endm\nm ,", 3, 3),
        (".macro m, p\n.endm\nm 1,", 3, 5),
        (".macro m\n.endr\n.endm\nm", 2, 1),
    ] {
        let due = AsmFault {
            kind: AsmKind::Shape,
            line,
            column,
        };
        assert!(rt; fault(rt.alloc(), text)? == due, "{text}");
    }
    Ok(())
}

#[test]
fn malformed_lines_are_judged(rt: HostRuntime) -> Result<(), Fail> {
    for (text, kind, line, column) in [
        (".macro t, d, d x\n.endm", AsmKind::Twice, 1, 14),
        (".macro m\n.endm\n.macro m 5\n.endm", AsmKind::Twice, 3, 8),
        (".macro 5, d, d x\n.endm", AsmKind::Shape, 1, 8),
        (".foo; add r0, r0, 1/0", AsmKind::DivideByZero, 1, 20),
        (":a :b; add r0, r0, 1/0", AsmKind::DivideByZero, 1, 21),
        (":; nop 1/0", AsmKind::DivideByZero, 1, 9),
    ] {
        let due = AsmFault { kind, line, column };
        assert!(rt; fault(rt.alloc(), text)? == due, "{text}");
    }
    Ok(())
}

#[test]
fn malformed_lines_are_left_as_they_are(rt: HostRuntime) -> Result<(), Fail> {
    for (text, due) in [
        (
            ":a :b add r0, r0, 1/0",
            ": a : b add r0 , r0 , 1 / 0 | a=0 ",
        ),
        (".foo; nop 1 + 1", ". foo ; nop 1 + 1 | "),
        (".word 1; nop 1/0", ". word 1 ; nop 1 / 0 | "),
    ] {
        let found = shown(rt.alloc(), text)?;
        assert!(rt; found.as_str() == due, "{text}: {found}");
    }
    Ok(())
}

/// A text of a head, so many times a line, and a tail.
fn long_text(
    alloc: Global,
    head: &str,
    line: &str,
    times: u32,
    tail: &str,
) -> Result<String, Fail> {
    let mut text = String::from_str(alloc, head)?;
    for _ in 0..times {
        text.push_str(line)?;
    }
    text.push_str(tail)?;
    Ok(text)
}

/// 17 macros, of which each calls the one before it.
fn nested_macros(alloc: Global) -> Result<String, Fail> {
    let mut text = String::from_str(alloc, ".macro m1\nnop\n.endm\n")?;
    for n in 2_u32..18 {
        let before = n - 1;
        text.push_str(format!(in alloc; ".macro m{n}\nm{before}\n.endm\n")?.as_str())?;
    }
    text.push_str("m17\n")?;
    Ok(text)
}

#[test]
fn nesting_has_a_limit(rt: HostRuntime) -> Result<(), Fail> {
    let deep = |line, column| AsmFault {
        kind: AsmKind::TooDeep,
        line,
        column,
    };
    assert!(rt; fault(rt.alloc(), nested_macros(rt.alloc())?.as_str())? == deep(5, 1));
    assert!(rt; fault(rt.alloc(), ".macro m\n  m\n.endm\nm")? == deep(2, 3));
    let inside = long_text(rt.alloc(), "", ".rep 1\n", 16, "nop\n")?;
    let closed = long_text(rt.alloc(), inside.as_str(), ".endr\n", 16, "")?;
    assert!(rt; shown(rt.alloc(), closed.as_str())?.as_str() == "nop | ");
    let inside = long_text(rt.alloc(), "", ".rep 1\n", 16, " .rep 0\n")?;
    let closed = long_text(rt.alloc(), inside.as_str(), ".endr\n", 17, "")?;
    assert!(rt; fault(rt.alloc(), closed.as_str())? == deep(17, 2));
    Ok(())
}

#[test]
fn lines_words_and_tokens_have_limits(rt: HostRuntime) -> Result<(), Fail> {
    for (head, line, times, tail, place) in [
        (".rep 4096\nnop\n.endr\n  nop", "", 0, "", (4, 3)),
        (".rep 4096\nnop\n.endr\n", "", 0, ":a nop", (4, 1)),
        (".rep 4096\nnop\n.endr\n", "", 0, "ldi r0, 1/0", (4, 1)),
        (".rep 4096\n.rep 7\n\n.endr\n.endr", "", 0, "", (1, 1)),
        (".rep 4096\n", "\n", 15, ".endr\n", (16, 1)),
        (".rep 4096\n", "nop ", 256, "\n.endr", (2, 1013)),
        ("", "\n", 65_537, "", (65_537, 1)),
        ("", "nop\n", 4097, "", (4097, 1)),
        ("", "\n", 65_536, "nop", (65_537, 1)),
        (".rep 0\nnop\n.endr\n", "\n", 65_535, "", (65_538, 1)),
        (".rep 3\n.endr\n", "\n", 65_532, "", (65_534, 1)),
        (".macro m\n.endm\nm\n", "\n", 65_534, "", (65_537, 1)),
    ] {
        let text = long_text(rt.alloc(), head, line, times, tail)?;
        let (line, column) = place;
        let due = AsmFault {
            kind: AsmKind::TooLong,
            line,
            column,
        };
        assert!(rt; fault(rt.alloc(), text.as_str())? == due, "{head}{line}");
    }
    Ok(())
}

/// A macro of one line, so many times its parameter, and its call with so many tokens.
fn multiplied(
    alloc: Global,
    head: &str,
    parameters: u32,
    tail: &str,
    tokens: u32,
) -> Result<String, Fail> {
    let body = long_text(alloc, head, "p ", parameters, tail)?;
    long_text(alloc, body.as_str(), "a ", tokens, "\n")
}

/// Macros whose calls have eight times the tokens of their argument.
fn nested_arguments(alloc: Global) -> Result<String, Fail> {
    let mut text = String::from_str(alloc, ".macro m1, p\np p p p p p p p\n.endm\n")?;
    for n in 2_u32..9 {
        let before = n - 1;
        text.push_str(format!(in alloc;
            ".macro m{n}, p\nm{before} p p p p p p p p\n.endm\n"
        )?.as_str())?;
    }
    text.push_str("m8 a\n")?;
    Ok(text)
}

#[test]
fn arguments_are_counted_where_their_line_is_reached(rt: HostRuntime) -> Result<(), Fail> {
    let long = |line, column| AsmFault {
        kind: AsmKind::TooLong,
        line,
        column,
    };
    let text = multiplied(rt.alloc(), ".macro m, p\n", 1000, "\n.endm\nm ", 1100)?;
    assert!(rt; fault(rt.alloc(), text.as_str())? == long(2, 1905));
    let text = multiplied(
        rt.alloc(),
        ".macro a, q\n.endm\n.macro m, p\n",
        3000,
        "\n.endm\nm ",
        3000,
    )?;
    assert!(rt; fault(rt.alloc(), text.as_str())? == long(4, 697));
    let text = nested_arguments(rt.alloc())?;
    assert!(rt; fault(rt.alloc(), text.as_str())? == long(5, 8));
    let text = multiplied(
        rt.alloc(),
        ".macro m, p\n.rep 0\n",
        3000,
        "\n.endr\n.endm\nm ",
        3000,
    )?;
    assert!(rt; shown(rt.alloc(), text.as_str())?.as_str() == "");
    Ok(())
}

#[test]
fn texts_up_to_the_limits_are_expanded(rt: HostRuntime) -> Result<(), Fail> {
    for (head, line, times, words) in [
        ("", "\n", 65_536, 0),
        (".rep 4096\nnop\n.endr\n", "\n", 57_342, 4096),
        (".rep 0\nnop\n.endr\n", "\n", 65_534, 0),
        (".rep 3\n.endr\n", "\n", 65_531, 0),
        (".macro m\n.endm\nm\n", "\n", 65_533, 0),
        ("", "nop\n", 4096, 4096),
    ] {
        let text = long_text(rt.alloc(), head, line, times, "")?;
        let Ok(expanded) = expansion(rt.alloc(), text.as_str())? else {
            return Err(Fail::from("a text without a fault"));
        };
        assert!(rt; expanded.lines.len() == words, "{head}");
    }
    Ok(())
}

#[test]
fn the_least_fault_of_a_line_past_a_limit_comes_first(rt: HostRuntime) -> Result<(), Fail> {
    let text = ".rep 4096\nnop\n.endr\nldi r0, q + 1";
    let due = AsmFault {
        kind: AsmKind::UnknownName,
        line: 4,
        column: 9,
    };
    assert!(rt; fault(rt.alloc(), text)? == due);
    let text = ".set x, 1\n.rep 4096\nnop\n.endr\n:a nop\n:a nop";
    assert!(rt; fault(rt.alloc(), text)?.kind == AsmKind::TooLong);
    Ok(())
}

/// Kind, line and column of the tokens of the first line that is left.
fn places(alloc: Global, text: &str) -> Result<Vec<(TokenKind, u32, u32)>, Fail> {
    let Ok(expanded) = expansion(alloc, text)? else {
        return Err(Fail::from("a text without a fault"));
    };
    let mut places = Vec::new(alloc);
    if let Some(line) = expanded.lines.first() {
        for token in &line.tokens {
            places.push((token.kind, token.line, token.column))?;
        }
    }
    Ok(places)
}

#[test]
fn tokens_have_the_place_of_their_parameter(rt: HostRuntime) -> Result<(), Fail> {
    let found = places(
        rt.alloc(),
        ".macro m, pp\n foo pp, 1 + 2 # c\n.endm\nm ra0.8as",
    )?;
    let due = [
        (TokenKind::Name, 2, 2),
        (TokenKind::Name, 2, 6),
        (TokenKind::Punct, 2, 6),
        (TokenKind::Name, 2, 6),
        (TokenKind::Punct, 2, 8),
        (TokenKind::Number(3), 2, 10),
        (TokenKind::LineEnd, 2, 15),
    ];
    assert!(rt; found.as_slice() == due.as_slice());
    let found = places(
        rt.alloc(),
        ".macro n, q\nfoo q\n.endm\n.macro m, pp\nn 1, pp\n.endm\n.macro k, pp\n  n pp \n.endm\nk 5",
    )?;
    let due = [
        (TokenKind::Name, 2, 1),
        (TokenKind::Number(5), 2, 5),
        (TokenKind::LineEnd, 2, 6),
    ];
    assert!(rt; found.as_slice() == due.as_slice());
    Ok(())
}

#[test]
fn a_line_with_a_second_label_is_left_whole(rt: HostRuntime) -> Result<(), Fail> {
    let text = ":a :b nop";
    let found = places(rt.alloc(), text)?;
    let due = [
        (TokenKind::Punct, 1, 1),
        (TokenKind::Name, 1, 2),
        (TokenKind::Punct, 1, 4),
        (TokenKind::Name, 1, 5),
        (TokenKind::Name, 1, 7),
        (TokenKind::LineEnd, 1, 10),
    ];
    assert!(rt; found.as_slice() == due.as_slice());
    assert!(rt; shown(rt.alloc(), text)?.as_str() == ": a : b nop | a=0 ");
    Ok(())
}
