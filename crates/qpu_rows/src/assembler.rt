use qpu_asm::assemble;
use qpu_token::MOST_BYTES;
use std::alloc::Global;
use std::test::Fail;

/// Whether a text comes to one word.
fn is_word(alloc: Global, text: &str, word: u64) -> bool {
    if text.len() > MOST_BYTES {
        return false;
    }
    match assemble(alloc, text) {
        Ok(words) => match words.as_slice() {
            [only] => only.0 == word,
            _ => false,
        },
        Err(_) => false,
    }
}

/// Whether a text comes to two words.
fn are_words(alloc: Global, text: &str, first: u64, second: u64) -> bool {
    if text.len() > MOST_BYTES {
        return false;
    }
    match assemble(alloc, text) {
        Ok(words) => match words.as_slice() {
            [a, b] => a.0 == first && b.0 == second,
            _ => false,
        },
        Err(_) => false,
    }
}

/// Words by hand.
#[test]
fn lines_of_the_first_table_give_their_words(rt: HostRuntime) -> Result<(), Fail> {
    for (text, word) in [
        ("nop", 0x100009e7009e7000),
        ("nop; thrend", 0x300009e7009e7000),
        ("nop; ldtmu0", 0xa00009e7009e7000),
        ("ldi r0, 0x12345678", 0xe002082712345678),
        ("ldi vw_setup, 0x00001a00", 0xe0021c6700001a00),
        ("or r0, unif, unif", 0x1002082715827d80),
        ("add r0, unif, unifb", 0x100208270c820dc0),
        ("add r1, r0, 4", 0xd00208670c9c41c0),
        ("sub.setf r3, r3, 1", 0xd00228e70d9c17c0),
    ] {
        assert!(rt; is_word(rt.alloc(), text, word), "{text}");
    }
    Ok(())
}

/// Words by hand.
#[test]
fn lines_of_the_second_table_give_their_words(rt: HostRuntime) -> Result<(), Fail> {
    for (text, word) in [
        ("or ra1, r0, r0", 0x10020067159e7000),
        ("or r2, ra1, ra1", 0x100208a715067d80),
        ("or vpm, r2, r2", 0x10020c27159e7480),
        ("or -, mutex_acq, mutex_acq", 0x100209e715ce7d80),
        ("nop; v8min r1, r0, r0; rot 1", 0xd00049e1809f1000),
        ("brr -, -32", 0xf0f809e7ffffffe0),
        ("brr.anynz -, -112", 0xf03809e7ffffff90),
        ("sinc 3", 0xe80009e700000003),
        ("sdec 3", 0xe80009e700000013),
    ] {
        assert!(rt; is_word(rt.alloc(), text, word), "{text}");
    }
    Ok(())
}

/// A condition says nothing where nothing is written; and other parts come in any order.
#[test]
fn a_condition_at_nowhere_is_dropped(rt: HostRuntime) -> Result<(), Fail> {
    for (text, word) in [
        ("add.ifz -, r1, r2", 0x100209e70c9e7280),
        ("nop; mul24.ifc.setf -, r1, r2", 0x100069e7409e700a),
        ("ldi.ifz -, 5", 0xe00009e700000005),
        ("ldi.ifn.setf -, 5; also.ifn r0", 0xe00129e000000005),
        (
            "nop; v8min r0, r1, r1; reada unif; rot 1",
            0xd00049e080831009,
        ),
        ("nop; readb unifb; reada unif; thrend", 0x300009e700820000),
        ("bra -, 0; reg ra1; link r0", 0xf0f429e000000000),
    ] {
        assert!(rt; is_word(rt.alloc(), text, word), "{text}");
    }
    Ok(())
}

/// Immediates.
#[test]
fn numbers_are_expressions(rt: HostRuntime) -> Result<(), Fail> {
    for (text, word) in [
        ("add r0, r0, 2 + 2 * 3", 0xd00208270c9c81c0),
        ("ldi r0, (1 << 4) | 0xF", 0xe00208270000001f),
        ("ldi r0, -1", 0xe0020827ffffffff),
        ("ldi r0, 7 - 9 / 2 % 3", 0xe002082700000006),
        ("ldi r0, ~0 ^ 0xf & 6 | 0x100", 0xe0020827fffffff9),
        ("ldi r0, 1 << 33 >> 1", 0xe002082700000001),
        ("ldi r0, - - 1 + ~-1", 0xe002082700000001),
        ("ldi r0, 0x80000000 * 2 - 1", 0xe0020827ffffffff),
    ] {
        assert!(rt; is_word(rt.alloc(), text, word), "{text}");
    }
    Ok(())
}

/// Immediates, and the numbers of branches, rotations and semaphores.
#[test]
fn more_numbers_are_expressions(rt: HostRuntime) -> Result<(), Fail> {
    for (text, word) in [
        ("ldi r0, 10 - 4 - 3", 0xe002082700000003),
        ("brr -, 8 * -4", 0xf0f809e7ffffffe0),
        ("bra -, 24", 0xf0f009e700000018),
        ("nop; v8min r0, r1, r1; rot 16 - 1", 0xd00049e0809ff009),
        ("sinc 3 * 5", 0xe80009e70000000f),
        ("sdec 0x3", 0xe80009e700000013),
    ] {
        assert!(rt; is_word(rt.alloc(), text, word), "{text}");
    }
    Ok(())
}

/// A row as a target, `mov`, and names of both units.
#[test]
fn operations_are_moved_and_shared(rt: HostRuntime) -> Result<(), Fail> {
    for (text, word) in [
        ("brr r0, ra5", 0xf0fca82700000000),
        ("bra.anync -, ra31; link rb0", 0xf0b7e9c000000000),
        ("mov r0, r1", 0x10020827159e7240),
        ("mov.ifz.setf ra0.8a, ra1.8b", 0x1a44202715067d80),
        ("mov r0, 5", 0xd0020827159c5fc0),
        ("nop; mov r0, r1", 0x100049e0809e7009),
        ("mov r0, r1; mov r1, r2", 0x10024821959e7252),
        ("nop; mov r0, r1; rot r5", 0xd00049e0809f0009),
        ("or r0, unif, unif; reada unif", 0x1002082715827d80),
        ("or r0, qpu_num, r0; readb qpu_num", 0x10020827159e6e00),
    ] {
        assert!(rt; is_word(rt.alloc(), text, word), "{text}");
    }
    Ok(())
}

/// Idle units, and names that both units have.
#[test]
fn idle_units_and_names_of_both(rt: HostRuntime) -> Result<(), Fail> {
    for (text, word) in [
        ("nop; nop", 0x100009e7009e7000),
        ("nop; nop; thrend", 0x300009e7009e7000),
        ("v8adds r0, r1, r2", 0x100208271e9e7280),
        ("v8subs r0, r1, r2", 0x100208271f9e7280),
        ("nop; v8adds r0, r1, r2", 0x100049e0c09e700a),
        ("v8subs r0, r1, r2; v8subs r1, r3, r4", 0x10024821ff9e729c),
    ] {
        assert!(rt; is_word(rt.alloc(), text, word), "{text}");
    }
    Ok(())
}

/// Blanks, comments, carriage returns, cases of digits, leading zeros.
#[test]
fn tokens_have_their_freedoms(rt: HostRuntime) -> Result<(), Fail> {
    for (text, word) in [
        ("\tor  ra0 .16a ,r1,r1 # x; $", 0x10120027159e7240),
        ("or ra0.8as,r1,r1;thrend\r\n\r\n", 0x30c20027159e7240),
        ("ldi r0, 0xAbCdEf01", 0xe0020827abcdef01),
        ("ldi r0, 0010", 0xe00208270000000a),
        ("ldi r0, 0x000000000001", 0xe002082700000001),
        ("ldi r0, 4294967295", 0xe0020827ffffffff),
        ("or.ifz. setf r0,r1,r2", 0x10042827159e7280),
    ] {
        assert!(rt; is_word(rt.alloc(), text, word), "{text}");
    }
    Ok(())
}

/// Labels, macros and repeats over two words.
#[test]
fn two_lines_give_their_words(rt: HostRuntime) -> Result<(), Fail> {
    for (text, first, second) in [
        ("brr -, :b\nnop\n:b", 0xf0f809e7fffffff0, 0x100009e7009e7000),
        ("nop\n:a bra -, :a", 0x100009e7009e7000, 0xf0f009e700000008),
        (
            ":add add r0, r1, r2\nbra -, :add",
            0x100208270c9e7280,
            0xf0f009e700000000,
        ),
        (
            ".set r5, 3\nnop; mov r0, r0; rot r5\nnop; mov r0, r0; rot (r5)",
            0xd00049e0809f0000,
            0xd00049e0809f3000,
        ),
    ] {
        assert!(rt; are_words(rt.alloc(), text, first, second), "{text}");
    }
    Ok(())
}

/// Names that are set, macros, and words as they stand.
#[test]
fn what_is_set_called_and_repeated(rt: HostRuntime) -> Result<(), Fail> {
    for (text, word) in [
        (":a brr -, :a", 0xf0f809e7ffffffe0),
        ("bra -, :end\n:end", 0xf0f009e700000008),
        (":a\n:b\n\nnop", 0x100009e7009e7000),
        (".word 18446744073709551615", 0xffffffffffffffff),
        (":w .word 0x10020827019e7280", 0x10020827019e7280),
        (
            ".set x, 3\n.set y, x * x\nldi r0, y - 1",
            0xe002082700000008,
        ),
        (".set x, 3\nadd r0, r0, x", 0xd00208270c9c31c0),
        (".set r0, 5\nadd r1, r0, (r0)", 0xd00208670c9c51c0),
        (
            ".macro twice, d\nadd d, d, d\n.endm\ntwice r1",
            0x100208670c9e7240,
        ),
        (
            ".macro m, op, s, d\nop.s d, r1, r2\n.endm\n:x m add, ifz, ra0.8a",
            0x104400270c9e7280,
        ),
    ] {
        assert!(rt; is_word(rt.alloc(), text, word), "{text}");
    }
    Ok(())
}
