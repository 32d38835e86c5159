use crate::{AsmFault, AsmKind, Token, TokenKind, tokens};
use std::test::Fail;

/// A line end in a table of tokens, and a sign.
const END: TokenKind = TokenKind::LineEnd;

const SIGN: TokenKind = TokenKind::Punct;

fn token(kind: TokenKind, from: usize, to: usize, line: u32, column: u32) -> Token {
    Token {
        kind,
        from,
        to,
        line,
        column,
    }
}

#[test]
fn tokens_have_their_bytes_and_places(rt: HostRuntime) -> Result<(), Fail> {
    let text = "ra0.8as,\t0x1F # 7\r\n.word 18446744073709551615<<_\r\nx";
    let Ok(found) = tokens(rt.alloc(), text) else {
        return Err(Fail::from("a text with tokens"));
    };
    let due = [
        token(TokenKind::Name, 0, 3, 1, 1),
        token(SIGN, 3, 4, 1, 4),
        token(TokenKind::Name, 4, 7, 1, 5),
        token(SIGN, 7, 8, 1, 8),
        token(TokenKind::Number(31), 9, 13, 1, 10),
        token(END, 18, 19, 1, 19),
        token(SIGN, 19, 20, 2, 1),
        token(TokenKind::Name, 20, 24, 2, 2),
        token(TokenKind::Number(u64::MAX), 25, 45, 2, 7),
        token(SIGN, 45, 47, 2, 27),
        token(TokenKind::Name, 47, 48, 2, 29),
        token(END, 48, 50, 2, 30),
        token(TokenKind::Name, 50, 51, 3, 1),
        token(END, 51, 51, 3, 2),
    ];
    assert!(rt; found.as_slice() == due.as_slice());
    Ok(())
}

#[test]
fn names_directly_behind_numbers_are_tokens(rt: HostRuntime) -> Result<(), Fail> {
    let Ok(found) = tokens(rt.alloc(), "0xg 12ab 0x1g 0X1 0x") else {
        return Err(Fail::from("a text with tokens"));
    };
    let due = [
        token(TokenKind::Number(0), 0, 1, 1, 1),
        token(TokenKind::Name, 1, 3, 1, 2),
        token(TokenKind::Number(12), 4, 6, 1, 5),
        token(TokenKind::Name, 6, 8, 1, 7),
        token(TokenKind::Number(1), 9, 12, 1, 10),
        token(TokenKind::Name, 12, 13, 1, 13),
        token(TokenKind::Number(0), 14, 15, 1, 15),
        token(TokenKind::Name, 15, 17, 1, 16),
        token(TokenKind::Number(0), 18, 19, 1, 19),
        token(TokenKind::Name, 19, 20, 1, 20),
        token(END, 20, 20, 1, 21),
    ];
    assert!(rt; found.as_slice() == due.as_slice());
    Ok(())
}

#[test]
fn the_first_fault_of_a_text_is_answered(rt: HostRuntime) -> Result<(), Fail> {
    for (text, kind, line, column) in [
        ("ldi r0, 4294967296", AsmKind::NumberTooLarge, 1, 9),
        (".word 18446744073709551616", AsmKind::NumberTooLarge, 1, 7),
        (".word 1 4294967296", AsmKind::NumberTooLarge, 1, 9),
        ("a\n 0xfffffffff @", AsmKind::BadByte, 2, 14),
        ("0xfffffffff\n@", AsmKind::NumberTooLarge, 1, 1),
        ("a < b", AsmKind::BadByte, 1, 3),
        ("nop\r", AsmKind::BadByte, 1, 4),
    ] {
        let fault = tokens(rt.alloc(), text).err();
        assert!(rt; fault == Some(AsmFault { kind, line, column }), "{text}");
    }
    assert!(rt; tokens(rt.alloc(), "").is_ok() && tokens(rt.alloc(), "0x # @\r").is_ok());
    Ok(())
}
