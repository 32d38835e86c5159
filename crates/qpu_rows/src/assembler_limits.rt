use qpu_asm::assemble;
use qpu_token::{AsmFault, AsmKind, MOST_BYTES};
use qpu_word::Word;
use std::alloc::Global;
use std::test::Fail;

/// How often 1 is doubled up to the bytes of the longest input of a command, 8,388,608.
const DOUBLINGS: usize = 23;

/// Words of the longest program.
const MOST_WORDS: usize = 4_096;

/// What a text comes to.
fn answer(alloc: Global, text: &str) -> Result<Vec<Word>, AsmFault> {
    if text.len() > MOST_BYTES {
        return Ok(Vec::new(alloc));
    }
    assemble(alloc, text)
}

/// So many times a text.
pub fn repeated(alloc: Global, text: &str, times: usize) -> Result<String, Fail> {
    let mut all = String::new(alloc);
    for _ in 0..times {
        all.push_str(text)?;
    }
    Ok(all)
}

/// A comment as long as the longest input of a command.
fn long_comment(alloc: Global) -> Result<String, Fail> {
    let mut text = String::from_str(alloc, "#")?;
    for _ in 0..DOUBLINGS {
        text = repeated(alloc, text.as_str(), 2)?;
    }
    Ok(text)
}

#[test]
fn a_long_comment_has_no_word(rt: HostRuntime) -> Result<(), Fail> {
    let text = long_comment(rt.alloc())?;
    let Ok(words) = answer(rt.alloc(), text.as_str()) else {
        return Err(Fail::from("a text of no words"));
    };
    assert!(rt; words.is_empty());
    Ok(())
}

#[test]
fn word_4097_is_one_too_many(rt: HostRuntime) -> Result<(), Fail> {
    let most = repeated(rt.alloc(), "nop\n", MOST_WORDS)?;
    let Ok(words) = answer(rt.alloc(), most.as_str()) else {
        return Err(Fail::from("a text of 4,096 words"));
    };
    assert!(rt; words.len() == MOST_WORDS);
    let more = repeated(rt.alloc(), "nop\n", MOST_WORDS + 1)?;
    let fault = answer(rt.alloc(), more.as_str()).err();
    let due = AsmFault {
        kind: AsmKind::TooLong,
        line: 4_097,
        column: 1,
    };
    assert!(rt; fault == Some(due));
    Ok(())
}

/// Macros of which each calls the one before it, and a call of the last.
pub fn nested_macros(alloc: Global, count: u32) -> Result<String, Fail> {
    let mut text = String::from_str(alloc, ".macro m1\nnop\n.endm\n")?;
    for i in 2..=count {
        let before = i - 1;
        text.push_str(format!(in alloc; ".macro m{i}\nm{before}\n.endm\n")?.as_str())?;
    }
    text.push_str(format!(in alloc; "m{count}\n")?.as_str())?;
    Ok(text)
}

#[test]
fn the_seventeenth_macro_is_too_deep(rt: HostRuntime) -> Result<(), Fail> {
    let sixteen = nested_macros(rt.alloc(), 16)?;
    let Ok(words) = answer(rt.alloc(), sixteen.as_str()) else {
        return Err(Fail::from("a text of one word"));
    };
    assert!(rt; words.len() == 1);
    let text = nested_macros(rt.alloc(), 17)?;
    let fault = answer(rt.alloc(), text.as_str()).err();
    let due = AsmFault {
        kind: AsmKind::TooDeep,
        line: 5,
        column: 1,
    };
    assert!(rt; fault == Some(due));
    Ok(())
}
