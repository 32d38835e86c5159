//! Words that are written and read again. The words come from the table of worked words, or are words
//! that aren't canonical.
use crate::read_back;
use qpu_word::Word;
use std::test::Fail;

#[test]
fn worked_words_come_back(rt: HostRuntime) -> Result<(), Fail> {
    let words = [
        Word(0x100009e7009e7000),
        Word(0x300009e7009e7000),
        Word(0xe002082712345678),
        Word(0x100208270c820dc0),
        Word(0xd00228e70d9c17c0),
        Word(0xd00049e1809f1000),
        Word(0xf0f809e7ffffffe0),
        Word(0xf03809e7ffffff90),
        Word(0xe80009e700000013),
        Word(0x100009e7009e7001),
        Word(0x0000000000000000),
        Word(0xffffffffffffffff),
    ];
    let again = read_back(rt.alloc(), &words).map_err(|_| "memory")?;
    assert!(rt; again.as_slice() == words.as_slice());
    Ok(())
}

#[test]
fn no_words_come_back(rt: HostRuntime) -> Result<(), Fail> {
    let again = read_back(rt.alloc(), &[]).map_err(|_| "memory")?;
    assert!(rt; again.is_empty());
    Ok(())
}
