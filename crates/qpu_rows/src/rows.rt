use crate::asking::{RUN, answered, answered_unread};
use crate::jobs::{
    ASSEMBLED, ASSEMBLED_OUTPUT, FIRST, FIRST_OUTPUT, SECOND, SECOND_OUTPUT, WITHOUT_END,
};
use qpu_tool::{MOST_INPUT, Status};
use std::alloc::{AllocError, Global};
use std::test::Fail;

#[test]
fn words_of_one_processor_give_their_record_and_report(rt: HostRuntime) -> Result<(), Fail> {
    let alloc = rt.alloc();
    let rows: [(&[u8], Status, &[u8]); 4] = [
        (ASSEMBLED, Status::Done, ASSEMBLED_OUTPUT),
        (FIRST, Status::Done, FIRST_OUTPUT),
        (SECOND, Status::Done, SECOND_OUTPUT),
        (
            WITHOUT_END,
            Status::JobRefused,
            b"refused job Line at line 10\n",
        ),
    ];
    for (job, status, text) in rows {
        let answer = answered(alloc, &RUN, job, &[], &[])?;
        assert!(rt; answer.status == status);
        assert!(rt; answer.text.as_slice() == text);
    }
    Ok(())
}

/// Whether the words are answered by the usage, with nothing read.
fn is_no_command(alloc: Global, words: &[&str]) -> Result<bool, AllocError> {
    match answered_unread(alloc, words)? {
        Some(answer) => {
            Ok(answer.status == Status::Usage && answer.text.as_slice() == b"usage\n".as_slice())
        }
        None => Ok(false),
    }
}

#[test]
fn other_words_are_no_command(rt: HostRuntime) -> Result<(), Fail> {
    let rows: [&[&str]; 12] = [
        &[],
        &["run"],
        &["run", "-w"],
        &["run", "-w", "1"],
        &["run", "-w", "00"],
        &["run", "-w", "0", "0"],
        &["Run", "-w", "0"],
        &["run", "0", "-w"],
        &["asm", "0"],
        &["Asm"],
        &["replay", "-w"],
        &["check", ""],
    ];
    for words in rows {
        assert!(rt; is_no_command(rt.alloc(), words)?);
    }
    Ok(())
}

#[test]
fn a_number_of_workers_that_is_none_is_no_command(rt: HostRuntime) -> Result<(), Fail> {
    for workers in ["13", "01", "-0", "0x0", " 0", ""] {
        assert!(rt;
            is_no_command(rt.alloc(), &["run", "-w", workers])?,
            "{workers}"
        );
    }
    Ok(())
}

#[test]
fn input_past_the_limit_is_too_long(rt: HostRuntime) -> Result<(), Fail> {
    let alloc = rt.alloc();
    let long = vec![in alloc; b'#'; MOST_INPUT as usize + 1]?;
    let past = answered(alloc, &RUN, &long, &[], &[])?;
    assert!(rt; past.status == Status::TooLong);
    assert!(rt; past.text.as_slice() == b"too long\n".as_slice());
    let whole = answered(alloc, &RUN, &long[1..], &[], &[])?;
    assert!(rt; whole.status == Status::JobRefused);
    Ok(())
}
