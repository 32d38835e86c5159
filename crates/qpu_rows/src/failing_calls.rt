//! Reads and writes that fail, each one that a run makes in turn.
use crate::asking::{RUN, answered};
use crate::jobs::{ASSEMBLED, ASSEMBLED_OUTPUT};
use qpu_tool::Status;
use std::test::Fail;

/// More reads and more writes than the run makes.
const MANY: u64 = 1_000;

#[test]
fn each_read_that_fails_is_told(rt: HostRuntime) -> Result<(), Fail> {
    let alloc = rt.alloc();
    for call in 0..MANY {
        let answer = answered(alloc, &RUN, ASSEMBLED, &[call], &[])?;
        if answer.status == Status::Done {
            assert!(rt; call > 1, "the job and its end are read");
            assert!(rt; answer.text.as_slice() == ASSEMBLED_OUTPUT, "read {call}");
            return Ok(());
        }
        assert!(rt; answer.status == Status::ReadFault, "read {call}");
        assert!(rt;
            answer.text.as_slice() == b"read fault\n".as_slice(),
            "read {call}"
        );
    }
    Err(Fail::from("a run without end"))
}

#[test]
fn each_write_that_fails_leaves_a_longer_front(rt: HostRuntime) -> Result<(), Fail> {
    let alloc = rt.alloc();
    let mut held = 0;
    for call in 0..MANY {
        let answer = answered(alloc, &RUN, ASSEMBLED, &[], &[call])?;
        if answer.status == Status::Done {
            assert!(rt; held > 0);
            assert!(rt; answer.text.as_slice() == ASSEMBLED_OUTPUT, "write {call}");
            return Ok(());
        }
        assert!(rt; answer.status == Status::WriteFault, "write {call}");
        assert!(rt;
            ASSEMBLED_OUTPUT.starts_with(answer.text.as_slice()),
            "write {call}"
        );
        assert!(rt; call == 0 || answer.text.len() > held, "write {call}");
        held = answer.text.len();
    }
    Err(Fail::from("a run without end"))
}
