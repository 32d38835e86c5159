//! A job that is cut after each of its bytes.
use crate::asking::{RUN, answered};
use crate::jobs_memory::NOTHING;
use qpu_tool::Status;
use std::test::Fail;

/// What every output of a job that was accepted begins with.
const HEAD: &[u8] = b"qpurecord 2\njob ";

/// What the cut jobs without a line of data give after their text.
const EMPTY: &[u8] = b"schedule\nendrecord\nreport\nending done\nendreport\n";

#[test]
fn a_cut_line_has_no_shape_or_the_next_one_is_wanting(rt: HostRuntime) -> Result<(), Fail> {
    let alloc = rt.alloc();
    let rows: [(usize, usize, &[u8]); 4] = [
        (0, 7, b"refused job Line at line 1\n"),
        (8, 16, b"refused job Line at line 2\n"),
        (17, 24, b"refused job Line at line 3\n"),
        (28, 34, b"refused job Line at line 4\n"),
    ];
    for (first, last, line) in rows {
        for bytes in first..=last {
            let job = NOTHING.job.as_bytes().get(..bytes).unwrap_or(b"");
            let answer = answered(alloc, &RUN, job, &[], &[])?;
            assert!(rt; answer.status == Status::JobRefused, "{bytes} bytes");
            assert!(rt; answer.text.as_slice() == line, "{bytes} bytes");
        }
    }
    Ok(())
}

#[test]
fn a_cut_that_leaves_a_job_is_accepted(rt: HostRuntime) -> Result<(), Fail> {
    let alloc = rt.alloc();
    let rows: [(usize, &[u8], &[u8], &[u8]); 4] = [
        (25, b"25\n", b"\n", EMPTY),
        (26, b"26\n", b"\n", EMPTY),
        (27, b"27\n", b"", EMPTY),
        (35, b"35\n", b"\n", NOTHING.rest.as_bytes()),
    ];
    for (bytes, size, end, rest) in rows {
        let job = NOTHING.job.as_bytes().get(..bytes).unwrap_or(b"");
        let mut text = Vec::from_slice(alloc, HEAD)?;
        for part in [size, job, end, rest] {
            text.extend_from_slice(part)?;
        }
        let answer = answered(alloc, &RUN, job, &[], &[])?;
        assert!(rt; answer.status == Status::Done, "{bytes} bytes");
        assert!(rt; answer.text.as_slice() == text.as_slice(), "{bytes} bytes");
    }
    Ok(())
}
