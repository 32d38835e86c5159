//! The command `replay`: records, and the report or the refusal that is written.
use crate::asking::{REPLAY, answered};
use crate::jobs::{ASSEMBLED_OUTPUT, FIRST_OUTPUT};
use crate::jobs_vpm::STORE_OF_64;
use qpu_tool::Status;
use std::alloc::{AllocError, Global};
use std::test::Fail;

/// A record of one processor and four words, up to its schedule.
const HEAD: &[u8] =
    b"qpurecord 2\njob 101\nqpujob 1\nmemory 16\nlimit 100\nprogram a\nldi r0, 0x12345678\nnop; thrend\nnop\nnop\nendprogram\nstart 0 a 0\nschedule\n";

/// The record of two processors that end, up to its schedule.
const TWO: &[u8] =
    b"qpurecord 2\njob 94\nqpujob 1\nmemory 16\nlimit 100\nprogram a\nnop; thrend\nnop\nnop\nendprogram\nstart 0 a 0\nstart 1 a 0\nschedule\n";

/// What is written of its machine.
const BOTH_ENDED: &[u8] =
    b"report\nqpu 0 ended executed 3 interrupts 0\nqpu 1 ended executed 3 interrupts 0\nending done\nendreport\n";

/// The lines of the report of the first record.
const REPORT: &[u8] =
    b"report\nqpu 0 ended executed 4 interrupts 0\nr0 12345678 12345678 12345678 12345678 12345678 12345678 12345678 12345678 12345678 12345678 12345678 12345678 12345678 12345678 12345678 12345678\nending done\nendreport\n";

/// Two texts, one behind the other.
fn behind(alloc: Global, head: &[u8], tail: &[u8]) -> Result<Vec<u8>, AllocError> {
    let mut text = Vec::from_slice(alloc, head)?;
    text.extend_from_slice(tail)?;
    Ok(text)
}

#[test]
fn what_a_run_writes_is_replayed(rt: HostRuntime) -> Result<(), Fail> {
    let alloc = rt.alloc();
    for output in [ASSEMBLED_OUTPUT, FIRST_OUTPUT] {
        let answer = answered(alloc, &REPLAY, output, &[], &[])?;
        assert!(rt; answer.status == Status::Done);
        assert!(rt; answer.text.as_slice() == REPORT);
    }
    Ok(())
}

#[test]
fn items_may_stand_in_any_permitted_order(rt: HostRuntime) -> Result<(), Fail> {
    let alloc = rt.alloc();
    let rows: [&[u8]; 4] = [
        b"q 0 3\nq 1 3\nendrecord\n",
        b"q 1 3\nq 0 3\nendrecord\n",
        b"q 0 1\nq 1 1\nq 0 2\nq 1 2\nendrecord\n",
        b"q 0 1\nq 0 1\nq 0 1\nq 1 1\nq 1 2\nendrecord",
    ];
    for items in rows {
        let record = behind(alloc, TWO, items)?;
        let answer = answered(alloc, &REPLAY, &record, &[], &[])?;
        assert!(rt; answer.status == Status::Done);
        assert!(rt; answer.text.as_slice() == BOTH_ENDED);
    }
    Ok(())
}

/// The record of a store of 64 rows, with its first line and its items.
fn store_record(alloc: Global, version: &[u8], items: &[u8]) -> Result<Vec<u8>, AllocError> {
    let mut text = behind(alloc, version, b"job ")?;
    text.extend_from_slice(STORE_OF_64.size.as_bytes())?;
    text.extend_from_slice(b"\n")?;
    text.extend_from_slice(STORE_OF_64.job.as_bytes())?;
    text.extend_from_slice(b"schedule\n")?;
    text.extend_from_slice(items)?;
    text.extend_from_slice(b"endrecord\n")?;
    Ok(text)
}

/// The report of that store's machine, which has nothing but zeros.
const STORED: &[u8] = b"report\nqpu 0 ended executed 5 interrupts 0\nending done\nendreport\n";

#[test]
fn a_record_of_version_1_counts_whole_transfers(rt: HostRuntime) -> Result<(), Fail> {
    let alloc = rt.alloc();
    let rows: [(&[u8], Status, &[u8]); 6] = [
        (b"q 0 2\ns 0 1\nq 0 3\n", Status::Done, STORED),
        (b"q 0 5\ns 0 1\n", Status::Done, STORED),
        (
            b"q 0 5\n",
            Status::RecordRefused,
            b"refused record not finished\n",
        ),
        (
            b"q 0 2\ns 0 64\nq 0 3\n",
            Status::RecordRefused,
            b"refused record item 2 step 2\n",
        ),
        (
            b"q 0 2\ns 0 1\nq 0 4\n",
            Status::RecordRefused,
            b"refused record item 3 step 4\n",
        ),
        (
            b"q 0 1\ns 0 1\n",
            Status::RecordRefused,
            b"refused record item 2 step 1\n",
        ),
    ];
    for (items, status, told) in rows {
        let record = store_record(alloc, b"qpurecord 1\n", items)?;
        let answer = answered(alloc, &REPLAY, &record, &[], &[])?;
        assert!(rt; answer.status == status);
        assert!(rt; answer.text.as_slice() == told);
    }
    Ok(())
}

#[test]
fn a_record_of_version_2_counts_rows(rt: HostRuntime) -> Result<(), Fail> {
    let alloc = rt.alloc();
    let rows: [(&[u8], Status, &[u8]); 4] = [
        (b"q 0 2\ns 0 64\nq 0 3\n", Status::Done, STORED),
        (b"q 0 2\ns 0 1\nq 0 3\ns 0 63\n", Status::Done, STORED),
        (
            b"q 0 2\ns 0 1\nq 0 3\n",
            Status::RecordRefused,
            b"refused record not finished\n",
        ),
        (
            b"q 0 2\ns 0 65\nq 0 3\n",
            Status::RecordRefused,
            b"refused record item 2 step 65\n",
        ),
    ];
    for (items, status, told) in rows {
        let record = store_record(alloc, b"qpurecord 2\n", items)?;
        let answer = answered(alloc, &REPLAY, &record, &[], &[])?;
        assert!(rt; answer.status == status);
        assert!(rt; answer.text.as_slice() == told);
    }
    let third = store_record(alloc, b"qpurecord 3\n", b"q 0 2\ns 0 64\nq 0 3\n")?;
    let answer = answered(alloc, &REPLAY, &third, &[], &[])?;
    assert!(rt; answer.status == Status::RecordRefused);
    assert!(rt; answer.text.as_slice() == b"refused record version\n".as_slice());
    Ok(())
}

#[test]
fn a_step_that_is_not_enabled_is_told(rt: HostRuntime) -> Result<(), Fail> {
    let alloc = rt.alloc();
    let rows: [(&[u8], &[u8]); 7] = [
        (b"endrecord\n", b"refused record not finished\n"),
        (b"q 0 3\nendrecord\n", b"refused record not finished\n"),
        (
            b"q 0 4\nq 0 4\nendrecord\n",
            b"refused record item 1 step 5\n",
        ),
        (b"q 1 1\nendrecord\n", b"refused record item 1 step 1\n"),
        (
            b"q 0 2\nl 0 1\nq 0 2\nendrecord\n",
            b"refused record item 2 step 1\n",
        ),
        (
            b"q 0 4\nt 0 1 3\nendrecord\n",
            b"refused record item 2 step 1\n",
        ),
        (
            b"q 0 1000000\nq 0 1000000\nendrecord\n",
            b"refused record item 1 step 5\n",
        ),
    ];
    for (items, line) in rows {
        let record = behind(alloc, HEAD, items)?;
        let answer = answered(alloc, &REPLAY, &record, &[], &[])?;
        assert!(rt; answer.status == Status::RecordRefused);
        assert!(rt; answer.text.as_slice() == line);
    }
    Ok(())
}

/// What the run of the first record writes, with other items in place of its one item.
fn output_with(alloc: Global, items: &[u8]) -> Result<Vec<u8>, AllocError> {
    let mut text = behind(alloc, HEAD, items)?;
    text.extend_from_slice(b"endrecord\n")?;
    text.extend_from_slice(REPORT)?;
    Ok(text)
}

#[test]
fn other_items_before_the_report_are_told(rt: HostRuntime) -> Result<(), Fail> {
    let alloc = rt.alloc();
    assert!(rt; output_with(alloc, b"q 0 4\n")?.as_slice() == ASSEMBLED_OUTPUT);
    let rows: [(&[u8], &[u8]); 9] = [
        (b"", b"refused record not finished\n"),
        (b"q 0 4\nq 0 4\n", b"refused record item 1 step 5\n"),
        (b"q 0 5\n", b"refused record item 1 step 5\n"),
        (b"q 3 1\n", b"refused record item 1 step 1\n"),
        (b"l 0 1\n", b"refused record item 1 step 1\n"),
        (b"q 0 0\n", b"refused record number at line 14\n"),
        (b"q 12 4\n", b"refused record number at line 14\n"),
        (b"t 0 2 1\n", b"refused record number at line 14\n"),
        (b"x 0 4\n", b"refused record line 14\n"),
    ];
    for (items, line) in rows {
        let text = output_with(alloc, items)?;
        let answer = answered(alloc, &REPLAY, &text, &[], &[])?;
        assert!(rt; answer.status == Status::RecordRefused);
        assert!(rt; answer.text.as_slice() == line);
    }
    Ok(())
}

#[test]
fn another_version_before_a_whole_record_is_told(rt: HostRuntime) -> Result<(), Fail> {
    let alloc = rt.alloc();
    let whole = ASSEMBLED_OUTPUT.strip_prefix(b"qpurecord 2\n");
    let rest = whole.ok_or("the output begins with its version")?;
    let text = behind(alloc, b"qpurecord 9\n", rest)?;
    let answer = answered(alloc, &REPLAY, &text, &[], &[])?;
    assert!(rt; answer.status == Status::RecordRefused);
    assert!(rt; answer.text.as_slice() == b"refused record version\n".as_slice());
    Ok(())
}

#[test]
fn another_report_is_told_by_its_first_line(rt: HostRuntime) -> Result<(), Fail> {
    let alloc = rt.alloc();
    let rows: [(&[u8], &[u8]); 6] = [
        (b"report\n", b"refused record report at line 17\n"),
        (b"\n", b"refused record report at line 16\n"),
        (b"report\nqpu 0 end", b"refused record report at line 17\n"),
        (
            b"report\nqpu 0 ended executed 4 interrupts 0\nr0 12345678 12345678 12345678 12345678 12345678 12345678 12345678 12345678 12345678 12345678 12345678 12345678 12345678 12345678 12345678 12345679\nending done\nendreport\n",
            b"refused record report at line 18\n",
        ),
        (
            b"report\nqpu 0 ended executed 4 interrupts 0\nr0 12345678 12345678 12345678 12345678 12345678 12345678 12345678 12345678 12345678 12345678 12345678 12345678 12345678 12345678 12345678 12345678\nending done\nendreport",
            b"refused record report at line 20\n",
        ),
        (
            b"report\nqpu 0 ended executed 4 interrupts 0\nr0 12345678 12345678 12345678 12345678 12345678 12345678 12345678 12345678 12345678 12345678 12345678 12345678 12345678 12345678 12345678 12345678\nending done\nendreport\n\n",
            b"refused record report at line 21\n",
        ),
    ];
    let record = behind(alloc, HEAD, b"q 0 4\nendrecord\n")?;
    for (rest, line) in rows {
        let text = behind(alloc, &record, rest)?;
        let answer = answered(alloc, &REPLAY, &text, &[], &[])?;
        assert!(rt; answer.status == Status::RecordRefused);
        assert!(rt; answer.text.as_slice() == line);
    }
    Ok(())
}

#[test]
fn a_text_that_is_no_record_is_told_by_its_line(rt: HostRuntime) -> Result<(), Fail> {
    let alloc = rt.alloc();
    let rows: [(&[u8], &[u8]); 11] = [
        (b"", b"refused record line 1\n"),
        (b"qpurecord 3", b"refused record version\n"),
        (b"qpurecord 1", b"refused record line 1\n"),
        (b"qpurecord 2", b"refused record line 1\n"),
        (b"qpurecord 2\n", b"refused record line 2\n"),
        (b"qpurecord 1\n", b"refused record line 2\n"),
        (b"qpurecord 1\njob 09\n", b"refused record line 2\n"),
        (b"qpurecord 1\njob 5\nabc\n", b"refused record line 2\n"),
        (
            b"qpurecord 1\njob 3\nabcschedule\n",
            b"refused record line 3\n",
        ),
        (
            b"qpurecord 1\njob 3\nabc\nschedule\nq 12 1\nendrecord\n",
            b"refused record number at line 5\n",
        ),
        (
            b"qpurecord 1\njob 3\nabc\nschedule\nq 0 04\nendrecord\n",
            b"refused record line 5\n",
        ),
    ];
    for (text, line) in rows {
        let answer = answered(alloc, &REPLAY, text, &[], &[])?;
        assert!(rt; answer.status == Status::RecordRefused);
        assert!(rt; answer.text.as_slice() == line);
    }
    Ok(())
}

#[test]
fn the_job_of_a_record_is_refused_as_a_job(rt: HostRuntime) -> Result<(), Fail> {
    let alloc = rt.alloc();
    let rows: [(&[u8], Status, &[u8]); 4] = [
        (
            b"qpurecord 1\njob 3\nabc\nschedule\nendrecord\n",
            Status::JobRefused,
            b"refused job Line at line 1\n",
        ),
        (
            b"qpurecord 1\njob 51\nqpujob 1\nmemory 2\nlimit 9\nprogram a\nfoo\nendprogram\nschedule\nendrecord\n",
            Status::AsmRefused,
            b"refused asm UnknownOp at line 5 column 1\n",
        ),
        (
            b"qpurecord 1\njob 51\nqpujob 1\nmemory 2\nlimit 9\nprogram a\nnop\nendprogram\nschedule\nendrecord\n",
            Status::HazardRefused,
            b"refused hazard H10 in a at 0 after 0\n",
        ),
        (
            b"qpurecord 1\njob 51\nqpujob 1\nmemory 2\nlimit 9\nprogram a\nnop\nendprogram\nschedule\nq 0\n",
            Status::RecordRefused,
            b"refused record line 10\n",
        ),
    ];
    for (text, status, line) in rows {
        let answer = answered(alloc, &REPLAY, text, &[], &[])?;
        assert!(rt; answer.status == status);
        assert!(rt; answer.text.as_slice() == line);
    }
    Ok(())
}

#[test]
fn faults_of_the_streams_are_told(rt: HostRuntime) -> Result<(), Fail> {
    let alloc = rt.alloc();
    let high = answered(alloc, &REPLAY, b"qpurecord 1\n\x80", &[], &[])?;
    assert!(rt; high.status == Status::NotAscii);
    assert!(rt; high.text.as_slice() == b"not ascii at 12\n".as_slice());
    let broken = answered(alloc, &REPLAY, ASSEMBLED_OUTPUT, &[0], &[])?;
    assert!(rt; broken.status == Status::ReadFault);
    let cut = answered(alloc, &REPLAY, ASSEMBLED_OUTPUT, &[], &[0])?;
    assert!(rt; cut.status == Status::WriteFault);
    assert!(rt; cut.text.is_empty());
    Ok(())
}
