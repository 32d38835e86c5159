//! Jobs that are refused: each line of a refusal, and which comes first.
use crate::asking::{RUN, answered};
use qpu_tool::Status;
use std::alloc::{AllocError, Global};
use std::test::Fail;

/// The first lines of a job with the one program `a`.
const HEAD: &[u8] = b"qpujob 1\nmemory 16\nlimit 100\nprogram a\n";

/// Its last lines.
const TAIL: &[u8] = b"endprogram\nstart 0 a 0\n";

/// The first lines of a job of two words of memory.
const SMALL: &[u8] = b"qpujob 1\nmemory 2\nlimit 10\n";

/// Three texts in a row.
fn joined(alloc: Global, head: &[u8], body: &[u8], tail: &[u8]) -> Result<Vec<u8>, AllocError> {
    let mut text = Vec::from_slice(alloc, head)?;
    text.extend_from_slice(body)?;
    text.extend_from_slice(tail)?;
    Ok(text)
}

#[test]
fn a_line_without_shape_is_told(rt: HostRuntime) -> Result<(), Fail> {
    let alloc = rt.alloc();
    let rows: [(&[u8], &[u8]); 12] = [
        (b"", b"refused job Line at line 1\n"),
        (b"qpujob 1\nmemo", b"refused job Line at line 2\n"),
        (b"qpujob 01\n", b"refused job Line at line 1\n"),
        (b"qpujob 1\n", b"refused job Line at line 2\n"),
        (
            b"qpujob 1\nlimit 10\nmemory 2\n",
            b"refused job Line at line 2\n",
        ),
        (b"qpujob 1\nmemory 2", b"refused job Line at line 3\n"),
        (
            b"qpujob 1\nmemory 4294967296\nlimit 10\n",
            b"refused job Line at line 2\n",
        ),
        (
            b"qpujob 1\nmemory 2\nlimit 10\ndata 4",
            b"refused job Line at line 4\n",
        ),
        (
            b"qpujob 1\nmemory 2\nlimit 10\nprogram a\n.word 0\n",
            b"refused job Line at line 6\n",
        ),
        (
            b"qpujob 1\nmemory 2\nlimit 10\nprogram a-b\n",
            b"refused job Line at line 4\n",
        ),
        (
            b"qpujob 1\nmemory 2\nlimit 10\ndata 0 1\nstart 0 a\n",
            b"refused job Line at line 5\n",
        ),
        (
            b"# a comment\n\nqpujob 2\n",
            b"refused job Line at line 3\n",
        ),
    ];
    for (job, line) in rows {
        let answer = answered(alloc, &RUN, job, &[], &[])?;
        assert!(rt; answer.status == Status::JobRefused);
        assert!(rt; answer.text.as_slice() == line);
    }
    Ok(())
}

#[test]
fn what_a_line_asks_too_much_is_told(rt: HostRuntime) -> Result<(), Fail> {
    let alloc = rt.alloc();
    let rows: [(&[u8], &[u8]); 11] = [
        (
            b"qpujob 1\nmemory 0\nlimit 10\n",
            b"refused job Size at line 2\n",
        ),
        (
            b"qpujob 1\nmemory 1048577\nlimit 10\n",
            b"refused job Size at line 2\n",
        ),
        (
            b"qpujob 1\nmemory 2\nlimit 1000001\n",
            b"refused job Limit at line 3\n",
        ),
        (
            b"qpujob 1\nmemory 2\nlimit 10\nprogram a\nendprogram\nprogram b\nendprogram\nprogram c\nendprogram\nprogram d\nendprogram\nprogram e\nendprogram\nprogram f\nendprogram\nprogram g\nendprogram\nprogram h\nendprogram\nprogram i\nendprogram\nprogram j\nendprogram\nprogram k\nendprogram\nprogram l\nendprogram\nprogram m\nendprogram\nprogram n\nendprogram\nprogram o\nendprogram\nprogram p\nendprogram\nprogram q\nendprogram\n",
            b"refused job Limit at line 36\n",
        ),
        (
            b"qpujob 1\nmemory 2\nlimit 10\nprogram a\nendprogram\nstart 0 a 0\nprogram a\nendprogram\n",
            b"refused job Twice at line 7\n",
        ),
        (
            b"qpujob 1\nmemory 2\nlimit 10\nprogram a\nendprogram\nstart 0 a 0\nstart 0 b 0\n",
            b"refused job Twice at line 7\n",
        ),
        (
            b"qpujob 1\nmemory 2\nlimit 10\nprogram a\n.word 0\nendprogram\nstart 12 a 0\n",
            b"refused job Processor at line 7\n",
        ),
        (
            b"qpujob 1\nmemory 2\nlimit 10\nstart 0 a 0\nprogram a\nendprogram\n",
            b"refused job NoProgram at line 4\n",
        ),
        (
            b"qpujob 1\nmemory 2\nlimit 10\ndata 2 7\n",
            b"refused job Place at line 4\n",
        ),
        (
            b"qpujob 1\nmemory 2\nlimit 10\ndata 0 7\ndata 8 7\n",
            b"refused job Place at line 5\n",
        ),
        (
            b"qpujob 1\nmemory 2\nlimit 10\ndata 4 7 8\n",
            b"refused job Place at line 4\n",
        ),
    ];
    for (job, line) in rows {
        let answer = answered(alloc, &RUN, job, &[], &[])?;
        assert!(rt; answer.status == Status::JobRefused);
        assert!(rt; answer.text.as_slice() == line);
    }
    Ok(())
}

#[test]
fn a_fault_of_a_program_has_its_line_of_the_job(rt: HostRuntime) -> Result<(), Fail> {
    let alloc = rt.alloc();
    let rows: [(&[u8], &[u8]); 9] = [
        (b"foo r0\n", b"refused asm UnknownOp at line 5 column 1\n"),
        (b".word\n", b"refused asm Shape at line 5 column 6\n"),
        (b".word 1 2\n", b"refused asm Shape at line 5 column 9\n"),
        (
            b"# a comment\n\n.word 0x10000000000000000\n",
            b"refused asm NumberTooLarge at line 7 column 7\n",
        ),
        (
            b".word 0\nendprogram # not yet\n",
            b"refused asm UnknownOp at line 6 column 1\n",
        ),
        (
            b".word 0x10020827019e7280\nendprogram\nprogram b\nnop\nor r0, 1, 2\n",
            b"refused asm TwoImmediates at line 9 column 11\n",
        ),
        (
            b"nop\nendprogram\nprogram b\nbrr -, :x\nendprogram\nprogram c\n:x nop\n",
            b"refused asm Label at line 8 column 9\n",
        ),
        (
            b".macro twice, d\nadd d, d, e\n.endm\ntwice r1\n",
            b"refused asm Operands at line 6 column 11\n",
        ),
        (
            b".rep 4097\n.endr\n",
            b"refused asm Range at line 5 column 6\n",
        ),
    ];
    for (body, line) in rows {
        let job = joined(alloc, HEAD, body, TAIL)?;
        let answer = answered(alloc, &RUN, &job, &[], &[])?;
        assert!(rt; answer.status == Status::AsmRefused);
        assert!(rt; answer.text.as_slice() == line);
    }
    Ok(())
}

#[test]
fn lines_of_the_job_come_before_its_programs(rt: HostRuntime) -> Result<(), Fail> {
    let alloc = rt.alloc();
    let body = b"foo\nendprogram\nstart 0 a 0\nstart 12 a 0\nprogram b\n";
    let job = joined(alloc, HEAD, body, TAIL)?;
    let answer = answered(alloc, &RUN, &job, &[], &[])?;
    assert!(rt; answer.status == Status::JobRefused);
    assert!(rt; answer.text.as_slice() == b"refused job Processor at line 8\n".as_slice());
    Ok(())
}

#[test]
fn a_word_outside_the_profile_is_told(rt: HostRuntime) -> Result<(), Fail> {
    let alloc = rt.alloc();
    let rows: [(&[u8], &[u8]); 11] = [
        (
            b".word 0x100009e7009e7000\n.word 0x000009e7009e7000\n",
            b"refused word Signal in a at 1\n",
        ),
        (
            b".word 0x100009e7009e7000\n.word 0x10020827019e7280\n",
            b"refused word FloatOp in a at 1\n",
        ),
        (
            b".word 0x100009e7009e7000\n.word 0x10020827099e7000\n",
            b"refused word ReservedOp in a at 1\n",
        ),
        (
            b".word 0x100009e7009e7000\n.word 0x1002082715927d80\n",
            b"refused word ReadAddress in a at 1\n",
        ),
        (
            b".word 0x100009e7009e7000\n.word 0x10020927159e7000\n",
            b"refused word WriteAddress in a at 1\n",
        ),
        (
            b".word 0x100009e7009e7000\n.word 0x10820067159e7000\n",
            b"refused word Packing in a at 1\n",
        ),
        (
            b".word 0x100009e7009e7000\n.word 0xf0c809e7ffffffe0\n",
            b"refused word BranchCond in a at 1\n",
        ),
        (
            b".word 0x100009e7009e7000\n.word 0xe402082700000001\n",
            b"refused word LoadKind in a at 1\n",
        ),
        (
            b".word 0x100009e7009e7000\n.word 0xd00049e1809f1004\n",
            b"refused word Rotation in a at 1\n",
        ),
        (
            b".word 0x100009e7009e7000\n.word 0xe800082700000000\n",
            b"refused word SemaphoreTarget in a at 1\n",
        ),
        (
            b".word 0x100009e7009e7000\n.word 0x10020827159e7d80\n",
            b"refused word NoSource in a at 1\n",
        ),
    ];
    for (body, line) in rows {
        let job = joined(alloc, HEAD, body, TAIL)?;
        let answer = answered(alloc, &RUN, &job, &[], &[])?;
        assert!(rt; answer.status == Status::HazardRefused);
        assert!(rt; answer.text.as_slice() == line);
    }
    Ok(())
}

#[test]
fn a_rule_that_a_path_breaks_is_told(rt: HostRuntime) -> Result<(), Fail> {
    let alloc = rt.alloc();
    let rows: [(&[u8], &[u8]); 6] = [
        (
            b".word 0x10020827159a7d80\n.word 0xd00049e1809f1000\n.word 0xd00049e2809f0000\n.word 0x300009e7009e7000\n.word 0x100009e7009e7000\n.word 0x100009e7009e7000\n",
            b"refused hazard H3 in a at 1 after 0\n",
        ),
        (
            b".word 0x10020067159e7000\n.word 0x100208a715067d80\n.word 0x300009e7009e7000\n.word 0x100009e7009e7000\n.word 0x100009e7009e7000\n",
            b"refused hazard H1 in a at 1 after 0\n",
        ),
        (
            b".word 0xf0f809e700000008\n.word 0x100009e7009e7000\n.word 0x100009e7009e7000\n.word 0x10020067159e7000\n.word 0x100009e7009e7000\n.word 0x100208a715067d80\n.word 0x300009e7009e7000\n.word 0x100009e7009e7000\n.word 0x100009e7009e7000\n",
            b"refused hazard H1 in a at 5 after 3\n",
        ),
        (
            b".word 0x3002082715827d80\n.word 0x100009e7009e7000\n.word 0x100009e7009e7000\n",
            b"refused hazard H5 in a at 0 after 0\n",
        ),
        (
            b".word 0xf0f809e7ffffffe0\n.word 0x100009e7009e7000\n.word 0x100009e7009e7000\n",
            b"refused hazard H10 in a at 2 after 2\n",
        ),
        (b"", b"refused hazard H10 in a at 0 after 0\n"),
    ];
    for (body, line) in rows {
        let job = joined(alloc, HEAD, body, TAIL)?;
        let answer = answered(alloc, &RUN, &job, &[], &[])?;
        assert!(rt; answer.status == Status::HazardRefused);
        assert!(rt; answer.text.as_slice() == line);
    }
    Ok(())
}

#[test]
fn all_words_are_judged_before_all_paths(rt: HostRuntime) -> Result<(), Fail> {
    let alloc = rt.alloc();
    let rows: [(&[u8], &[u8]); 4] = [
        (
            b"program a\n.word 0x3002082715827d80\n.word 0x100009e7009e7000\n.word 0x100009e7009e7000\nendprogram\nprogram b\n.word 0x100009e7009e7000\n.word 0x100009e7009e7000\n.word 0x10020827019e7280\nendprogram\nstart 0 a 0\n",
            b"refused word FloatOp in b at 2\n",
        ),
        (
            b"program a\n.word 0x300009e7009e7000\n.word 0x100009e7009e7000\n.word 0x100009e7009e7000\nendprogram\nprogram never_started\n.word 0x3002082715827d80\n.word 0x100009e7009e7000\n.word 0x100009e7009e7000\nendprogram\nstart 0 a 0\n",
            b"refused hazard H5 in never_started at 0 after 0\n",
        ),
        (
            b"program a\n.word 0x100009e7009e7000\n.word 0x100009e7009e7000\n.word 0x10020827019e7280\nendprogram\nprogram b\n.word 0x000009e7009e7000\nendprogram\n",
            b"refused word FloatOp in a at 2\n",
        ),
        (
            b"program b\n.word 0x3002082715827d80\n.word 0x100009e7009e7000\n.word 0x100009e7009e7000\nendprogram\nprogram a\nendprogram\n",
            b"refused hazard H5 in b at 0 after 0\n",
        ),
    ];
    for (body, line) in rows {
        let job = joined(alloc, SMALL, body, b"")?;
        let answer = answered(alloc, &RUN, &job, &[], &[])?;
        assert!(rt; answer.status == Status::HazardRefused);
        assert!(rt; answer.text.as_slice() == line);
    }
    Ok(())
}

#[test]
fn a_byte_that_is_no_ascii_comes_before_all_lines(rt: HostRuntime) -> Result<(), Fail> {
    let alloc = rt.alloc();
    let rows: [(&[u8], &[u8]); 3] = [
        (b"\x80", b"not ascii at 0\n"),
        (b"qpujob 2\n\xc3\xa9\n", b"not ascii at 9\n"),
        (
            b"qpujob 1\nmemory 2\nlimit 10\n# \xff",
            b"not ascii at 29\n",
        ),
    ];
    for (job, line) in rows {
        let answer = answered(alloc, &RUN, job, &[], &[])?;
        assert!(rt; answer.status == Status::NotAscii);
        assert!(rt; answer.text.as_slice() == line);
    }
    Ok(())
}
