//! Jobs whose programs are assembly text, and what the first of their refusals is.
use crate::{JobFault, MOST_TEXT, make_machine, read_job};
use qpu_hazard::CheckFault;
use qpu_token::{AsmFault, AsmKind};
use qpu_word::WordFault;
use std::alloc::Global;

/// The refusal of a text, or none where it has a machine.
fn refusal(alloc: Global, text: &str) -> Option<JobFault> {
    if text.len() > MOST_TEXT {
        return Some(JobFault::Memory);
    }
    let job = match read_job(alloc, text) {
        Ok(job) => job,
        Err(fault) => return Some(fault),
    };
    match make_machine(alloc, &job) {
        Ok(_) => None,
        Err(fault) => Some(fault),
    }
}

const ACCEPTED: [&str; 6] = [
    "qpujob 1\nmemory 1\nlimit 0\n",
    "qpujob 1\nmemory 1\nlimit 10\nprogram a\nldi r0, 0x12345678\nnop; thrend\nnop\nnop\nendprogram\nstart 0 a 0\n",
    "qpujob 1\nmemory 1\nlimit 10\nprogram a\n# a comment\n\n\tbrr -, :end # jumps\r\nnop\nnop\nnop\n\n:end\nnop; thrend\nnop\n  nop\n\nendprogram\nstart 11 a 0\n",
    "qpujob 1\nmemory 1\nlimit 10\nprogram a\n.macro twice, line\nline\nline\n.endm\nnop; thrend\ntwice nop\nendprogram\n",
    "qpujob 1\nmemory 1\nlimit 10\nprogram a\n.word 0x300009e7009e7000\n.rep 2\n.word 0x100009e7009e7000\n.endr\nendprogram\nstart 0 a 0\nstart 1 a 0\n",
    "qpujob 1\nmemory 1\nlimit 10\nprogram a\n:x nop; thrend\nnop\nnop\nendprogram\nprogram b\n:x nop; thrend\nnop\nnop\nendprogram\n",
];

#[test]
fn programs_are_assembled(rt: HostRuntime) {
    for text in &ACCEPTED {
        assert!(rt; refusal(rt.alloc(), *text).is_none(), "{text}");
    }
}

/// Jobs, and the kind, line and column of the fault that a program's text has.
const TEXTS: [(&str, AsmKind, u32, u32); 8] = [
    (
        "qpujob 1\nmemory 1\nlimit 10\nprogram a\nnop; thrend\nnop\nnop\nendprogram\nprogram b\nnop\n  frob r0\nendprogram\n",
        AsmKind::UnknownOp,
        11,
        3,
    ),
    (
        "qpujob 1\nmemory 1\nlimit 10\nprogram a\nfrob r0\nendprogram\n",
        AsmKind::UnknownOp,
        5,
        1,
    ),
    (
        "qpujob 1\n\n# c\nmemory 1\nlimit 10\nprogram a\r\n\r\n# c\r\nnop $\r\nendprogram\r\n",
        AsmKind::BadByte,
        9,
        5,
    ),
    (
        "qpujob 1\nmemory 1\nlimit 10\nprogram a\nnop\nfrob\nendprogram\nprogram b\nnop $\nendprogram\n",
        AsmKind::UnknownOp,
        6,
        1,
    ),
    (
        "qpujob 1\nmemory 1\nlimit 10\nprogram a\n.word 0x10020827019e7280\nendprogram\nprogram b\nnop\nfrob\nendprogram\n",
        AsmKind::UnknownOp,
        9,
        1,
    ),
    (
        "qpujob 1\nmemory 1\nlimit 10\nprogram a\n.macro twice, line\nline\nline\n.endm\nnop; thrend\ntwice nop\nendprogram\nprogram b\nnop; thrend\ntwice nop\nendprogram\n",
        AsmKind::UnknownOp,
        14,
        1,
    ),
    (
        "qpujob 1\nmemory 1\nlimit 10\nprogram a\nqpujob 1\nendprogram\n",
        AsmKind::UnknownOp,
        5,
        1,
    ),
    (
        "qpujob 1\nmemory 1\nlimit 10\nprogram a\n.rep 4096\nnop\n.endr\n\tnop\nendprogram\n",
        AsmKind::TooLong,
        8,
        2,
    ),
];

/// Jobs, and the program that is refused with why.
const CHECKS: [(&str, u32, CheckFault); 6] = [
    (
        "qpujob 1\nmemory 1\nlimit 10\nprogram a\nnop\nendprogram\nprogram b\nnop\n.word 0x10020827019e7280\nendprogram\n",
        1,
        CheckFault::Word(1, WordFault::FloatOp),
    ),
    (
        "qpujob 1\nmemory 1\nlimit 10\nprogram a\n.word 0x10020827019e7280\nendprogram\nprogram b\n.word 0\nendprogram\n",
        0,
        CheckFault::Word(0, WordFault::FloatOp),
    ),
    (
        "qpujob 1\nmemory 1\nlimit 10\nprogram a\nendprogram\n",
        0,
        CheckFault::Hazard {
            rule: 10,
            at: 0,
            before: 0,
        },
    ),
    (
        "qpujob 1\nmemory 1\nlimit 10\nprogram a\nnop\nnop\nendprogram\n",
        0,
        CheckFault::Hazard {
            rule: 10,
            at: 1,
            before: 1,
        },
    ),
    (
        "qpujob 1\nmemory 1\nlimit 10\nprogram a\nnop; thrend\nnop\nnop\nendprogram\nprogram b\nor ra1, r0, r0\n# c\nor r2, ra1, ra1\nnop; thrend\nnop\nnop\nendprogram\n",
        1,
        CheckFault::Hazard {
            rule: 1,
            at: 1,
            before: 0,
        },
    ),
    (
        "qpujob 1\nmemory 1\nlimit 10\nprogram a\nnop\nendprogram\nprogram b\nor ra1, r0, r0\nor r2, ra1, ra1\nendprogram\n",
        0,
        CheckFault::Hazard {
            rule: 10,
            at: 0,
            before: 0,
        },
    ),
];

#[test]
fn the_first_fault_of_a_text_is_told(rt: HostRuntime) {
    for (text, kind, line, column) in &TEXTS {
        let fault = AsmFault {
            kind: *kind,
            line: *line,
            column: *column,
        };
        assert!(rt;
            refusal(rt.alloc(), *text) == Some(JobFault::Asm(fault)),
            "{text}"
        );
    }
}

#[test]
fn words_are_checked_behind_all_texts(rt: HostRuntime) {
    for (text, program, fault) in &CHECKS {
        let refused = JobFault::Check {
            program: *program,
            fault: *fault,
        };
        assert!(rt; refusal(rt.alloc(), *text) == Some(refused), "{text}");
    }
}

#[test]
fn the_lines_of_the_job_come_first(rt: HostRuntime) {
    let text = "qpujob 1\nmemory 1\nlimit 10\nprogram a\nfrob\nendprogram\nstart 0 b 0\n";
    assert!(rt; refusal(rt.alloc(), text) == Some(JobFault::NoProgram(7)));
}
