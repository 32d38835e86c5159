use crate::{Job, JobFault, MOST_TEXT, Value, read_job};
use qpu_machine::Start;
use std::alloc::Global;
use std::test::Fail;

// The texts of these tests are short.
fn read(alloc: Global, text: &str) -> Result<Job, JobFault> {
    if text.len() > MOST_TEXT {
        return Err(JobFault::Memory);
    }
    read_job(alloc, text)
}

fn fails(alloc: Global, text: &str, fault: JobFault) -> bool {
    match read(alloc, text) {
        Ok(_) => false,
        Err(told) => told == fault,
    }
}

const WHOLE: &str =
    "qpujob 1\r\nmemory 4\nlimit 0xF4240\ndata 4 7 0xFFFFFFFF # c\nprogram first\r\n.word 1 # x\r\n\n  endprogram\nendprogram\r\nprogram second\nendprogram\ndata 4 8\nstart 11 second 0x10\nstart 0 first 4\n";

#[test]
fn a_whole_job(rt: HostRuntime) -> Result<(), Fail> {
    let job = read(rt.alloc(), WHOLE).ok().ok_or("the text is a job")?;
    assert!(rt; job.words == 4 && job.limit == 1_000_000);
    let values = [(1, 7), (2, 0xffff_ffff), (1, 8)];
    assert!(rt; job.values.len() == values.len());
    for (value, (at, number)) in job.values.iter().zip(values.iter()) {
        assert!(rt;
            *value
                == Value {
                    at: *at,
                    value: *number
                }
        );
    }
    let programs = [
        ("first", ".word 1 # x\r\n\n  endprogram\n", 6),
        ("second", "", 11),
    ];
    assert!(rt; job.programs.len() == programs.len());
    for (program, (name, text, line)) in job.programs.iter().zip(programs.iter()) {
        assert!(rt; program.name.as_str() == *name);
        assert!(rt; program.text.as_str() == *text);
        assert!(rt; program.line == *line);
    }
    let starts = [(11, 1, 16), (0, 0, 4)];
    assert!(rt; job.starts.len() == starts.len());
    for (start, (q, program, uniforms)) in job.starts.iter().zip(starts.iter()) {
        let expected = Start {
            q: *q,
            program: *program,
            uniforms: *uniforms,
        };
        assert!(rt; *start == expected);
    }
    Ok(())
}

// How many values, programs and starts.
const ACCEPTED: [(&str, u32, u32, usize, usize, usize); 9] = [
    ("qpujob 1\nmemory 2\nlimit 10", 2, 10, 0, 0, 0),
    (
        "\n# c\n\tqpujob \t1 \nmemory 0x0002 # two\r\nlimit 10 # c\r\n",
        2,
        10,
        0,
        0,
        0,
    ),
    (
        "qpujob 1\nmemory 000000000000000000000002\nlimit 0x0000000000000000000A\n",
        2,
        10,
        0,
        0,
        0,
    ),
    (
        "#\r\r\nqpujob 1#1\nmemory 1048576\nlimit 1000000\r\n",
        1_048_576,
        1_000_000,
        0,
        0,
        0,
    ),
    (
        "qpujob 1\nmemory 1\nlimit 0\ndata 0 0xabcdefAB\n\n",
        1,
        0,
        1,
        0,
        0,
    ),
    (
        "qpujob 1\nmemory 2\nlimit 10\nprogram 0x10\nendprogram\nprogram 12\nendprogram\nstart 0 12 0",
        2,
        10,
        0,
        2,
        1,
    ),
    (
        "qpujob 1\nmemory 2\nlimit 10\nprogram program\nendprogram\nprogram endprogram\nendprogram",
        2,
        10,
        0,
        2,
        0,
    ),
    (
        "qpujob 1\nmemory 2\nlimit 10\nprogram a\nqpujob 1\ndata 1\nendprogram\nstart 1 a 0\nstart 2 a 0\n",
        2,
        10,
        0,
        1,
        2,
    ),
    (
        "qpujob 1\nmemory 2\nlimit 10\nprogram abcdefghijklmnopqrstuvwxyz_ABC12\n#\nendprogram\r\n",
        2,
        10,
        0,
        1,
        0,
    ),
];

#[test]
fn jobs_are_accepted(rt: HostRuntime) -> Result<(), Fail> {
    for (text, words, limit, values, programs, starts) in &ACCEPTED {
        let job = read(rt.alloc(), *text).ok().ok_or("each text is a job")?;
        assert!(rt; job.words == *words && job.limit == *limit, "{text}");
        assert!(rt; job.values.len() == *values, "{text}");
        assert!(rt; job.programs.len() == *programs, "{text}");
        assert!(rt; job.starts.len() == *starts, "{text}");
    }
    Ok(())
}

const IN_ORDER: [(&str, JobFault); 12] = [
    ("", JobFault::Line(1)),
    ("qpujob 1", JobFault::Line(2)),
    ("qpujob 1\n", JobFault::Line(2)),
    ("qpujob 01\nmemory 2\nlimit 10\n", JobFault::Line(1)),
    ("qpujob 0x1\nmemory 2\nlimit 10\n", JobFault::Line(1)),
    ("\n# c\nqpujob 2\n", JobFault::Line(3)),
    ("qpujob 1\nmemo", JobFault::Line(2)),
    ("qpujob 1\nlimit 10\nmemory 2\n", JobFault::Line(2)),
    (
        "qpujob 1\nmemory 2\nmemory 2\nlimit 10\n",
        JobFault::Line(3),
    ),
    ("qpujob 1\nmemory 2\nlimit 10\r", JobFault::Line(3)),
    ("qpujob 1\nmemory 2\r\r\nlimit 10\n", JobFault::Line(2)),
    (
        "qpujob 1\nmemory 2\ndata 4 7\nlimit 10\n",
        JobFault::Line(3),
    ),
];

#[test]
fn lines_stand_in_order(rt: HostRuntime) {
    for (text, fault) in &IN_ORDER {
        assert!(rt; fails(rt.alloc(), *text, *fault), "{text}");
    }
}

const SHAPES: [(&str, JobFault); 12] = [
    ("qpujob 1\nmemory 4294967296\n", JobFault::Line(2)),
    ("qpujob 1\nmemory 0x\nlimit 10\n", JobFault::Line(2)),
    ("qpujob 1\nmemory 0X2\nlimit 10\n", JobFault::Line(2)),
    ("qpujob 1\nmemory 2\nlimit 0x100000000\n", JobFault::Line(3)),
    ("qpujob 1\nmemory 2\nlimit 10 10\n", JobFault::Line(3)),
    (
        "qpujob 1\nmemory 2\nlimit 10\ndata 9 4294967296\n",
        JobFault::Line(4),
    ),
    (
        "qpujob 1\nmemory 2\nlimit 10\nstart 0 a-b 0\n",
        JobFault::Line(4),
    ),
    (
        "qpujob 1\nmemory 2\nlimit 10\nprogram abcdefghijklmnopqrstuvwxyz_ABC123\nendprogram\n",
        JobFault::Line(4),
    ),
    (
        "qpujob 1\nmemory 2\nlimit 10\ndata 4\x0b7\n",
        JobFault::Line(4),
    ),
    (
        "qpujob 1\nmemory 2\nlimit 10\ndata 4 7 \0\n",
        JobFault::Line(4),
    ),
    ("qpujob 1\nmemory 2\nlimit 10\n\x0c\n", JobFault::Line(4)),
    (
        "qpujob 1\nmemory 2\nlimit 10\nprogram a b\n",
        JobFault::Line(4),
    ),
];

#[test]
fn lines_have_shapes(rt: HostRuntime) {
    for (text, fault) in &SHAPES {
        assert!(rt; fails(rt.alloc(), *text, *fault), "{text}");
    }
}

const VALUES: [(&str, JobFault); 12] = [
    ("qpujob 1\nmemory 0\nlimit 10\n", JobFault::Size(2)),
    ("qpujob 1\nmemory 1048577\nlimit 10\n", JobFault::Size(2)),
    ("qpujob 1\nmemory 2\nlimit 1000001\n", JobFault::Limit(3)),
    (
        "qpujob 1\nmemory 2\nlimit 10\ndata 2 7\n",
        JobFault::Place(4),
    ),
    (
        "qpujob 1\nmemory 2\nlimit 10\ndata 4 7 8\n",
        JobFault::Place(4),
    ),
    (
        "qpujob 1\nmemory 2\nlimit 10\ndata 4294967292 1 2\n",
        JobFault::Place(4),
    ),
    (
        "qpujob 1\nmemory 2\nlimit 10\nprogram a\nendprogram\nprogram a\nendprogram\n",
        JobFault::Twice(6),
    ),
    (
        "qpujob 1\nmemory 2\nlimit 10\nprogram a\nendprogram\nstart 0 a 0\nstart 0 a 0\n",
        JobFault::Twice(7),
    ),
    (
        "qpujob 1\nmemory 2\nlimit 10\nprogram a\nendprogram\nstart 3 a 0\nstart 3 x 0\n",
        JobFault::Twice(7),
    ),
    (
        "qpujob 1\nmemory 2\nlimit 10\nstart 12 x 0\n",
        JobFault::Processor(4),
    ),
    (
        "qpujob 1\nmemory 2\nlimit 10\nprogram a\n.word 0x100009e7009e7000\nendprogram\nstart 12 a 0\n",
        JobFault::Processor(7),
    ),
    (
        "qpujob 1\nmemory 2\nlimit 10\nstart 0 x 0\n",
        JobFault::NoProgram(4),
    ),
];

#[test]
fn values_are_in_their_ranges(rt: HostRuntime) {
    for (text, fault) in &VALUES {
        assert!(rt; fails(rt.alloc(), *text, *fault), "{text}");
    }
}

const PROGRAMS: [(&str, JobFault); 8] = [
    (
        "qpujob 1\nmemory 2\nlimit 10\nprogram a\n  endprogram\n",
        JobFault::Line(6),
    ),
    (
        "qpujob 1\nmemory 2\nlimit 10\nprogram a\nendprogram # x\n",
        JobFault::Line(6),
    ),
    (
        "qpujob 1\nmemory 2\nlimit 10\nprogram a\nendprogram\r",
        JobFault::Line(6),
    ),
    (
        "qpujob 1\nmemory 2\nlimit 10\nprogram a\n",
        JobFault::Line(5),
    ),
    ("qpujob 1\nmemory 2\nlimit 10\nprogram a", JobFault::Line(5)),
    (
        "qpujob 1\nmemory 2\nlimit 10\nstart 0 a 0\nprogram a\nendprogram\n",
        JobFault::NoProgram(4),
    ),
    (
        "qpujob 1\nmemory 2\nlimit 10\nprogram a\nprogram b\nendprogram\nendprogram\n",
        JobFault::Line(7),
    ),
    (
        "qpujob 1\nmemory 2\nlimit 10\nprogram a\nendprogram\nstart 0 a 0 0\n",
        JobFault::Line(6),
    ),
];

#[test]
fn programs_end_in_their_own_line(rt: HostRuntime) {
    for (text, fault) in &PROGRAMS {
        assert!(rt; fails(rt.alloc(), *text, *fault), "{text}");
    }
}

const SIXTEEN: &str =
    "qpujob 1\nmemory 2\nlimit 10\nprogram a\nendprogram\nprogram b\nendprogram\nprogram c\nendprogram\nprogram d\nendprogram\nprogram e\nendprogram\nprogram f\nendprogram\nprogram g\nendprogram\nprogram h\nendprogram\nprogram i\nendprogram\nprogram j\nendprogram\nprogram k\nendprogram\nprogram l\nendprogram\nprogram m\nendprogram\nprogram n\nendprogram\nprogram o\nendprogram\nprogram p\nendprogram\n";

#[test]
fn sixteen_programs_and_no_more(rt: HostRuntime) -> Result<(), Fail> {
    let job = read(rt.alloc(), SIXTEEN).ok().ok_or("the text is a job")?;
    assert!(rt; job.programs.len() == 16);
    for (last, fault) in [
        ("program q\nendprogram\n", JobFault::Limit(36)),
        ("program a\nendprogram\n", JobFault::Limit(36)),
        ("program q-\nendprogram\n", JobFault::Line(36)),
    ] {
        let mut text = String::from_str(rt.alloc(), SIXTEEN)?;
        text.push_str(last)?;
        assert!(rt; fails(rt.alloc(), text.as_str(), fault), "{last}");
    }
    Ok(())
}

const CUT: &str = "qpujob 1\nmemory 2\nlimit 10\ndata 4 7\n";

// The first line that fails where the text has so many bytes, or none.
fn failing_line(bytes: usize) -> Option<u32> {
    match bytes {
        0..=7 => Some(1),
        8..=16 => Some(2),
        17..=24 => Some(3),
        28..=34 => Some(4),
        _ => None,
    }
}

#[test]
fn a_job_cut_after_each_byte(rt: HostRuntime) -> Result<(), Fail> {
    for bytes in 0..=CUT.len() {
        let text = CUT.get(..bytes).ok_or("the text is ASCII")?;
        match failing_line(bytes) {
            None => assert!(rt; read(rt.alloc(), text).is_ok(), "{bytes}"),
            Some(line) => assert!(rt; fails(rt.alloc(), text, JobFault::Line(line)), "{bytes}"),
        }
    }
    Ok(())
}
