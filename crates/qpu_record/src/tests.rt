use crate::{Items, MOST_TEXT, RecordFault, RecordParts, Version, read_record};
use qpu_machine::{Actor, Run, Runs};
use std::test::Fail;

// What a text with a record has; the texts of these tests are short.
fn read(text: &str) -> Option<Result<RecordParts<'_>, RecordFault>> {
    if text.len() > MOST_TEXT {
        return None;
    }
    Some(read_record(text))
}

fn parts(text: &str) -> Option<RecordParts<'_>> {
    read(text)?.ok()
}

fn fails(text: &str, fault: RecordFault) -> bool {
    match read(text) {
        Some(Err(told)) => told == fault,
        _ => false,
    }
}

fn counted(items: Items<'_>) -> usize {
    let mut items = items;
    for count in 0..MOST_TEXT {
        if items.next().is_none() {
            return count;
        }
    }
    MOST_TEXT
}

const WHOLE: &str =
    "qpurecord 2\njob 9\nqpujob\n12\nschedule\nq 0 4\nq 0 1000000\nl 11 1\ns 3 2\nt 5 1 3\nt 5 0 1\nt 5 0 1\nq 0 1\nendrecord\nreport\nend";

#[test]
fn a_whole_record(rt: HostRuntime) -> Result<(), Fail> {
    let mut parts = parts(WHOLE).ok_or("the text has a record")?;
    assert!(rt; parts.version == Version::Second);
    assert!(rt; parts.job == "qpujob\n12");
    assert!(rt; parts.rest == "report\nend");
    assert!(rt; parts.rest_line == 15);
    let runs = [
        (Actor::Exec(0), 1_000_004),
        (Actor::Load(11), 1),
        (Actor::Store(3), 2),
        (Actor::Fetch(5, 1), 3),
        (Actor::Fetch(5, 0), 2),
        (Actor::Exec(0), 1),
    ];
    for (actor, count) in &runs {
        let expected = Run {
            actor: *actor,
            count: *count,
        };
        assert!(rt; parts.items.next() == Some(expected));
    }
    assert!(rt; parts.items.next() == None);
    assert!(rt; parts.items.next() == None);
    Ok(())
}

// The version, the job, how many runs, the rest and its line.
const ACCEPTED: [(&str, Version, &str, usize, &str, u32); 8] = [
    (
        "qpurecord 1\njob 1\na\nschedule\nendrecord\n",
        Version::First,
        "a",
        0,
        "",
        6,
    ),
    (
        "qpurecord 2\njob 2\na\nschedule\nendrecord",
        Version::Second,
        "a\n",
        0,
        "",
        6,
    ),
    (
        "qpurecord 1\njob 0\n\nschedule\nendrecord\n",
        Version::First,
        "",
        0,
        "",
        6,
    ),
    (
        "qpurecord 2\njob 1\n\nschedule\nendrecord\n\n",
        Version::Second,
        "\n",
        0,
        "\n",
        6,
    ),
    (
        "qpurecord 1\njob 18\nschedule\nendrecord\nschedule\nq 11 1\nendrecord\nq",
        Version::First,
        "schedule\nendrecord",
        1,
        "q",
        8,
    ),
    (
        "qpurecord 2\njob 2\n\r\nschedule\nt 0 0 1\nt 0 1 1\nt 0 1 9\nendrecord\nendrecord\n",
        Version::Second,
        "\r\n",
        2,
        "endrecord\n",
        9,
    ),
    (
        "qpurecord 1\njob 2\nä\nschedule\nq 1 1\nl 1 1\ns 1 1\nq 1 1\nendrecord\nä",
        Version::First,
        "ä",
        4,
        "ä",
        10,
    ),
    (
        "qpurecord 2\njob 3\n\n\n\nschedule\nq 0 1\nq 1 1\nendrecord\n",
        Version::Second,
        "\n\n\n",
        2,
        "",
        10,
    ),
];

#[test]
fn records_are_accepted(rt: HostRuntime) -> Result<(), Fail> {
    for (text, version, job, runs, rest, line) in &ACCEPTED {
        let parts = parts(*text).ok_or("each text has a record")?;
        assert!(rt; parts.version == *version, "{text}");
        assert!(rt; parts.job == *job, "{text}");
        assert!(rt; parts.rest == *rest, "{text}");
        assert!(rt; parts.rest_line == *line, "{text}");
        assert!(rt; counted(parts.items) == *runs, "{text}");
    }
    Ok(())
}

const HEADINGS: [(&str, RecordFault); 12] = [
    ("", RecordFault::Line(1)),
    ("qpurecord", RecordFault::Line(1)),
    ("qpurecord\n", RecordFault::Line(1)),
    ("\nqpurecord 1\n", RecordFault::Line(1)),
    ("Qpurecord 1\n", RecordFault::Line(1)),
    ("qpurecord 1", RecordFault::Line(1)),
    ("qpurecord ", RecordFault::Version),
    ("qpurecord 9", RecordFault::Version),
    ("qpurecord 01\njob 0\n", RecordFault::Version),
    ("qpurecord 1 \njob 0\n", RecordFault::Version),
    ("qpurecord 1\r\njob 0\n", RecordFault::Version),
    ("qpurecord 10\n", RecordFault::Version),
];

const VERSIONS: [(&str, RecordFault); 12] = [
    ("qpurecord 2", RecordFault::Line(1)),
    ("qpurecord 2\n", RecordFault::Line(2)),
    ("qpurecord 3", RecordFault::Version),
    ("qpurecord 3\njob 0\n", RecordFault::Version),
    ("qpurecord 9\njob 0\n", RecordFault::Version),
    ("qpurecord 0\njob 0\n", RecordFault::Version),
    ("qpurecord 02\njob 0\n", RecordFault::Version),
    ("qpurecord 2 ", RecordFault::Version),
    ("qpurecord 2 \njob 0\n", RecordFault::Version),
    ("qpurecord 2\r\njob 0\n", RecordFault::Version),
    ("qpurecord 12\n", RecordFault::Version),
    ("qpurecord  2\n", RecordFault::Version),
];

#[test]
fn versions_are_told(rt: HostRuntime) {
    for (text, fault) in HEADINGS.iter().chain(VERSIONS.iter()) {
        assert!(rt; fails(*text, *fault), "{text}");
    }
}

const SIZES: [(&str, RecordFault); 12] = [
    ("qpurecord 1\n", RecordFault::Line(2)),
    ("qpurecord 1\njob 0", RecordFault::Line(2)),
    ("qpurecord 1\njob \n\n", RecordFault::Line(2)),
    ("qpurecord 1\njob 01\na\n", RecordFault::Line(2)),
    ("qpurecord 1\njob 00\n\n", RecordFault::Line(2)),
    ("qpurecord 1\njob 1 \na\n", RecordFault::Line(2)),
    ("qpurecord 1\njob +1\na\n", RecordFault::Line(2)),
    ("qpurecord 1\njob 1\r\na\n", RecordFault::Line(2)),
    ("qpurecord 1\njob 2\na", RecordFault::Line(2)),
    ("qpurecord 1\njob 1\n", RecordFault::Line(2)),
    (
        "qpurecord 1\njob 18446744073709551617\na\nschedule\nendrecord\n",
        RecordFault::Line(2),
    ),
    ("qpurecord 1\nJob 1\na\n", RecordFault::Line(2)),
];

#[test]
fn sizes_are_told(rt: HostRuntime) {
    for (text, fault) in &SIZES {
        assert!(rt; fails(*text, *fault), "{text}");
    }
}

const JOBS: [(&str, RecordFault); 12] = [
    ("qpurecord 2\njob 0\n", RecordFault::Line(3)),
    ("qpurecord 2\njob 0\nschedule\n", RecordFault::Line(3)),
    ("qpurecord 2\njob 1\na", RecordFault::Line(3)),
    ("qpurecord 2\njob 1\nab\nschedule\n", RecordFault::Line(3)),
    ("qpurecord 2\njob 1\na\r\nschedule\n", RecordFault::Line(3)),
    ("qpurecord 2\njob 4\na\nb\nc", RecordFault::Line(5)),
    ("qpurecord 2\njob 3\na\nb\nc", RecordFault::Line(5)),
    ("qpurecord 2\njob 3\na\nbc\n", RecordFault::Line(4)),
    ("qpurecord 2\njob 2\na\n", RecordFault::Line(4)),
    (
        "qpurecord 2\njob 2\na\n\nschedule\nendrecord\n",
        RecordFault::Line(4),
    ),
    (
        "qpurecord 2\njob 1\nä\nschedule\nendrecord\n",
        RecordFault::Line(3),
    ),
    ("qpurecord 2\njob 1\na\n", RecordFault::Line(4)),
];

#[test]
fn jobs_end_in_their_own_line(rt: HostRuntime) {
    for (text, fault) in &JOBS {
        assert!(rt; fails(*text, *fault), "{text}");
    }
}

const HEAD: &str = "qpurecord 2\njob 4\na\nb\nschedule\n";

// What follows the line `schedule`, which is the fifth.
const ITEMS: [(&str, RecordFault); 12] = [
    ("", RecordFault::Line(6)),
    ("endrecord\r\n", RecordFault::Line(6)),
    ("endrecord ", RecordFault::Line(6)),
    ("q 0 4\nendrecor", RecordFault::Line(7)),
    ("q 0 4\n\nendrecord\n", RecordFault::Line(7)),
    ("q 0 4\n", RecordFault::Line(7)),
    ("q 0 4", RecordFault::Line(6)),
    ("q 0 4\r\n", RecordFault::Line(6)),
    ("q 00 4\n", RecordFault::Line(6)),
    ("q 0 04\n", RecordFault::Line(6)),
    ("q 0 4 \n", RecordFault::Line(6)),
    ("q  0 4\n", RecordFault::Line(6)),
];

const NUMBERS: [(&str, RecordFault); 12] = [
    ("q 12 4\n", RecordFault::Number(6)),
    ("q 12 4", RecordFault::Number(6)),
    ("q 0 0\n", RecordFault::Number(6)),
    ("s 0 1000001\n", RecordFault::Number(6)),
    ("l 99999999999999999999999 1\n", RecordFault::Number(6)),
    ("q 0 1\nq 0 18446744073709551617\n", RecordFault::Number(7)),
    ("t 0 2 1\n", RecordFault::Number(6)),
    ("t 12 0 1\n", RecordFault::Number(6)),
    ("t 0 0 0", RecordFault::Number(6)),
    ("t 0 1\n", RecordFault::Line(6)),
    ("q 12 4 1\n", RecordFault::Line(6)),
    ("x 12 4\n", RecordFault::Line(6)),
];

#[test]
fn items_have_a_form_and_ranges(rt: HostRuntime) -> Result<(), Fail> {
    for (items, fault) in ITEMS.iter().chain(NUMBERS.iter()) {
        let mut text = String::from_str(rt.alloc(), HEAD)?;
        text.push_str(items)?;
        assert!(rt; fails(text.as_str(), *fault), "{items}");
    }
    Ok(())
}

const CUT: &str = "qpurecord 2\njob 1\na\nschedule\nq 0 4\nendrecord\n";

// The first line that fails where the text has so many bytes, or none.
fn failing_line(bytes: usize) -> Option<u32> {
    match bytes {
        10 => None,
        0..=11 => Some(1),
        12..=18 => Some(2),
        19 => Some(3),
        20..=28 => Some(4),
        29..=34 => Some(5),
        35..=43 => Some(6),
        _ => None,
    }
}

#[test]
fn a_record_cut_after_each_byte(rt: HostRuntime) -> Result<(), Fail> {
    for bytes in 0..=CUT.len() {
        let text = CUT.get(..bytes).ok_or("the text is ASCII")?;
        match failing_line(bytes) {
            None => assert!(rt; bytes == 10 || parts(text).is_some(), "{bytes}"),
            Some(line) => assert!(rt; fails(text, RecordFault::Line(line)), "{bytes}"),
        }
    }
    Ok(())
}
