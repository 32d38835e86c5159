//! Runs each of the examples, and tells whether its status and output are those that stand beside it;
//! and whether what it writes, and the same run's output with a record of version 1, are replayed to
//! its report.
#![tactic(auto)]

use qpu_io::{MemSink, MemSource};
use qpu_tool::{Status, plain};
use std::alloc::{AllocError, Global};
use std::rt::Files;
use std::{fs, io};

/// Bytes that every output of the examples fits in.
const ROOM: usize = 65_536;

/// A job, by the name of its file, how it is answered, and whether its output with a record of
/// version 1 is kept.
#[derive(Clone, Copy)]
struct Example {
    name: &'static str,
    status: Status,
    older: bool,
}

static EXAMPLES: [Example; 14] = [
    Example {
        name: "brighten",
        status: Status::Done,
        older: false,
    },
    Example {
        name: "deadlock",
        status: Status::Stuck,
        older: true,
    },
    Example {
        name: "first",
        status: Status::Done,
        older: true,
    },
    Example {
        name: "gcd",
        status: Status::Done,
        older: true,
    },
    Example {
        name: "handing_over",
        status: Status::Done,
        older: true,
    },
    Example {
        name: "hazard",
        status: Status::HazardRefused,
        older: false,
    },
    Example {
        name: "histogram",
        status: Status::Done,
        older: true,
    },
    Example {
        name: "outside",
        status: Status::Faulted,
        older: true,
    },
    Example {
        name: "pipeline",
        status: Status::Done,
        older: true,
    },
    Example {
        name: "prefix",
        status: Status::Done,
        older: true,
    },
    Example {
        name: "ring",
        status: Status::Stuck,
        older: true,
    },
    Example {
        name: "scale",
        status: Status::Done,
        older: true,
    },
    Example {
        name: "transpose",
        status: Status::Done,
        older: true,
    },
    Example {
        name: "twelve",
        status: Status::Done,
        older: true,
    },
];

/// What a call answered, and what it wrote.
#[derive(Drop)]
struct Answer {
    status: Status,
    text: Vec<u8>,
}

/// Carries a command's words out on bytes.
fn answered(alloc: Global, words: &[&str], bytes: &[u8]) -> Result<Answer, AllocError> {
    let mut owned = Vec::new(alloc);
    for word in words {
        owned.push(String::from_str(alloc, word)?)?;
    }
    let bytes = Vec::from_slice(alloc, bytes)?;
    let mut source = MemSource::new(alloc, bytes, Vec::new(alloc));
    let mut sink = MemSink::new(alloc, Vec::new(alloc));
    if sink.reserve(ROOM).is_err() {
        return Err(AllocError);
    }
    let status = plain(alloc, &owned, &mut source, &mut sink);
    let text = Vec::from_slice(alloc, sink.bytes())?;
    Ok(Answer { status, text })
}

/// Whether the replay of an output is answered as a run was: with its status, and with the end of what
/// it wrote, which is its report.
fn is_replayed(alloc: Global, answer: &Answer, output: &[u8]) -> Result<bool, AllocError> {
    let again = answered(alloc, &["replay"], output)?;
    Ok(again.status == answer.status && answer.text.ends_with(&again.text))
}

/// How an example came out; `older` is its output with a record of version 1.
fn outcome(
    alloc: Global,
    example: Example,
    job: &[u8],
    output: &[u8],
    older: Option<&[u8]>,
) -> Result<&'static str, AllocError> {
    let answer = answered(alloc, &["run", "-w", "0"], job)?;
    if answer.status != example.status {
        return Ok("another status");
    }
    if answer.text.as_slice() != output {
        return Ok("another output");
    }
    if answer.status == Status::HazardRefused {
        return Ok("refused as written");
    }
    if !is_replayed(alloc, &answer, output)? {
        return Ok("as written, and not replayed");
    }
    match older {
        None => Ok("as written, and replayed"),
        Some(older) => {
            if is_replayed(alloc, &answer, older)? {
                Ok("as written, and replayed from both versions")
            } else {
                Ok("as written, and not replayed from version 1")
            }
        }
    }
}

/// Runs an example whose files lie here.
fn tried<R: Files + AllocGlobal>(rt: &R, example: Example) -> io::Result<&'static str> {
    let name = example.name;
    let job = fs::read(rt, format!(in rt.alloc(); "{name}.job")?)?;
    let output = fs::read(rt, format!(in rt.alloc(); "{name}.out")?)?;
    if !example.older {
        return Ok(outcome(rt.alloc(), example, &job, &output, None)?);
    }
    let older = fs::read(rt, format!(in rt.alloc(); "first_version/{name}.out")?)?;
    Ok(outcome(rt.alloc(), example, &job, &output, Some(&older))?)
}

fn main(rt: HostRuntime) -> io::Result<()> {
    for example in EXAMPLES {
        let name = example.name;
        let outcome = tried(&rt, example)?;
        println!(rt; "{name}: {outcome}")?;
    }
    Ok(())
}
