//! The program: standard input and output, its arguments, and the exit status.
#![tactic(auto)]

use qpu_io::{Gathering, SinkFailed, StdSink, StdSource};
use qpu_tool::{Status, plain};
use qpu_word::NoMemory;
use std::env;
use std::io::ErrorKind;
use std::process::ExitCode;
use std::rt::Env;

/// The words after the program's own name; none where one of them isn't UTF-8, which is no command.
/// The one error is want of memory.
fn words<R: Env + AllocGlobal>(rt: &R) -> Result<Vec<String>, NoMemory> {
    let mut words = Vec::new(rt.alloc());
    let arguments = match env::args(rt) {
        Ok(arguments) => arguments,
        Err(error) => {
            return match error.kind() {
                ErrorKind::InvalidData => Ok(words),
                _ => Err(NoMemory),
            };
        }
    };
    for word in arguments.skip(1) {
        if words.push(word).is_err() {
            return Err(NoMemory);
        }
    }
    Ok(words)
}

fn main(rt: HostRuntime) -> ExitCode {
    let mut source = StdSource::new(rt.stdin());
    let mut sink = Gathering::new(StdSink::new(rt.stdout()));
    let status = match words(&rt) {
        Ok(words) => plain(rt.alloc(), &words, &mut source, &mut sink),
        Err(NoMemory) => Status::NoMemory,
    };
    let status = match sink.finish() {
        Ok(()) => status,
        Err(SinkFailed) => Status::WriteFault,
    };
    ExitCode::from(status.code())
}
