//! The commands: their words, their longest inputs, and what they do.
ghost use Rattle.std.specs.Prelude.{◌≡◌, ◌≤◌, IfOk, length, map, string_bytes};
ghost use Rattle.std.specs.Borrow.{Bor};
ghost use Rattle.qpu_tool.specs.Commands.{limit_of, command_of, are_words};
ghost use Rattle.qpu_tool.specs.Answers.{AnswerBy};

use crate::answer::Answer;
use crate::assembling::assemble_text;
use crate::checking::check_text;
use crate::command::{MOST_INPUT, MOST_RECORD};
use crate::disassembling::disassemble_text;
use crate::replaying::replay_text;
use crate::running::run_text;
use qpu_word::NoMemory;
use std::alloc::Global;

/// A command that waits for nobody (this project's own).
#[derive(Clone, Copy, Debug, PartialEq, Eq)]
pub enum Command {
    /// `run -w 0`: runs a job in the serial order.
    Run,
    /// `asm`: gives the words of assembly text.
    Assemble,
    /// `dis`: gives the lines of words.
    Disassemble,
    /// `check`: judges assembly text.
    Check,
    /// `replay`: runs a record again.
    Replay,
}

impl Command {
    /// Bytes of the longest input.
    pub(crate) fn limit(self) -> u64
        ensures is { result ≡ limit_of self }
        ensures most { result ≤ MOST_RECORD }
    {
        match self {
            Command::Replay => MOST_RECORD,
            _ => MOST_INPUT,
        }
    }

    /// The answer to a text of ASCII.
    pub(crate) fn answer(self, alloc: Global, text: &str) -> Result<Answer<'_>, NoMemory>
        requires { length text.now ≤ limit_of self }
        ensures { IfOk result (AnswerBy self text.now) }
    {
        match self {
            Command::Run => run_text(alloc, text),
            Command::Assemble => assemble_text(alloc, text),
            Command::Disassemble => disassemble_text(alloc, text),
            Command::Check => check_text(alloc, text),
            Command::Replay => replay_text(alloc, text),
        }
    }
}

/// Whether the words of the command line are these.
fn are(words: &[String], row: &[&str]) -> bool
    ensures { result ≡ are_words (map (λ word. word.now) row.now) (map string_bytes words.now) }
{
    match words {
        [] => match row {
            [] => true,
            [_, ..] => false,
        },
        [word, words @ ..] => match row {
            [] => false,
            [name, row @ ..] => word.as_str() == *name && are(words, row),
        },
    }
}

/// The command that the words are.
#[tactic(auto, unfolding(crate::specs::Commands::command_of))]
pub(crate) fn command_of(words: &[String]) -> Option<Command>
    ensures { result ≡ command_of (map string_bytes words.now) }
{
    if are(words, &["run", "-w", "0"]) {
        return Some(Command::Run);
    }
    if are(words, &["asm"]) {
        return Some(Command::Assemble);
    }
    if are(words, &["dis"]) {
        return Some(Command::Disassemble);
    }
    if are(words, &["check"]) {
        return Some(Command::Check);
    }
    if are(words, &["replay"]) {
        return Some(Command::Replay);
    }
    None
}
