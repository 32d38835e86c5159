//! The words of a text that has one in a line.
ghost use Rattle.std.specs.Prelude.{◌≡◌, ◌≤◌, ◌∷◌, ◌++◌, [], length, IfOk, IfErr, OnOk};
ghost use Rattle.qpu_token.specs.Stops.{Leads, StopsBy};
ghost use Rattle.qpu_word.specs.Words.{numbers_of};
ghost use Rattle.qpu_asm.specs.HexLines.{hex_line, with_hex, hex_words, AreHexWords, IsHexFault};

use crate::hex::{HexLine, hex_line};
use qpu_text::first_line;
use qpu_token::{AsmFault, AsmKind, MOST_BYTES, Stop};
use qpu_word::Word;
use std::alloc::{AllocError, Global};

/// Puts a word behind the others.
#[tactic(auto, unfolding(qpu_word::specs::Words::numbers_of))]
fn put_word(words: &mut Vec<Word>, word: Word) -> Result<(), AllocError>
    ensures { OnOk result (numbers_of words.new.items ≡ numbers_of words.old.items ++ word.0 ∷ []) }
{
    words.push(word)?;
    Ok(())
}

/// Puts the word of a line behind the others; the line has a number.
fn put_line(words: &mut Vec<Word>, number: u32, line: &[u8]) -> Result<(), Stop>
    ensures { Leads (with_hex number (numbers_of words.old.items) (hex_line line.now)) (numbers_of words.new.items) result }
{
    match hex_line(line) {
        HexLine::Nothing => Ok(()),
        HexLine::Number(word) => Ok(put_word(words, Word(word))?),
        HexLine::Invalid => Err(Stop::Fault(AsmFault {
            kind: AsmKind::Shape,
            line: number,
            column: 1,
        })),
    }
}

/// The words of the lines of a text.
#[tactic(auto, unfolding(crate::specs::HexLines::hex_words, qpu_word::specs::Words::numbers_of))]
fn read_words(alloc: Global, text: &str) -> Result<Vec<Word>, Stop>
    requires { length text.now ≤ MOST_BYTES }
    ensures ok { IfOk result (λ words. AreHexWords text.now words.items) }
    ensures err { IfErr result (λ stop. StopsBy (hex_words text.now) stop) }
{
    let mut words = Vec::new(alloc);
    let mut number = 1;
    let mut rest = text;
    while !rest.is_empty() {
        let line = first_line(rest);
        put_line(&mut words, number, line.whole.as_bytes())?;
        rest = line.rest;
        number += 1;
    }
    Ok(words)
}

/// The words of a text of at most `MOST_BYTES` bytes, in order, of which each line has one or none. A
/// line is `0x` and 1 to 16 hexadecimal digits, or nothing; blanks may stand around it, and a comment
/// behind `#` at its end. The one error beside want of memory is `Shape` at the first line that is none,
/// with its number from 1 and column 1. The form of the lines is this project's own.
pub fn words_of(alloc: Global, text: &str) -> Result<Vec<Word>, AsmFault>
    requires { length text.now ≤ MOST_BYTES }
    ensures ok { IfOk result (λ words. AreHexWords text.now words.items) }
    ensures err { IfErr result (λ fault. IsHexFault text.now fault) }
{
    match read_words(alloc, text) {
        Ok(words) => Ok(words),
        Err(stop) => Err(stop.fault()),
    }
}
