//! The words of a line, and names.

ghost use Rattle.std.specs.Prelude.{◌≡◌, ◌∷◌, [], ◌++◌, ◌<◌, length, IfOk, IfSome, OnOk, MatchOption, position, filter};
ghost use Rattle.std.specs.List.{list_all};
ghost use Rattle.qpu_text.specs.Bytes.{is_blank, is_name_byte};
ghost use Rattle.qpu_job.specs.Words.{is_some_word, words_between, line_words, is_name, texts_of};

use crate::job::MOST_NAME;
use qpu_text::{before_comment, is_blank, is_name_byte};
use qpu_word::NoMemory;
use std::alloc::Global;

/// The words of a line: what stands between spaces and tabs, without its comment.
pub(crate) fn words_of(alloc: Global, line: &[u8]) -> Result<Vec<&[u8]>, NoMemory>
    ensures { IfOk result (λ words. texts_of words.items ≡ line_words line.now) }
{
    words_between(alloc, before_comment(line))
}

/// A name: 1 to 32 letters, digits or `_`.
pub(crate) fn is_name(word: &[u8]) -> bool
    ensures { result ≡ is_name word.now }
{
    !word.is_empty() && word.len() <= MOST_NAME && all_name_bytes(word)
}

fn all_name_bytes(bytes: &[u8]) -> bool
    ensures { result ≡ list_all is_name_byte bytes.now }
{
    bytes.iter().all(|byte| is_name_byte(*byte))
}

fn words_between(alloc: Global, text: &[u8]) -> Result<Vec<&[u8]>, NoMemory>
    ensures { IfOk result (λ words. texts_of words.items ≡ words_between text.now) }
{
    let mut words = Vec::new(alloc);
    let mut rest = text;
    loop {
        match at_blank(rest) {
            None => {
                put_word(&mut words, rest)?;
                return Ok(words);
            }
            Some((word, behind)) => {
                put_word(&mut words, word)?;
                rest = behind;
            }
        }
    }
}

/// What stands before the first blank, and what stands behind it. None where there is no blank.
fn at_blank(text: &[u8]) -> Option<(&[u8], &[u8])>
    ensures cases { MatchOption result (words_between text.now ≡ filter is_some_word (text.now ∷ [])) (λ r. words_between text.now ≡ filter is_some_word (r.0.now ∷ []) ++ words_between r.1.now) }
    ensures shorter { IfSome result (λ r. length r.1.now < length text.now) }
{
    match blank_in(text) {
        None => None,
        Some(at) => Some((&text[..at], &text[at + 1..])),
    }
}

fn blank_in(text: &[u8]) -> Option<usize>
    ensures { result ≡ position is_blank text.now }
{
    text.iter().position(|byte| is_blank(*byte))
}

/// Puts what stands between two blanks behind the words, where it is one.
fn put_word<'a>(words: &mut Vec<&'a [u8]>, word: &'a [u8]) -> Result<(), NoMemory>
    ensures { OnOk result (texts_of words.new.items ≡ texts_of words.old.items ++ filter is_some_word (word.now ∷ [])) }
{
    if word.is_empty() {
        return Ok(());
    }
    match words.push(word) {
        Ok(()) => Ok(()),
        Err(_) => Err(NoMemory),
    }
}
