//! What a line of a job outside programs says.

ghost use Rattle.std.specs.Prelude.{◌≡◌, ◌∷◌, true, IfOk, option_map, option_copied, bytes_eq};
ghost use Rattle.std.specs.List.{list_all};
ghost use Rattle.qpu_text.specs.Bytes.{is_name_byte};
ghost use Rattle.qpu_job.specs.Words.{texts_of, name_of, line_numbers};
ghost use Rattle.qpu_job.specs.Shapes.{said, Data, opening_shape, memory_shape, limit_shape, data_shape, program_shape, start_shape, shape_of};

use crate::number::{line_numbers, number_of};
use crate::word::is_name;
use qpu_word::NoMemory;
use std::alloc::Global;

/// What a line says.
#[derive(Debug, Drop)]
pub(crate) enum Shape<'a> {
    /// Nothing.
    Empty,
    /// `qpujob 1`.
    Opening,
    /// `memory N`.
    Memory(u32),
    /// `limit N`.
    Limit(u32),
    /// `data A V ..`, with the byte address and at least one value.
    Data(u32, Vec<u32>),
    /// `program NAME`.
    Program(&'a str),
    /// `start Q NAME U`, with the byte address of the uniforms.
    Start(u32, &'a str, u32),
}

/// The shape of a line of these words. None where it has none.
#[tactic(auto, unfolding(crate::specs::Shapes::shape_of))]
pub(crate) fn shape_of<'a>(alloc: Global, words: &[&'a [u8]]) -> Result<Option<Shape<'a>>, NoMemory>
    ensures { IfOk result (λ shape. option_map said shape ≡ shape_of (texts_of words.now)) }
{
    match words {
        [] => Ok(Some(Shape::Empty)),
        [word, rest @ ..] => shape_behind(alloc, word, rest),
    }
}

/// The shape of a line that begins with this word.
#[tactic(auto, unfolding(crate::specs::Shapes::shape_of))]
fn shape_behind<'a>(
    alloc: Global,
    word: &[u8],
    rest: &[&'a [u8]],
) -> Result<Option<Shape<'a>>, NoMemory>
    ensures { IfOk result (λ shape. option_map said shape ≡ shape_of (word.now ∷ texts_of rest.now)) }
{
    if is_word(word, b"qpujob") {
        return Ok(opening_shape(rest));
    }
    if is_word(word, b"memory") {
        return Ok(memory_shape(rest));
    }
    if is_word(word, b"limit") {
        return Ok(limit_shape(rest));
    }
    if is_word(word, b"data") {
        return data_shape(alloc, rest);
    }
    if is_word(word, b"program") {
        return Ok(program_shape(rest));
    }
    if is_word(word, b"start") {
        return Ok(start_shape(rest));
    }
    Ok(None)
}

fn is_word(word: &[u8], text: &[u8]) -> bool
    ensures { result ≡ bytes_eq word.now text.now }
{
    word == text
}

#[tactic(auto, unfolding(crate::specs::Shapes::opening_shape))]
fn opening_shape<'a>(rest: &[&'a [u8]]) -> Option<Shape<'a>>
    ensures { option_map said result ≡ opening_shape (texts_of rest.now) }
{
    let [version] = rest else {
        return None;
    };
    if is_word(version, b"1") {
        return Some(Shape::Opening);
    }
    None
}

#[tactic(auto, unfolding(crate::specs::Shapes::memory_shape))]
fn memory_shape<'a>(rest: &[&'a [u8]]) -> Option<Shape<'a>>
    ensures { option_map said result ≡ memory_shape (texts_of rest.now) }
{
    let [words] = rest else {
        return None;
    };
    Some(Shape::Memory(number_of(words)?))
}

#[tactic(auto, unfolding(crate::specs::Shapes::limit_shape))]
fn limit_shape<'a>(rest: &[&'a [u8]]) -> Option<Shape<'a>>
    ensures { option_map said result ≡ limit_shape (texts_of rest.now) }
{
    let [limit] = rest else {
        return None;
    };
    Some(Shape::Limit(number_of(limit)?))
}

#[tactic(auto, unfolding(crate::specs::Shapes::data_shape))]
fn data_shape<'a>(alloc: Global, rest: &[&'a [u8]]) -> Result<Option<Shape<'a>>, NoMemory>
    ensures { IfOk result (λ shape. option_map said shape ≡ data_shape (texts_of rest.now)) }
{
    match rest {
        [address, values @ ..] if !values.is_empty() => match number_of(address) {
            None => Ok(None),
            Some(address) => values_at(alloc, address, values),
        },
        _ => Ok(None),
    }
}

fn values_at<'a>(
    alloc: Global,
    address: u32,
    values: &[&'a [u8]],
) -> Result<Option<Shape<'a>>, NoMemory>
    ensures { IfOk result (λ shape. option_map said shape ≡ option_map (Data address) (line_numbers (texts_of values.now))) }
{
    match line_numbers(alloc, values)? {
        None => Ok(None),
        Some(values) => Ok(Some(Shape::Data(address, values))),
    }
}

#[tactic(auto, unfolding(crate::specs::Shapes::program_shape))]
fn program_shape<'a>(rest: &[&'a [u8]]) -> Option<Shape<'a>>
    ensures { option_map said result ≡ program_shape (texts_of rest.now) }
{
    let [name] = rest else {
        return None;
    };
    Some(Shape::Program(name_of(name)?))
}

#[tactic(auto, unfolding(crate::specs::Shapes::start_shape))]
fn start_shape<'a>(rest: &[&'a [u8]]) -> Option<Shape<'a>>
    ensures { option_map said result ≡ start_shape (texts_of rest.now) }
{
    let [q, name, uniforms] = rest else {
        return None;
    };
    let q = number_of(q)?;
    let name = name_of(name)?;
    let uniforms = number_of(uniforms)?;
    Some(Shape::Start(q, name, uniforms))
}

/// The name that a word is.
#[tactic(auto, unfolding(crate::specs::Words::name_of))]
fn name_of(word: &[u8]) -> Option<&str>
    ensures { option_copied result ≡ name_of word.now }
{
    if is_name(word) {
        return Some(text_of(word));
    }
    None
}

/// The text of bytes of a name.
fn text_of(name: &[u8]) -> &str
    requires { list_all is_name_byte name.now ≡ true }
    ensures { result.now ≡ name.now }
{
    match std::str::from_utf8(name) {
        Ok(text) => text,
        Err(_) => unreachable!(),
    }
}
