//! A line with a hexadecimal word.
ghost use Rattle.std.specs.Prelude.{◌≡◌, ◌≤◌, length};
ghost use Rattle.std.specs.List.{list_all};
ghost use Rattle.qpu_text.specs.Numbers.{hex_length};
ghost use Rattle.qpu_asm.specs.HexLines.{is_space, spaces_length, behind_spaces, number_in, hex_in, hex_line};

use qpu_text::{HEXADECIMAL, before_comment, hex_length, is_blank, is_lf, value_within};

/// Digits of the longest number.
const MOST_DIGITS: usize = 16;

/// What a line is.
#[derive(Clone, Copy)]
pub(crate) enum HexLine {
    /// Blanks and a comment at most.
    Nothing,
    /// A word, by its number.
    Number(u64),
    /// No line.
    Invalid,
}

/// A space, a tab, or what a line may end with.
fn is_space(byte: u8) -> bool
    ensures { result ≡ is_space byte }
{
    is_blank(byte) || is_lf(byte) || byte == b'\r'
}

/// How many blanks stand at the front.
fn spaces_length(line: &[u8]) -> usize
    ensures value { result ≡ spaces_length line.now }
    ensures inside { result ≤ length line.now }
{
    line.iter().take_while(|byte| is_space(**byte)).count()
}

/// What stands behind the blanks at the beginning.
fn behind_spaces(line: &[u8]) -> &[u8]
    ensures { result.now ≡ behind_spaces line.now }
{
    &line[spaces_length(line)..]
}

fn all_spaces(bytes: &[u8]) -> bool
    ensures { result ≡ list_all is_space bytes.now }
{
    bytes.iter().all(|byte| is_space(*byte))
}

/// The number behind `0x`.
#[tactic(auto, unfolding(crate::specs::HexLines::number_in))]
fn number_in(rest: &[u8]) -> HexLine
    ensures { result ≡ number_in (hex_length rest.now) rest.now }
{
    let digits = hex_length(rest);
    if digits == 0 || digits > MOST_DIGITS || !all_spaces(&rest[digits..]) {
        return HexLine::Invalid;
    }
    match value_within(u64::MAX, HEXADECIMAL, &rest[..digits]) {
        None => HexLine::Invalid,
        Some(number) => HexLine::Number(number),
    }
}

/// What stands in a line behind its first blanks.
fn hex_in(line: &[u8]) -> HexLine
    ensures { result ≡ hex_in line.now }
{
    match line {
        [] => HexLine::Nothing,
        [b'0', b'x', rest @ ..] => number_in(rest),
        _ => HexLine::Invalid,
    }
}

/// What a line is.
#[tactic(auto, unfolding(crate::specs::HexLines::hex_line))]
pub(crate) fn hex_line(line: &[u8]) -> HexLine
    ensures { result ≡ hex_line line.now }
{
    hex_in(behind_spaces(before_comment(line)))
}
