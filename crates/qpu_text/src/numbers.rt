//! Numbers, as digits write them.

ghost use Rattle.std.specs.Prelude.{◌≡◌, ◌≤◌, length, IfSome};
ghost use Rattle.std.specs.List.{list_all};
ghost use Rattle.qpu_text.specs.Bytes.{is_digit, is_hex_digit};
ghost use Rattle.qpu_text.specs.Numbers.{digit_of, digits_length, hex_length, is_run, is_hexadecimal, is_number, value_within, number_within};

use crate::bytes::{is_digit, is_hex_digit};

/// The bases of numbers.
pub const DECIMAL: u8 = 10;

pub const HEXADECIMAL: u8 = 16;

/// The value of a decimal or hexadecimal digit; of another byte, any number.
fn digit_of(byte: u8) -> u8
    ensures { result ≡ digit_of byte }
{
    match byte {
        b'0'..=b'9' => byte - b'0',
        b'a'..=b'f' => byte - b'a' + 10,
        _ => byte.saturating_sub(b'A' - 10),
    }
}

/// The length of the longest run of decimal digits at the front.
pub fn digits_length(text: &[u8]) -> usize
    ensures value { result ≡ digits_length text.now }
    ensures inside { result ≤ length text.now }
{
    text.iter().take_while(|byte| is_digit(**byte)).count()
}

/// The length of the longest run of hexadecimal digits at the front.
pub fn hex_length(text: &[u8]) -> usize
    ensures value { result ≡ hex_length text.now }
    ensures inside { result ≤ length text.now }
{
    text.iter().take_while(|byte| is_hex_digit(**byte)).count()
}

/// Whether all bytes are decimal digits.
pub fn all_digits(bytes: &[u8]) -> bool
    ensures { result ≡ list_all is_digit bytes.now }
{
    bytes.iter().all(|byte| is_digit(*byte))
}

fn all_hex_digits(bytes: &[u8]) -> bool
    ensures { result ≡ list_all is_hex_digit bytes.now }
{
    bytes.iter().all(|byte| is_hex_digit(*byte))
}

fn is_decimal(word: &[u8]) -> bool
    ensures { result ≡ is_run is_digit is_digit word.now }
{
    match word {
        [] => false,
        [first, others @ ..] => is_digit(*first) && all_digits(others),
    }
}

fn is_hex_run(digits: &[u8]) -> bool
    ensures { result ≡ is_run is_hex_digit is_hex_digit digits.now }
{
    match digits {
        [] => false,
        [first, others @ ..] => is_hex_digit(*first) && all_hex_digits(others),
    }
}

fn is_hexadecimal(word: &[u8]) -> bool
    ensures { result ≡ is_hexadecimal word.now }
{
    match word {
        [b'0', b'x', digits @ ..] => is_hex_run(digits),
        _ => false,
    }
}

/// Whether a word is a number: decimal digits, or `0x` and hexadecimal digits, at least one.
pub fn is_number(word: &[u8]) -> bool
    ensures { result ≡ is_number word.now }
{
    is_decimal(word) || is_hexadecimal(word)
}

/// The number that digits write in a base; none where it is larger than the most.
pub fn value_within(most: u64, base: u8, digits: &[u8]) -> Option<u64>
    ensures is { result ≡ value_within most base digits.now }
    ensures most { IfSome result (λ number. number ≤ most) }
{
    let above = u128::from(most) + 1;
    let mut value: u128 = 0;
    for digit in digits {
        let next = value * u128::from(base) + u128::from(digit_of(*digit));
        value = next.min(above);
    }
    if value == above {
        return None;
    }
    Some(value as u64)
}

/// The number that a word writes, in hexadecimal digits where it begins with `0x`; none where it is
/// larger than the most.
pub fn number_within(most: u64, word: &[u8]) -> Option<u64>
    ensures is { result ≡ number_within most word.now }
    ensures most { IfSome result (λ number. number ≤ most) }
{
    if word.starts_with(b"0x") {
        value_within(most, HEXADECIMAL, &word[2..])
    } else {
        value_within(most, DECIMAL, word)
    }
}
