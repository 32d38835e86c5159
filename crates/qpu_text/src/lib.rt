//! What every reader and writer of a text shares: kinds of bytes, numbers as digits write them, lines,
//! and numbers as they are written in hexadecimal.
//!
//! It stands on the standard library alone.
#![tactic(auto)]

mod bytes;
mod digits;
mod lines;
mod numbers;

pub use bytes::{is_blank, is_digit, is_letter, is_lf, is_name_byte};
pub use digits::hex_digits;
pub use lines::{Line, before_comment, first_line, line_feeds};
pub use numbers::{
    DECIMAL, HEXADECIMAL, all_digits, digits_length, hex_length, is_number, number_within,
    value_within,
};

#[cfg(test)]
mod tests;
