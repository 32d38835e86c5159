//! Numbers as they are written in hexadecimal.
ghost use Rattle.std.specs.Prelude.{◌≡◌, ◌<◌};
ghost use Rattle.qpu_text.specs.Digits.{hex_digit, hex_digits};

/// The last hexadecimal digits of a number, in lower case: as many as the array has places, with
/// leading zeros.
pub fn hex_digits<const DIGITS: usize>(n: u64) -> [u8; DIGITS]
    ensures { result ≡ hex_digits DIGITS n }
{
    let mut digits = [b'0'; DIGITS];
    let mut rest = n;
    for at in (0..DIGITS).rev() {
        digits[at] = hex_digit(rest % 16);
        rest /= 16;
    }
    digits
}

/// The lower-case digit of a number below 16.
fn hex_digit(n: u64) -> u8
    requires { n < 16 }
    ensures { result ≡ hex_digit n }
{
    if n < 10 {
        b'0' + n as u8
    } else {
        b'a' + (n as u8 - 10)
    }
}
