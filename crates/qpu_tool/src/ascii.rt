//! Texts of ASCII.
ghost use Rattle.std.specs.Prelude.{◌≡◌, None, position};
ghost use Rattle.qpu_tool.specs.Ascii.{is_high};

/// The last byte that is ASCII.
pub const LAST_ASCII: u8 = 127;

/// The first byte that is no ASCII, counted from 0.
pub(crate) fn first_high(bytes: &[u8]) -> Option<usize>
    ensures { result ≡ position is_high bytes.now }
{
    bytes.iter().position(|byte| *byte > LAST_ASCII)
}

/// The text of bytes that are all ASCII.
pub(crate) fn text_of(bytes: &[u8]) -> &str
    requires { position is_high bytes.now ≡ None }
    ensures { result.now ≡ bytes.now }
{
    match std::str::from_utf8(bytes) {
        Ok(text) => text,
        Err(_) => unreachable!(),
    }
}
