//! Pieces put behind a text.
ghost use Rattle.std.specs.Prelude.{◌≡◌, ◌++◌, OnOk, codes, string_bytes};
ghost use Rattle.qpu_gen.specs.Generated.{spaced};

use itoa::Buffer;
use qpu_word::NoMemory;

/// Puts a piece behind a text.
pub(crate) fn put(text: &mut String, piece: &str) -> Result<(), NoMemory>
    ensures { OnOk result (string_bytes text.new ≡ string_bytes text.old ++ piece.now) }
{
    match text.push_str(piece) {
        Ok(()) => Ok(()),
        Err(_) => Err(NoMemory),
    }
}

/// Puts a space and a number behind a text.
pub(crate) fn put_number(text: &mut String, n: u32) -> Result<(), NoMemory>
    ensures { OnOk result (string_bytes text.new ≡ string_bytes text.old ++ spaced n) }
{
    put(text, " ")?;
    put(text, Buffer::new().format(n))
}

/// Puts the beginning of a line of data behind a text, up to its address.
pub(crate) fn put_address(text: &mut String, address: u32) -> Result<(), NoMemory>
    ensures { OnOk result (string_bytes text.new ≡ string_bytes text.old ++ codes "data" ++ spaced address) }
{
    put(text, "data")?;
    put_number(text, address)
}
