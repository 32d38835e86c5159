ghost use Rattle.std.specs.Prelude.{◌≡◌, ◌<◌, IsTrue};
ghost use Rattle.qpu_bytes.specs.declared.size.Size.TheVariants.{Byte, Half};
ghost use Rattle.qpu_bytes.specs.Elements.{bytes_in, is_place, word_part, with_word_part};

use crate::size::Size;
use byteorder::{ByteOrder, LittleEndian};
use qpu_word::code::WORD_BYTES;

/// How many bytes a word has.
const BYTES: usize = WORD_BYTES as usize;

/// The byte at byte `low` of a word, extended with zeros.
fn byte_of(word: u32, low: u32) -> u32
    requires { low < 4 }
    ensures { result ≡ word_part word low (bytes_in Byte) }
{
    let mut bytes = [0; BYTES];
    LittleEndian::write_u32(&mut bytes, word);
    u32::from(bytes[low as usize])
}

/// The half word at byte `low` of a word, 0 or 2, extended with zeros.
fn half_of(word: u32, low: u32) -> u32
    requires low { low < 4 }
    requires whole { IsTrue (is_place low Half) }
    ensures { result ≡ word_part word low (bytes_in Half) }
{
    let mut bytes = [0; BYTES];
    LittleEndian::write_u32(&mut bytes, word);
    u32::from(LittleEndian::read_u16(&bytes[low as usize..]))
}

/// The element of a size at byte `low` of a word, below 4, extended with zeros.
pub fn part_of(word: u32, low: u32, size: Size) -> u32
    requires low { low < 4 }
    requires whole { IsTrue (is_place low size) }
    ensures { result ≡ word_part word low (bytes_in size) }
{
    match size {
        Size::Byte => byte_of(word, low),
        Size::Half => half_of(word, low),
        Size::Word => word,
    }
}

/// A word with byte `low` replaced by the low byte of a value.
fn with_byte(word: u32, low: u32, value: u32) -> u32
    requires { low < 4 }
    ensures { result ≡ with_word_part word low (bytes_in Byte) value }
{
    let mut bytes = [0; BYTES];
    LittleEndian::write_u32(&mut bytes, word);
    bytes[low as usize] = (value % (1 << u8::BITS)) as u8;
    LittleEndian::read_u32(&bytes)
}

/// A word with the half word at byte `low`, 0 or 2, replaced by the low half word of a value.
fn with_half(word: u32, low: u32, value: u32) -> u32
    requires low { low < 4 }
    requires whole { IsTrue (is_place low Half) }
    ensures { result ≡ with_word_part word low (bytes_in Half) value }
{
    let mut bytes = [0; BYTES];
    LittleEndian::write_u32(&mut bytes, word);
    LittleEndian::write_u16(
        &mut bytes[low as usize..],
        (value % (1 << u16::BITS)) as u16,
    );
    LittleEndian::read_u32(&bytes)
}

/// A word with the element of a size at byte `low`, below 4, replaced by the low bytes of a value.
pub fn with_part_of(word: u32, low: u32, size: Size, value: u32) -> u32
    requires low { low < 4 }
    requires whole { IsTrue (is_place low size) }
    ensures { result ≡ with_word_part word low (bytes_in size) value }
{
    match size {
        Size::Byte => with_byte(word, low, value),
        Size::Half => with_half(word, low, value),
        Size::Word => value,
    }
}
