//! Where two texts differ.
ghost use Rattle.std.specs.Prelude.{◌≡◌, ◌<◌, ◌+◌, ◌^◌, ◌==◌, if◌then◌else◌};
ghost use Rattle.qpu_tool.specs.Replaying.{differing_line};

/// The line behind a byte of a line.
fn line_behind(line: u64, byte: u8) -> u64
    requires { line + 1 < 2 ^ 64 }
    ensures { result ≡ (if byte == 10 then line + 1 else line) }
{
    if byte == b'\n' { line + 1 } else { line }
}

/// The line in which a text first differs from another, its line feed included, where the line of their
/// first bytes has a number; none where they are the same.
pub(crate) fn differing_line(first: u32, text: &[u8], other: &[u8]) -> Option<u64>
    ensures { result ≡ differing_line first text.now other.now }
{
    let mut line = u64::from(first);
    for at in 0..text.len().min(other.len()) {
        if text[at] != other[at] {
            return Some(line);
        }
        line = line_behind(line, text[at]);
    }
    if text.len() == other.len() {
        return None;
    }
    Some(line)
}
