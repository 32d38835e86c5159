//! What stands in a line.

ghost use Rattle.std.specs.Prelude.{◌≡◌, ◌<◌, ◌-◌, ◌==◌, length, slice_index, true};
ghost use Rattle.qpu_job.specs.Lines.{without_last, content};

/// Line feed, and carriage return.
const LF: u8 = b'\n';

const CR: u8 = b'\r';

/// The line without its line feed, and without one carriage return directly before that.
#[tactic(auto, unfolding(crate::specs::Lines::content))]
pub(crate) fn content(line: &[u8]) -> &[u8]
    ensures { result.now ≡ content line.now }
{
    if !ends_with(LF, line) {
        return line;
    }
    without_last(CR, &line[..line.len() - 1])
}

fn without_last(byte: u8, text: &[u8]) -> &[u8]
    requires { 0 < byte }
    ensures { result.now ≡ without_last byte text.now }
{
    if !ends_with(byte, text) {
        return text;
    }
    &text[..text.len() - 1]
}

fn ends_with(byte: u8, text: &[u8]) -> bool
    requires { 0 < byte }
    ensures is { result ≡ (slice_index text.now (length text.now - 1) == byte) }
    ensures some { result ≡ true → 0 < length text.now }
{
    if text.is_empty() {
        return false;
    }
    text[text.len() - 1] == byte
}
