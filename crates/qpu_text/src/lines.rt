//! The lines of a text.

ghost use Rattle.std.specs.Prelude.{◌≡◌, ◌+◌, ◌<◌, ◌∷◌, true, false, length, position};
ghost use Rattle.qpu_text.specs.Bytes.{is_lf, is_hash};
ghost use Rattle.qpu_text.specs.Lines.{cut_of, first_line, whole_line, lines, line_feeds, before_comment};

use crate::bytes::is_lf;

/// The first line of a text.
#[derive(Clone, Copy, Debug)]
pub struct Line<'a> {
    /// The line, with its line feed.
    pub whole: &'a str,
    /// Its bytes, without its line feed.
    pub front: &'a [u8],
    /// Whether a line feed ends it.
    pub ended: bool,
    /// What stands behind it.
    pub rest: &'a str,
}

/// The first line of a text. Of a text without line feed this is all of it.
pub fn first_line(text: &str) -> Line<'_>
    ensures cut { cut_of result ≡ first_line text.now }
    ensures whole { result.whole.now ≡ whole_line (first_line text.now) }
    ensures lines { 0 < length text.now → lines text.now ≡ result.whole.now ∷ lines result.rest.now }
    ensures sizes { length result.whole.now + length result.rest.now ≡ length text.now }
    ensures some { 0 < length text.now → 0 < length result.whole.now }
    ensures parts { result.ended ≡ true → length result.front.now + length result.rest.now + 1 ≡ length text.now }
{
    let bytes = text.as_bytes();
    match lf_in(bytes) {
        None => Line {
            whole: text,
            front: bytes,
            ended: false,
            rest: "",
        },
        Some(at) => {
            let (whole, rest) = text.split_at(at + 1);
            Line {
                whole,
                front: &bytes[..at],
                ended: true,
                rest,
            }
        }
    }
}

fn lf_in(text: &[u8]) -> Option<usize>
    ensures { result ≡ position is_lf text.now }
{
    text.iter().position(|byte| is_lf(*byte))
}

/// How many line feeds stand in a text.
pub fn line_feeds(text: &[u8]) -> usize
    ensures { result ≡ line_feeds text.now }
{
    text.iter().filter(|byte| is_lf(**byte)).count()
}

/// What stands before the first `#`.
pub fn before_comment(line: &[u8]) -> &[u8]
    ensures { result.now ≡ before_comment line.now }
{
    match hash_in(line) {
        None => line,
        Some(at) => &line[..at],
    }
}

fn hash_in(line: &[u8]) -> Option<usize>
    ensures { result ≡ position is_hash line.now }
{
    line.iter().position(|byte| *byte == b'#')
}
