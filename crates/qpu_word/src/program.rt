ghost use Rattle.std.specs.Prelude.{◌≡◌, ℕ, Bool, ◌<◌};
ghost use Rattle.std.specs.Option.{SomeIff};

use crate::word::Word;

/// A program: its words, and the places that register branches may go to.
pub trait Program {
    /// How many words it has.
    ghost len: { Self → ℕ };

    /// The word at a place below the length, as its 64 bits.
    ghost word: { Self → ℕ → ℕ };

    /// Whether a place is a link point: the word after the slots of a branch that writes a link.
    ghost is_link: { Self → ℕ → Bool };

    /// The number of words.
    fn len(&self) -> u32
        ensures { result ≡ len self.now };

    /// The word at a place, counted in words from 0; none past the last.
    fn word(&self, at: u32) -> Option<Word>
        ensures { SomeIff result (at < len self.now) (record { 0 = word self.now at }) };

    /// Whether a place is a link point.
    fn is_link(&self, at: u32) -> bool
        ensures { result ≡ is_link self.now at };
}
