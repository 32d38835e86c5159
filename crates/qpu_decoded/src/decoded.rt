//! Words decoded.
ghost use Rattle.std.specs.Prelude.{◌≡◌};
ghost use Rattle.qpu_decoded.specs.Units.{rotates, is_plain, deed_of, decoded_of};

use crate::target::is_whole;
use crate::units::{Units, units_of};
use qpu_word::code::ROTATE_BY_R5;
use qpu_word::{Fields, Word};

/// What a word does, where it is one of the plain ones.
#[derive(Clone, Copy, Debug, PartialEq, Eq)]
pub enum Deed {
    /// Both units compute, what they write goes whole to a row or accumulator, and the word does
    /// nothing else. It is of any local word that this stands for.
    Plain(Units),
    /// Anything else: its fields tell.
    Other,
}

/// A word's fields, whether the word is local, and what it does.
#[derive(Clone, Copy, Debug, PartialEq, Eq)]
pub struct Decoded {
    /// The fields.
    pub fields: Fields,
    /// Whether the word touches its processor alone.
    pub local: bool,
    /// What it does.
    pub deed: Deed,
}

/// Whether the mul unit's result rotates.
fn rotates(f: &Fields) -> bool
    ensures { result ≡ rotates f.now }
{
    f.is_small() && ROTATE_BY_R5 <= f.raddr_b
}

/// Whether both units compute and write whole, and the word does nothing else.
#[tactic(auto, unfolding(crate::specs::Units::is_plain))]
fn is_plain(f: &Fields) -> bool
    ensures { result ≡ is_plain f.now }
{
    f.is_unit_word()
        && !f.is_program_end()
        && !f.has_tmu_load()
        && !rotates(f)
        && f.unpack == 0
        && is_whole(f)
}

/// What a word does.
#[tactic(auto, unfolding(crate::specs::Units::deed_of))]
fn deed_of(f: &Fields) -> Deed
    ensures { result ≡ deed_of f.now }
{
    if is_plain(f) {
        Deed::Plain(units_of(f))
    } else {
        Deed::Other
    }
}

impl Decoded {
    /// A word, decoded.
    pub fn of(word: Word) -> Decoded
        ensures { result ≡ decoded_of word.0 }
    {
        let fields = word.fields();
        Decoded {
            fields,
            local: fields.is_local(),
            deed: deed_of(&fields),
        }
    }
}
