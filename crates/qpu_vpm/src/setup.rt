ghost use Rattle.std.specs.Prelude.{◌≡◌, ◌+◌, ◌*◌, ◌%◌, ◌<◌, ℕ, if◌then◌else◌};
ghost use Rattle.qpu_word.specs.Words.{field};
ghost use Rattle.qpu_word.specs.Setups.{counted};
ghost use Rattle.qpu_word.specs.declared.code.TheConstants.{VPM_ROWS};
ghost use Rattle.qpu_bytes.specs.Elements.{in_word};
ghost use Rattle.qpu_vpm.specs.Cells.{setup_of, size_of_code, access_place, lane_place};
ghost use Rattle.qpu_vpm.specs.Strands.{strand_place};

use crate::strand::Strand;
use qpu_bytes::Size;
use qpu_word::LANES;
use qpu_word::code::{VPM_COLUMNS, VPM_ROW_BYTES, VPM_ROWS, WORD_BYTES};

/// A setup of VPM vectors taken apart (Guide, "VPM and VCD Register Summary").
#[derive(Clone, Copy, Debug, PartialEq, Eq)]
pub struct VectorSetup {
    /// Whether a vector lies in a row, and not in a column of sixteen rows.
    pub horizontal: bool,
    /// Whether each lane has a word of its own, and not as many lanes a word as it has elements.
    /// Without effect for elements of 32 bits.
    pub laned: bool,
    /// The size of an element.
    pub size: Size,
    /// The step from the place of an access to that of the next, 1 to 64.
    pub stride: u32,
    /// The place of the first access, below 256. Places are taken modulo 64 times the elements of a
    /// word: e places are in a row, for e elements in a word.
    pub at: u32,
    /// How many vectors a read setup gives, 1 to 16.
    pub count: u32,
}

/// The number that stands for 0 in the field of a stride.
const STRIDE_MOST: u32 = 64;

/// The number that stands for 0 in the field of a count.
const COUNT_MOST: u32 = 16;

/// Bits `low` to `low + count - 1` of a setup.
fn bits(value: u32, low: u32, count: u32) -> u32
    requires low { low < 32 }
    requires count { count < 32 }
    ensures { result ≡ field value low count }
{
    (value >> low) % (1 << count)
}

/// A field in which 0 stands for the number above its range.
fn counted(n: u32, full: u32) -> u32
    ensures { result ≡ counted n full }
{
    if n == 0 { full } else { n }
}

/// The size of a size code: 0, 1 and 2 are 8, 16 and 32 bits.
fn size_of_code(code: u32) -> Size
    ensures { result ≡ size_of_code code }
{
    match code {
        0 => Size::Byte,
        1 => Size::Half,
        _ => Size::Word,
    }
}

impl VectorSetup {
    /// The fields of a value of a setup register. Bits that no field has are without effect.
    pub fn of(value: u32) -> VectorSetup
        ensures { result ≡ setup_of value }
    {
        VectorSetup {
            horizontal: bits(value, 11, 1) == 1,
            laned: bits(value, 10, 1) == 1,
            size: size_of_code(bits(value, 8, 2)),
            stride: counted(bits(value, 12, 6), STRIDE_MOST),
            at: bits(value, 0, 8),
            count: counted(bits(value, 20, 4), COUNT_MOST),
        }
    }

    /// The place of the k-th access, from 0.
    fn access(self, k: u32) -> u32
        ensures place { result ≡ access_place self k }
        ensures below { result < VPM_ROWS * in_word self.size }
    {
        let sum = u64::from(self.at) + u64::from(k) * u64::from(self.stride);
        (sum % u64::from(VPM_ROWS * self.size.in_word())) as u32
    }

    /// Where the lanes of the k-th access lie, from 0 (Guide, "VPM Vertical Access" and "VPM
    /// Horizontal Access").
    pub(crate) fn strand(self, k: u32) -> Strand
        ensures { (i : ℕ) → i < 16 → strand_place result i ≡ lane_place self (access_place self k) i }
    {
        let place = self.access(k);
        let line = place / self.size.in_word();
        let part = place % self.size.in_word();
        let step = if self.horizontal {
            WORD_BYTES
        } else {
            VPM_ROW_BYTES
        };
        let first = if self.horizontal {
            VPM_ROW_BYTES * line
        } else {
            VPM_COLUMNS * VPM_ROW_BYTES * (line / VPM_COLUMNS) + WORD_BYTES * (line % VPM_COLUMNS)
        };
        if self.laned {
            Strand {
                start: first + self.size.bytes() * part,
                step,
                filled: Size::Word,
            }
        } else {
            let words = LANES as u32 / self.size.in_word();
            Strand {
                start: first + words * step * part,
                step,
                filled: self.size,
            }
        }
    }
}
