ghost use Rattle.std.specs.Prelude.{◌≡◌, ◌<◌};
ghost use Rattle.qpu_word.specs.declared.code.TheConstants.{VPM_BYTES};
ghost use Rattle.qpu_vpm.specs.Strands.{strand_place};

use qpu_bytes::Size;

/// The bytes of the VPM in which the lanes of one vector lie, in words one after another.
#[derive(Clone, Copy)]
pub(crate) struct Strand {
    /// The byte place of lane 0.
    pub(crate) start: u32,
    /// The bytes from a word of the vector to the next.
    pub(crate) step: u32,
    /// The elements that fill a word of the vector: a word where each lane has one of its own.
    pub(crate) filled: Size,
}

impl Strand {
    /// The byte place of a lane.
    pub(crate) fn place(self, lane: u32) -> u32
        requires { strand_place self lane < VPM_BYTES }
        ensures { result ≡ strand_place self lane }
    {
        match self.filled {
            Size::Byte => self.start + self.step * (lane / 4) + lane % 4,
            Size::Half => self.start + self.step * (lane / 2) + 2 * (lane % 2),
            Size::Word => self.start + self.step * lane,
        }
    }
}
