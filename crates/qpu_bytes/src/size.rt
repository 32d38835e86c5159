ghost use Rattle.std.specs.Prelude.{◌≡◌, ◌≤◌};
ghost use Rattle.qpu_bytes.specs.Elements.{bytes_in, in_word};

/// The size of an element of the VPM or of a transfer.
#[derive(Clone, Copy, Debug, PartialEq, Eq)]
pub enum Size {
    /// 8 bits.
    Byte,
    /// 16 bits.
    Half,
    /// 32 bits.
    Word,
}

impl Size {
    /// How many bytes an element has: 1, 2 or 4.
    pub fn bytes(self) -> u32
        ensures bytes { result ≡ bytes_in self }
        ensures some { 1 ≤ result }
        ensures most { result ≤ 4 }
    {
        match self {
            Size::Byte => 1,
            Size::Half => 2,
            Size::Word => 4,
        }
    }

    /// How many elements a word has: 4, 2 or 1.
    pub fn in_word(self) -> u32
        ensures elements { result ≡ in_word self }
        ensures some { 1 ≤ result }
        ensures most { result ≤ 4 }
    {
        match self {
            Size::Byte => 4,
            Size::Half => 2,
            Size::Word => 1,
        }
    }
}
