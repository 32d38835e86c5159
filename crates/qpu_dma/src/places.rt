ghost use Rattle.std.specs.Prelude.{◌≡◌, ◌<◌, ◌≤◌, ◌+◌, ◌*◌, ◌/◌, ◌%◌, ◌^◌, ◌==◌, ◌&&◌, ◌||◌, nat_lt, ℕ, IsTrue};
ghost use Rattle.qpu_bytes.specs.Elements.{bytes_in, in_word, byte_place};
ghost use Rattle.qpu_dma.specs.Transfers.{words_along, byte_along, spot_at, pair_at, fits};
ghost use Rattle.qpu_dma.specs.States.{state_of, IsPossible, IsMovable};
ghost use Rattle.qpu_word.specs.declared.code.TheConstants.{MEMORY_WORDS};

use crate::Pair;
use qpu_bytes::Size;
use qpu_word::code::{VPM_COLUMNS, VPM_ROW_BYTES, VPM_ROWS, WORD_BYTES};

/// The places of a transfer: rows of so many elements.
#[derive(Clone, Copy, Debug)]
pub(crate) struct Places {
    /// Rows, 1 to 128.
    pub(crate) rows: u32,
    /// Elements of a row, 1 to 128.
    pub(crate) row_length: u32,
    /// Their size.
    pub(crate) size: Size,
    /// Whether each element lies in a VPM word of its own, and not packed with others.
    pub(crate) laned: bool,
    /// The part of its word, or of the packed words, at which a row begins, in elements: below their
    /// number in a word.
    pub(crate) first: u32,
    /// The byte address of the first element.
    pub(crate) address: u32,
    /// The bytes from a row to the next.
    pub(crate) pitch: u64,
    /// The VPM row of the first word.
    pub(crate) row: u32,
    /// Its column.
    pub(crate) column: u32,
    /// Whether a row of the transfer stands upright in the VPM.
    pub(crate) vertical: bool,
    /// The VPM rows, or columns, from a row of the transfer to the next.
    pub(crate) vpm_pitch: u32,
    /// What has to be a multiple of the size where there is more than one row, in bytes.
    pub(crate) aligned: u32,
}

/// A place of a transfer, which may lie outside memory and the VPM: sums don't wrap.
#[derive(Clone, Copy)]
struct Spot {
    /// The byte address in memory.
    at: u64,
    /// The VPM row, the column, and the byte of the word there.
    row: u64,
    column: u64,
    byte: u32,
}

impl Spot {
    /// Whether it lies in the VPM and in a memory of so many words.
    fn is_inside(self, words: u32) -> bool
        ensures { result ≡ (nat_lt (self.at / 4) words && nat_lt self.row VPM_ROWS && nat_lt self.column VPM_COLUMNS) }
    {
        self.at / u64::from(WORD_BYTES) < u64::from(words)
            && self.row < u64::from(VPM_ROWS)
            && self.column < u64::from(VPM_COLUMNS)
    }

    /// An element of a size that lies there.
    fn pair(self, size: Size) -> Pair
        requires at { self.at < 2 ^ 32 }
        requires row { self.row < 64 }
        requires column { self.column < 16 }
        requires byte { self.byte < 4 }
        ensures at { result.at ≡ self.at }
        ensures place { result.place ≡ byte_place self.row self.column self.byte }
        ensures size { result.size ≡ size }
    {
        let place = VPM_ROW_BYTES * self.row as u32 + WORD_BYTES * self.column as u32 + self.byte;
        Pair {
            at: self.at as u32,
            place,
            size,
        }
    }
}

/// Elements of 16 bits in a word.
const WORD_HALVES: u32 = 2;

/// How many whole words so many packed elements fill.
fn words_filled(size: Size, elements: u32) -> u32
    ensures words { result ≡ elements / in_word size }
    ensures most { result ≤ elements }
{
    match size {
        Size::Byte => elements / WORD_BYTES,
        Size::Half => elements / WORD_HALVES,
        Size::Word => elements,
    }
}

/// At which byte of a word the element behind so many packed ones begins.
fn byte_behind(size: Size, elements: u32) -> u32
    ensures byte { result ≡ bytes_in size * (elements % in_word size) }
{
    match size {
        Size::Byte => elements % WORD_BYTES,
        Size::Half => elements % WORD_HALVES * size.bytes(),
        Size::Word => 0,
    }
}

impl Places {
    /// How many words element j of a row lies behind the row's first word.
    fn words_along(&self, j: u32) -> u32
        requires j { j < 128 }
        requires first { self.now.first < 4 }
        ensures words { result ≡ words_along (state_of self.now 0) j }
    {
        if self.laned {
            j
        } else {
            words_filled(self.size, self.first + j)
        }
    }

    /// The byte of its word at which element j of a row begins.
    fn byte_along(&self, j: u32) -> u32
        requires j { j < 128 }
        requires first { self.now.first < 4 }
        ensures byte { result ≡ byte_along (state_of self.now 0) j }
    {
        if self.laned {
            self.size.bytes() * self.first
        } else {
            byte_behind(self.size, self.first + j)
        }
    }

    /// Where element j of row k lies.
    fn spot(&self, k: u32, j: u32) -> Spot
        requires k { k < 128 }
        requires j { j < 128 }
        requires first { self.now.first < 4 }
        requires pitch { self.now.pitch < 2 ^ 33 }
        ensures at { result.at ≡ (spot_at (state_of self.now 0) k j).at }
        ensures row { result.row ≡ (spot_at (state_of self.now 0) k j).row }
        ensures column { result.column ≡ (spot_at (state_of self.now 0) k j).column }
        ensures byte { result.byte ≡ (spot_at (state_of self.now 0) k j).byte }
    {
        let along = u64::from(self.words_along(j));
        let across = u64::from(k) * u64::from(self.vpm_pitch);
        let (down, right) = if self.vertical {
            (along, across)
        } else {
            (across, along)
        };
        Spot {
            at: u64::from(self.address)
                + u64::from(k) * self.pitch
                + u64::from(self.size.bytes()) * u64::from(j),
            row: u64::from(self.row) + down,
            column: u64::from(self.column) + right,
            byte: self.byte_along(j),
        }
    }

    /// Whether the address is a multiple of the elements' size and, where there is more than one
    /// row, the pitch or stride is one too.
    fn is_aligned(&self) -> bool
        ensures { result ≡ ((self.now.address % bytes_in self.now.size == 0) && (nat_lt self.now.rows 2 || (self.now.aligned % bytes_in self.now.size == 0))) }
    {
        let bytes = self.size.bytes();
        self.address % bytes == 0 && (self.rows < 2 || self.aligned % bytes == 0)
    }

    /// Whether the transfer may start, for a memory of so many words. No element lies at a greater
    /// address, row or column than the last, so the last alone is asked.
    pub(crate) fn fits(&self, words: u32) -> bool
        requires { IsPossible (state_of self.now 0) }
        ensures { result ≡ fits (state_of self.now 0) words }
    {
        let last = self.spot(self.rows - 1, self.row_length - 1);
        last.is_inside(words) && self.is_aligned()
    }

    /// Element j of row k.
    pub(crate) fn pair(&self, k: u32, j: u32) -> Pair
        requires possible { IsPossible (state_of self.now 0) }
        requires fits { IsTrue (fits (state_of self.now 0) MEMORY_WORDS) }
        requires k { k < self.now.rows }
        requires j { j < self.now.row_length }
        ensures pair { result ≡ pair_at (state_of self.now 0) k j }
    {
        self.spot(k, j).pair(self.size)
    }
}
