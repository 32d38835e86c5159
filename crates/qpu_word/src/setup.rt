//! The values of the setup registers, and what a processor keeps of them.
ghost use Rattle.std.specs.Prelude.{◌≡◌, ◌<◌, ◌≤◌, Result};
ghost use Rattle.qpu_word.specs.Words.{field};
ghost use Rattle.qpu_word.specs.Setups.{read_setup, write_setup, counted, vector_count};

use crate::fault::SetupFault;

/// A setup of VPM vectors, and how many vectors of it were used.
#[derive(Clone, Copy, Debug, PartialEq, Eq)]
pub struct Vectors {
    /// The value that was written to the setup register.
    pub setup: u32,
    /// Vectors done: below their number for a read setup, modulo 256 for a write setup.
    pub done: u32,
}

/// What a processor was given for its accesses to uniforms, VPM and memory.
#[derive(Clone, Copy, Debug, PartialEq, Eq)]
pub struct Book {
    /// The byte address of the next uniform.
    pub uniform_at: u32,
    /// The read setup in use.
    pub first: Option<Vectors>,
    /// The read setup that waits behind it.
    pub second: Option<Vectors>,
    /// The write setup in use.
    pub writes: Option<Vectors>,
    /// The DMA load setup.
    pub load: Option<u32>,
    /// The extended pitch of loads, in bytes.
    pub load_pitch: u32,
    /// The DMA store setup.
    pub store: Option<u32>,
    /// The stride of stores, in bytes.
    pub store_stride: u32,
}

/// What a valid value of the read setup register gives.
#[derive(Clone, Copy, Debug, PartialEq, Eq)]
pub enum ReadSetup {
    /// VPM vectors to be read.
    Vectors,
    /// A DMA load.
    Load,
    /// The extended pitch of loads.
    Pitch,
}

/// What a valid value of the write setup register gives.
#[derive(Clone, Copy, Debug, PartialEq, Eq)]
pub enum WriteSetup {
    /// VPM vectors to be written.
    Vectors,
    /// A DMA store.
    Store,
    /// The stride of stores.
    Stride,
}

/// The size code of a vector setup that no elements have.
const NO_SIZE: u32 = 3;

/// The width code of a store that no elements have.
const NO_WIDTH: u32 = 1;

/// The top four bits of an extended pitch.
const PITCH: u32 = 9;

/// Bits `low` to `low + count - 1` of a setup.
pub(crate) fn bits(value: u32, low: u32, count: u32) -> u32
    requires low { low < 32 }
    requires count { count < 32 }
    ensures { result ≡ field value low count }
{
    (value >> low) % (1 << count)
}

/// What a value of the read setup register, file A address 49, gives (Guide, "VPM and VCD Register
/// Summary"). The faults are Size and Kind: a load has no width that is refused, since 9 in the top
/// four bits is the extended pitch.
#[tactic(auto, unfolding(crate::specs::Setups::read_setup))]
pub fn read_setup(value: u32) -> Result<ReadSetup, SetupFault>
    ensures { result ≡ read_setup value }
{
    if bits(value, 30, 2) == 0 {
        if bits(value, 8, 2) == NO_SIZE {
            Err(SetupFault::Size)
        } else {
            Ok(ReadSetup::Vectors)
        }
    } else if bits(value, 30, 2) == 1 {
        Err(SetupFault::Kind)
    } else if bits(value, 28, 4) == PITCH {
        Ok(ReadSetup::Pitch)
    } else {
        Ok(ReadSetup::Load)
    }
}

/// What a value of the write setup register, file B address 49, gives (Guide, "VPM and VCD Register
/// Summary"). The faults are Size, Kind, Width and Block.
#[tactic(auto, unfolding(crate::specs::Setups::write_setup))]
pub fn write_setup(value: u32) -> Result<WriteSetup, SetupFault>
    ensures { result ≡ write_setup value }
{
    if bits(value, 30, 2) == 0 {
        if bits(value, 8, 2) == NO_SIZE {
            Err(SetupFault::Size)
        } else {
            Ok(WriteSetup::Vectors)
        }
    } else if bits(value, 30, 2) == 1 {
        Err(SetupFault::Kind)
    } else if bits(value, 30, 2) == 2 {
        if bits(value, 0, 3) == NO_WIDTH {
            Err(SetupFault::Width)
        } else {
            Ok(WriteSetup::Store)
        }
    } else if bits(value, 16, 1) == 0 {
        Ok(WriteSetup::Stride)
    } else {
        Err(SetupFault::Block)
    }
}

/// The vectors of a read setup whose number is written as 0.
const MOST_VECTORS: u32 = 16;

/// How many vectors a VPM read setup gives, 1 to 16.
pub(crate) fn vector_count(setup: u32) -> u32
    ensures count { result ≡ vector_count setup }
    ensures below { result ≤ 16 }
{
    match bits(setup, 20, 4) {
        0 => MOST_VECTORS,
        count => count,
    }
}
