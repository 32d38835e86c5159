//! The places of a transfer, by its setup.
ghost use Rattle.std.specs.Prelude.{◌≡◌, ◌<◌, ◌≤◌, ◌^◌, ℕ};
ghost use Rattle.qpu_bytes.specs.Elements.{in_word};
ghost use Rattle.qpu_dma.specs.Transfers.{transfer_of, width_size, width_first, load_pitch};
ghost use Rattle.qpu_dma.specs.declared.direction.Direction.TheVariants.{Load, Store};
ghost use Rattle.qpu_dma.specs.States.{state_of, IsPossible};

use crate::Direction;
use crate::bits::{bits, counted_bits};
use crate::places::Places;
use qpu_bytes::Size;

/// A pitch code p, 1 to 15, stands for 8 * 2^p bytes.
const PITCH_UNIT: u32 = 8;

/// The first width codes of elements of 16 and of 8 bits. A lower one is that of 32 bits.
const WIDTH_HALF: u32 = 2;

const WIDTH_BYTE: u32 = 4;

/// The size of a width code.
fn width_size(width: u32) -> Size
    ensures { result ≡ width_size width }
{
    if width == 0 {
        Size::Word
    } else if width < WIDTH_BYTE {
        Size::Half
    } else {
        Size::Byte
    }
}

/// The part of a word, in elements, at which a width code begins.
fn width_first(width: u32) -> u32
    ensures { result ≡ width_first width }
{
    if width == 0 {
        0
    } else if width < WIDTH_BYTE {
        width.saturating_sub(WIDTH_HALF)
    } else {
        width - WIDTH_BYTE
    }
}

/// The bytes from a row of a load to the next: by the setup's code, or the extended pitch.
fn load_pitch(setup: u32, extended: u32) -> u32
    ensures { result ≡ load_pitch setup extended }
{
    let code = bits(setup, 24, 4);
    if code == 0 {
        extended
    } else {
        PITCH_UNIT << code
    }
}

/// The places of a load, by its setup, the extended pitch and the address, both in bytes.
#[tactic(auto, unfolding(crate::specs::Transfers::transfer_of))]
fn load_places(setup: u32, pitch: u32, address: u32) -> Places
    ensures state { state_of result 0 ≡ transfer_of Load setup pitch address }
    ensures possible { IsPossible (state_of result 0) }
{
    let pitch = load_pitch(setup, pitch);
    let width = bits(setup, 28, 3);
    Places {
        rows: counted_bits(setup, 16, 4),
        row_length: counted_bits(setup, 20, 4),
        size: width_size(width),
        laned: true,
        first: width_first(width),
        address,
        pitch: u64::from(pitch),
        row: bits(setup, 4, 7),
        column: bits(setup, 0, 4),
        vertical: bits(setup, 11, 1) == 1,
        vpm_pitch: counted_bits(setup, 12, 4),
        aligned: pitch,
    }
}

/// The places of a store, by its setup, the stride and the address, both in bytes.
#[tactic(auto, unfolding(crate::specs::Transfers::transfer_of))]
fn store_places(setup: u32, stride: u32, address: u32) -> Places
    ensures state { state_of result 0 ≡ transfer_of Store setup stride address }
    ensures possible { IsPossible (state_of result 0) }
{
    let depth = counted_bits(setup, 16, 7);
    let width = bits(setup, 0, 3);
    let size = width_size(width);
    Places {
        rows: counted_bits(setup, 23, 7),
        row_length: depth,
        size,
        laned: bits(setup, 15, 1) == 1,
        first: width_first(width),
        address,
        pitch: u64::from(size.bytes()) * u64::from(depth) + u64::from(stride),
        row: bits(setup, 7, 7),
        column: bits(setup, 3, 4),
        vertical: bits(setup, 14, 1) == 0,
        vpm_pitch: 1,
        aligned: stride,
    }
}

/// The places of a transfer, by its direction, setup, pitch or stride, and address.
pub(crate) fn places(direction: Direction, setup: u32, step: u32, address: u32) -> Places
    ensures state { state_of result 0 ≡ transfer_of direction setup step address }
    ensures possible { IsPossible (state_of result 0) }
{
    match direction {
        Direction::Load => load_places(setup, step, address),
        Direction::Store => store_places(setup, step, address),
    }
}
