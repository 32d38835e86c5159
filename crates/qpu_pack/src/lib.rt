//! Packing, unpacking, rotation and small immediates (Guide, "QPU Instruction Encoding"), lane by
//! lane.
//!
//! What the hardware does around the units: on the way in, on the way out, and for the constants
//! that a word itself holds. It knows no processor.
#![tactic(auto)]

mod packing;
mod rotation;
mod small;
mod unpacking;

pub use packing::pack_into;
pub use rotation::rotate;
pub use small::{immediate_of, small_code};
pub use unpacking::unpack;

/// How many values a half word has.
const HALF_WORD: u32 = 0x1_0000;

/// How many bits a half word has.
const HALF_BITS: u32 = 16;

#[cfg(test)]
mod tests;
