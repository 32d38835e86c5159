//! The VPM, 64 rows of sixteen words: which of its bytes an access reads or writes, and their
//! elements of 8, 16 or 32 bits.
//!
//! It is shared whole and knows no processor. Its places are byte places: byte n of the VPM is byte
//! n mod 4, from the low end, of word n div 4.
#![tactic(auto)]

mod setup;
mod strand;
mod vpm;

pub use setup::VectorSetup;
pub use vpm::Vpm;

#[cfg(test)]
mod tests;
