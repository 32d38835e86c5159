//! DMA transfers: which elements of memory and of the VPM one transfer pairs, when it may start, and
//! what is left of it after a row.
//!
//! A transfer is made of a setup, a pitch or stride, a byte address and the number of words of
//! memory. It is there only where it may start, so all its rows can be moved with no further test.
//! It holds no memory and no VPM.
#![tactic(auto)]

mod bits;
mod decoding;
mod direction;
mod laws;
mod places;
mod transfer;

pub use direction::Direction;
pub use laws::each_place_once;
use qpu_bytes::Size;
pub use transfer::Transfer;

/// One element of a transfer.
#[derive(Clone, Copy, Debug, PartialEq, Eq)]
pub struct Pair {
    /// Its byte address in memory.
    pub at: u32,
    /// Its byte place in the VPM: byte n is byte n mod 4, from the low end, of VPM word n div 4.
    pub place: u32,
    /// Its size.
    pub size: Size,
}

/// Where a row of words lies that stand side by side in memory and in the VPM.
#[derive(Clone, Copy, Debug, PartialEq, Eq)]
pub struct WordRow {
    /// The index of its first word in memory.
    pub at: u32,
    /// The index of its first word in the VPM, row by row.
    pub place: u32,
}

/// A transfer may not start: some element of it lies outside the VPM or memory, or its address is no
/// multiple of the elements' size, or it has more than one row and its pitch (of a store: its
/// stride) is no multiple of the size.
#[derive(Clone, Copy, Debug, PartialEq, Eq)]
pub struct TransferOut;

#[cfg(test)]
mod tests;
