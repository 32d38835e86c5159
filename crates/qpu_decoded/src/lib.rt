//! Instruction words decoded once, for whoever executes them many times: where operands come from,
//! what the units compute, and where their results go.
#![tactic(auto)]

mod decoded;
mod source;
mod target;
mod units;

pub use decoded::{Decoded, Deed};
pub use source::Source;
pub use target::{Target, is_whole};
pub use units::{Setter, Units};

#[cfg(test)]
mod tests;
