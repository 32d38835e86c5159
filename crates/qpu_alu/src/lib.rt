//! Both units of a processor, lane by lane (Guide, "QPU Instruction Encoding", Op Add and Op Mul).
//!
//! What a unit computes on sixteen lanes of 32 bits, and the carries of add and sub. It knows no
//! processor: operands are handed in, and conditions, rotation and packing come after it.
#![tactic(auto)]

mod add;
mod bytes;
mod each;
mod mul;
mod vectors;

pub use add::{add_carries, add_results, add_unit};
pub use mul::{mul_results, mul_unit};
pub use qpu_word::{AddOp, MulOp};

#[cfg(test)]
mod tests;
