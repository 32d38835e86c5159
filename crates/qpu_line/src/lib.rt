//! Instructions between words and lines: what a word of the profile says, as types with the
//! manual's names, and the one canonical word of each instruction.
//!
//! A word is canonical where no field of it says anything that has no effect, so a canonical word
//! and its instruction tell the same. Here stand both directions and the laws that tie them. It
//! knows no text: lines are written and read above.
#![tactic(auto)]

mod branch;
mod instruction;
mod laws;
mod load;
mod name;
mod operand;
mod part;
mod semaphore;
mod slots;
mod spellings;
mod symbol;
mod target;
mod units;

pub use branch::Branch;
pub use instruction::Instruction;
pub use laws::{
    a_mux_of_an_idle_unit_is_refused, branches_come_back, canonical_words_are_named,
    instructions_come_back, loads_come_back, names_come_back, one_instruction_has_one_word,
    semaphores_come_back, sources_have_names, targets_have_names, units_are_canonical,
    units_come_back, words_come_back, words_fit,
};
pub use load::{Load, LoadKind, Write};
pub use name::{Name, Register};
pub use operand::Operand;
pub use part::Part;
pub use semaphore::Semaphore;
pub use spellings::spelling;
pub use symbol::Symbol;
pub use target::{address_of, is_row_a};
pub use units::{Signal, Units};

#[cfg(test)]
mod tests;
