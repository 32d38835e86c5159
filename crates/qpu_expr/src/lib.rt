//! Expansion of assembly text: the second stage of the assembler.
//!
//! The tokens of a text are taken line by line. Macros, repeats, names that are set, expressions and
//! labels are judged, counted and taken out; what is left are plain lines, each of which gives one
//! word, and the labels with the words behind them. `expand` answers exactly the lines and labels of
//! the definition (specs/Expansion), or exactly its first fault. What trees of the grammar of
//! expressions write is read with the worth of the tree, and nothing else is (`reads_trees`,
//! `reads_only_trees`).
//!
//! What a plain line means isn't told here, and its mnemonics aren't known: all pieces of a part that
//! look like an expression are worked out, whatever the part begins with. The body of a macro is
//! copied at each call, also lines of it that a repeat of no turns then leaves out; its arguments are
//! shared by the copies, and put in only where a line is reached. Of a line with more tokens than a text
//! may reach only the first ones are held; what the others tell of its fault is read token by token
//! (`told`, `walk`).
#![tactic(auto)]

mod call;
mod deed;
mod directive;
mod expanded;
mod expansion;
mod expression;
mod form;
mod heading;
mod judge;
mod laws;
mod limits;
mod line;
mod macros;
mod operand;
mod operator;
mod piece;
mod place;
mod register;
mod scan;
mod setting;
mod state;
mod symbol;
mod table;
mod told;
mod walk;
mod whole;

pub use expanded::{Expanded, LabelAt, PlainLine};
pub use laws::{expands_by_rules, reads_only_trees, reads_trees};
pub use limits::MOST_WORDS;
pub use table::Table;
pub use whole::expand;

#[cfg(test)]
mod tests;
