//! Tokens of assembly text: the first stage of the assembler.
//!
//! Text is cut into names, numbers, signs and line ends, each with its place. Blanks and comments
//! separate and are left out. Which names there are and what lines are made of is not told here.
#![tactic(auto)]

mod before;
mod fault;
mod here;
mod laws;
mod piece;
mod place;
mod reading;
mod stop;
mod token;
mod turn;

pub use fault::{AsmFault, AsmKind, NO_MEMORY};
pub use laws::{one_answer, written_texts_have_their_tokens};
pub use reading::tokens;
pub use stop::Stop;
pub use token::{MOST_BYTES, Token, TokenKind};

#[cfg(test)]
mod tests;
