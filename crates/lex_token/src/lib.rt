//! Reads one token of a text at its front, under a lexical goal.
#![tactic(auto)]

pub mod goal;
pub mod laws;
pub mod lexeme;
mod literals;
mod read;
mod sort;
mod words;

pub use goal::LexicalGoal;
pub use lexeme::Lexeme;
pub use read::read_token;
pub use words::mark_token;
