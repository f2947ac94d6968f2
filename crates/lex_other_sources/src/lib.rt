//! Sources of tokens besides the lexer: a list, one that keeps what another hands out, and one that can go back.
#![tactic(auto)]

pub mod capturing;
mod copies;
pub mod list;
pub mod rewinding;

pub use capturing::Capturing;
pub use list::TokensInput;
pub use rewinding::Rewinding;
