//! The parser: tokens to a tree, over any source of tokens.
#![tactic(auto)]

pub mod choice;
mod each_part;
pub mod entries;
pub mod faults;
pub mod object;
pub mod parts;
pub mod programs;
mod rules;

pub use ecma_lexer::Lexer;
pub use entries::{Entries, Parser};
pub use faults::PResult;
pub use lex_other_sources::{Capturing, TokensInput};
pub use object::ParseObject;
pub use parse_alone::{OutputType, PatType};
pub use parse_state::Failure;
