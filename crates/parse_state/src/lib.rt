//! The parser's state: the source of tokens with the token that comes, and the smallest steps on it. Each is equal to a
//! reading function on the stream of the source.
#![tactic(auto)]

pub mod code;
pub mod failure;
pub mod operators;
pub mod parser;
pub mod semicolons;
pub mod steps;
pub mod words;

pub use code::Around;
pub use failure::Failure;
pub use lex_source::{Ahead, Look, Tokens, kind_numbers, kinds};
pub use parser::Parser;
