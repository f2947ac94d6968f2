//! What starts an expression, and whole expressions.
#![tactic(auto)]

pub mod expressions;
pub mod imports;
pub mod prefixes;
pub mod words;
