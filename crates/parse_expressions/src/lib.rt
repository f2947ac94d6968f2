//! The rules of expressions: literals and prefixes, `new`, templates, operators, members and calls, and the loop over what
//! follows an operand.
#![tactic(auto)]

pub mod news;
pub mod operators;
pub mod prefixes;
pub mod sequences;
pub mod templates;
pub mod turns;
