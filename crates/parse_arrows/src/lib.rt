//! The rules of arrow functions, parentheses, functions as expressions, and the word `async`.
#![tactic(auto)]

pub mod arrows;
pub mod asyncs;
pub mod function_expressions;
pub mod groups;
pub mod made;
