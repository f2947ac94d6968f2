//! The rules of classes: keys and values of members, members, and a class as a declaration and as an expression.
#![tactic(auto)]

pub mod classes;
pub mod fields;
pub mod heads;
pub mod made;
pub mod members;

pub use parse_functions::declarations::function_decl;
