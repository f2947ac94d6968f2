//! The pieces of a text, what they are resolved to, that the calls of a writer write the same, and the lines and columns in
//! what is written (`lines`).
#![tactic(auto)]

pub mod laws;
pub mod lines;
