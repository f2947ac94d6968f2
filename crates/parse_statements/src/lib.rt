//! Statements: simple statements, jumps, `if` with its chain, `switch` and `try`.
#![tactic(auto)]

pub mod ifs;
pub mod jumps;
pub mod simple;
pub mod switches;
pub mod tries;
