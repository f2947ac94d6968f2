//! Loops: `while`, `do` and `for`.
#![tactic(auto)]

pub mod for_heads;
pub mod for_tails;
pub mod fors;
pub mod made;
pub mod whiles;
