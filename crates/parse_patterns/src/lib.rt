//! Patterns that bind (ECMA-262, 14.3.3).
#![tactic(auto)]

pub mod items;
pub mod made;
pub mod patterns;
pub mod properties;
