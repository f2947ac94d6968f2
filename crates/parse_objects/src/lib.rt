//! The rules of objects.
#![tactic(auto)]

pub mod lists;
pub mod made;
pub mod objects;
pub mod properties;
