//! What was read as an expression, refined to a pattern (ECMA-262, 13.15.5 and 15.3.1). It reads no token. The tree is taken
//! apart and its parts are moved into the pattern.
#![tactic(auto)]

pub mod bindings;
pub mod items;
pub mod leaves;
pub mod made;
pub mod params;
pub mod questions;
pub mod targets;
