//! The tie of the rules: each calls the others by one level less, and answers too deep at none.
#![tactic(auto)]

pub mod depth;
pub mod layer;
pub mod parser;
pub mod rules;
pub mod tie;

pub use depth::Depth;
pub use layer::{Inside, Layer, Stood};
pub use parse_patterns::patterns::object_rest;
pub use parse_patterns::properties::property;
pub use parser::Through;
