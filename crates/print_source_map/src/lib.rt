//! Source maps (ECMA-426) of what is written: mappings of places, and their text.
#![tactic(auto)]

mod fault;
mod mapping;
mod numbers;
mod segments;

pub use fault::MapError;
pub use mapping::Mapping;
pub use segments::mappings;

#[cfg(test)]
mod tests;
