//! Whole programs within the limit of nesting, and parts of programs that are read alone: expressions, patterns, keys
//! and parameters, statements, declarations and items, properties of objects and of patterns.
#![tactic(auto)]

pub mod async_ends;
pub mod async_property_ends;
mod clean;
pub mod items;
pub mod output;
pub mod parameters;
pub mod parts;
pub mod pat_type;
pub mod pattern_properties;
pub mod programs;
pub mod properties;
pub mod settle;

pub use clean::{cover_in, is_clean, module_is_clean, script_is_clean};
pub use output::OutputType;
pub use pat_type::PatType;
