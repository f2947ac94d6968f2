//! The outline of a tree: its nodes in parentheses, each with its kind, what it spells, and its place.
#![tactic(auto)]

mod line;
mod names;
mod words;

pub use line::{outline, outline_part};
pub use names::kind_name;
