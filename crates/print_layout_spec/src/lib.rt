//! The layout of a tree: how its text is to look, and what is written for each kind of node.
#![tactic(auto)]

pub mod look;

pub use look::{Look, Stand};
