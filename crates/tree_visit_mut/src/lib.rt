//! A walk that changes a tree in place: what is below a node is changed first, and then the node, by the hooks of a
//! visitor. Each child stays of the sort of its place.
#![tactic(auto)]

mod declarations;
mod expressions;
mod functions;
pub mod hooks;
mod literals;
mod objects;
mod patterns;
mod programs;
mod statements;
pub mod tie;
pub mod walk;
pub mod words;

pub use hooks::VisitMut;
pub use tie::VisitMutWith;
pub use words::{VisitMutWords, Words};
