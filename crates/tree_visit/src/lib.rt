//! A walk over all nodes of a tree: each is entered, what is below it is gone over in the order of the source, and it
//! is left. Chains of expressions are gone down link by link (`spine`).
#![tactic(auto)]

mod declarations;
mod expressions;
mod functions;
pub mod hooks;
pub mod kinds;
mod knot;
pub mod lists;
mod literals;
mod objects;
mod patterns;
mod programs;
pub mod spine;
mod spines;
mod statements;
mod told;
pub mod watch;

pub use hooks::{Hooks, Visit};
pub use kinds::Kind;
pub use watch::{Node, Walk, Watch};
