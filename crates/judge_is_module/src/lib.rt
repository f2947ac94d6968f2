//! Whether a program's tree tells that it is a module, where nobody said so.
#![tactic(auto)]

mod declarations;
mod expressions;
mod functions;
mod knot;
mod objects;
mod parts;
mod patterns;
mod programs;
mod statements;

pub use programs::tells_module;
