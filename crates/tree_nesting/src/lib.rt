//! How deep a tree goes: each struct of it is one deeper than what it holds, but for links of chains (binary
//! operators, members, calls, tags) and `else if`, which are as deep as what they continue.
#![tactic(auto)]

mod counts;
mod declarations;
mod expressions;
mod functions;
mod knot;
pub mod laws;
mod literals;
mod objects;
mod patterns;
mod programs;
mod statements;

pub use counts::{Held, Nesting};
