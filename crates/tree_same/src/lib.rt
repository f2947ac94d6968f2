//! Whether two programs say the same: places don't count, and of how something is spelled only what a program
//! can see. The definition is `tree_program_spec`'s.
#![tactic(auto)]

mod declarations;
mod expressions;
mod functions;
mod keys;
mod knot;
mod literals;
mod objects;
mod parts;
mod patterns;
mod programs;
mod statements;
mod texts;
mod words;

pub use knot::same_program;
pub use parts::{Held, Present, Same};
