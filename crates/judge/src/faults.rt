//! The early errors of a finished program: the code of the walk that defines them.

mod bodies;
mod check;
mod declarations;
mod expressions;
mod functions;
mod inits;
mod knot;
mod literals;
mod members;
mod modes;
mod names;
mod objects;
mod parts;
mod patterns;
mod program;
mod programs;
mod protos;
mod questions;
mod statements;
mod targets;

pub use check::Check;
pub use parts::{check_item, check_part};
pub use program::{check_module, check_program, check_script};
