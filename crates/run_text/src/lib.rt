//! Texts line by line: how two differ, and the line of a place.
#![tactic(auto)]

mod comments;
mod cutting;
mod framing;
mod patching;
mod turning;

pub use comments::comment_at;
pub use cutting::lines;
pub use framing::{Row, frame, row_of};
pub use patching::patch;
pub use turning::{Block, blocks};
