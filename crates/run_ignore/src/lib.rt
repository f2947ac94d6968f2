//! Names with `*`, `**`, `?` and `[a-z]`, and the rules of `.gitignore` files, as gitignore(5) has them.
#![tactic(auto)]

mod lines;
mod matching;
mod patterns;
mod pieces;
mod reading;
mod rules;

pub use patterns::Pattern;
pub use pieces::{Class, Piece, Range};
pub use rules::{Rule, Rules, Verdict};
