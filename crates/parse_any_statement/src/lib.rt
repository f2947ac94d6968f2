//! A statement of any kind.
#![tactic(auto)]

pub mod statements;

pub use parse_blocks::body::body;
pub use parse_classes::classes::class_tail;
