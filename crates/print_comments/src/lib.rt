//! A writer that puts the comments of a source between what is printed.
#![tactic(auto)]

pub mod with_comments;

pub use with_comments::WithComments;
