//! The comments of a text, kept apart from its tree.
#![tactic(auto)]

pub mod owned;
pub mod store;

pub use lex_pieces::CommentKind;
pub use owned::Comment;
pub use store::Comments;
