//! The lexer: a text and steps to tokens.
#![tactic(auto)]

mod calls;
mod kept;
mod last;
pub mod lexer;
mod look;
mod quick;
mod step;
mod unread;

pub use lex_pieces::CharExt;
pub use lex_source::canonical::canonical_text;
pub use lex_source::{Look, TokenContext, TokenContexts, Tokens};
pub use lexer::Lexer;
