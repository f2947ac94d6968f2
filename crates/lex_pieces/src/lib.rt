//! Reads one piece of a text at its front: trivia, a hashbang, a name, a
//! punctuator or a regular expression.
#![tactic(auto)]

pub mod bytes;
pub mod characters;
pub mod comments;
mod escapes;
pub mod laws;
pub mod names;
pub mod place;
pub mod punctuators;
pub mod regexps;
pub mod runs;
pub mod trivia;
pub mod words;

pub use bytes::{ByteClass, byte_class};
pub use characters::CharExt;
pub use comments::{Comment, CommentKind, collect_trivia};
pub use names::{Name, bare_name, identifier_name};
pub use punctuators::punctuator;
pub use regexps::{RegExp, regular_expression};
pub use runs::{split_block, split_line, split_name_part, split_reg_exp_char, split_white_space};
pub use trivia::{Goal, LineMark, Trivia, hashbang, skip_trivia, trivia_piece};
pub use words::{is_escaped_reserved, word};
