//! How literals and names are spelled: settings, characters and pieces of text, which all share, and over them numbers, strings
//! and names, templates and regular expressions.
#![tactic(auto)]

pub mod form;
pub mod laws;
pub mod number;
pub mod piece;
pub mod string;
pub mod style;
pub mod template;

pub use form::Form;
pub use piece::Piece;
pub use style::Style;
