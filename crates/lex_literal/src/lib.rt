//! Reads one literal of a text at its front, and what it stands for: strings, pieces of templates
//! and numbers.
#![tactic(auto)]

pub mod escape;
pub mod laws;
pub mod number;
mod number_state;
mod place;
pub mod runs;
pub mod string;
pub mod template;

pub use base_token::EsVersion;
pub use escape::{BadEscape, Escape, read_escape};
pub use number::{Numeral, NumericLiteral, begins_number, read_number};
pub use string::{StringLiteral, read_string};
pub use template::{Ending, TemplatePiece, raw_text, read_template};
