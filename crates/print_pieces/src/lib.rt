//! A writer that is printed to, and what printing a part of a layout does to it; and the printing of literals and names.
#![tactic(auto)]

pub mod literals;
pub mod printer;
pub mod text;

pub use printer::Printer;
pub use text::Text;
