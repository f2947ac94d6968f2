//! The writers of programs' texts: calls for words, punctuators and lines, over any counted writer.
#![tactic(auto)]

pub mod fault;
mod js_writer;
mod lent;
pub mod lines;
mod marks;
mod omit;
mod output;
pub mod text_writer;

pub use fault::EmitError;
pub use output::write_all;
pub use print_blocks::gather::Gather;
pub use text_writer::{JsWriter, OmitTrailingSemi, WriteJs, omit_trailing_semi};
