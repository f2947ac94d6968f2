//! From a tree to text: the printer, and the writers of a program's text, as the printer's users name them.
#![tactic(auto)]

pub mod alone;
pub mod code;
mod emit;
pub mod emitter;
pub mod node;
pub mod text_writer;
pub mod util;

pub use alone::PrintAlone;
pub use code::{to_code, to_code_default, to_code_with_comments};
pub use emitter::Emitter;
pub use node::Node;
pub use print_config::{Config, ListFormat, NoPlaces, SourceMapper, SourceMapperExt};
pub use print_writers::{EmitError, Gather};
pub use text_writer::{JsWriter, OmitTrailingSemi, Symbol, WriteJs, omit_trailing_semi};
pub use util::{EndsWithAlphaNum, StartsWithAlphaNum};

/// What a call that writes answers.
pub type Result = std::result::Result<(), EmitError>;
