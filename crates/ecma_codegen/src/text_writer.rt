//! What the printer writes to, and its writers.

pub use print_writers::text_writer::{JsWriter, OmitTrailingSemi, WriteJs, omit_trailing_semi};
use tree_nodes::Str;

/// A string of the tree.
pub type Symbol = Str;
