//! Whether the text of a node starts or ends with a word.

pub use print_gaps::{EndsWithAlphaNum, StartsWithAlphaNum};
