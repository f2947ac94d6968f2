//! The code around a node, and what early errors ask of names, literals and labels.

pub mod code;
pub mod labels;
pub mod listed;
pub mod texts;

pub use code::Code;
pub use labels::Labels;
