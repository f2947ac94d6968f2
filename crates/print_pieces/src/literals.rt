//! Names and literals, printed part by part.

pub mod names;
pub mod numbers;
pub mod parts;
pub mod strings;
pub mod templates;
