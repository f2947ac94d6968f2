//! How numbers and big integers are written.

pub mod as_read;
pub mod laws;
pub mod point;
pub mod text;

pub use as_read::{FormattedText, formatted, formatted_big_int};
pub use point::takes_point;
pub use text::{NumberText, big_int, minified};
