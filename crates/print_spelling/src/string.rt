//! How strings and names are written.

mod character;
pub mod laws;
pub mod names;
pub mod quoted;
pub mod strings;
pub mod units;

pub use names::NameText;
pub use quoted::QuotedText;
pub use strings::keeps_raw;
