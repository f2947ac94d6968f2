//! Short texts and values of strings that own what they hold, for trees that outlive their source.

pub mod short_text;
pub mod units;

pub use short_text::Atom;
pub use units::StrValue;
