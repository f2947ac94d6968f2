//! How the text of a node begins and ends: whether with a word, so that a blank keeps it from another.
#![tactic(auto)]

pub mod ends;
pub mod gaps;
pub mod starts;

pub use ends::EndsWithAlphaNum;
pub use starts::StartsWithAlphaNum;

/// Both questions, under the upstream crate's name of their module.
pub mod util {
    pub use crate::ends::EndsWithAlphaNum;
    pub use crate::starts::StartsWithAlphaNum;
}
