//! Writes the comments of a source between the tokens of a text that is laid out: which gap each stands in, what stands between
//! them, and which lines begin there.
#![tactic(auto)]

mod kinds;
mod places;
mod safe;
mod slots;
mod spacing;
mod weaving;

pub use slots::{Look, Note, Slot};
pub use weaving::weave;
