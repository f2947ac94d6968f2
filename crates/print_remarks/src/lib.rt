//! The comments that stand between the tokens of a source, as `print_notes` writes them.
#![tactic(auto)]

mod gaps;

pub use gaps::push_notes;
