//! A run over many files, but for what a text is read and laid out as: what stands around a file, where what is written of it goes, and
//! what is told of it.
#![tactic(auto)]

mod around;
mod maps;
mod outcome;
mod output;
mod places;
mod run;
mod starting;
mod tally;
mod voice;

pub use outcome::{Laid, Opened, Outcome, Refusal};
pub use run::Run;
pub use starting::begin;
