//! Prints a program to any writer that counts its failures, in blocks, as the settings of a run ask.
#![tactic(auto)]

mod looks;
mod printing;

pub use ecma_codegen::EmitError;
pub use printing::{Positions, print, text_of};
