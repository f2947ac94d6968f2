//! What a run is asked to do: its settings, and the program's command line that asks for them.
#![tactic(auto)]

pub mod arguments;
pub mod options;
pub mod request;
mod values;

pub use arguments::invocation;
pub use options::{Goal, Indent, LineEnd, Options, Style};
pub use request::{CliFault, Invocation};
