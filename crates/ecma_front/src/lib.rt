//! Formats and minifies ECMAScript programs, from any reader to any writer.
#![tactic(auto)]

pub mod ast;
pub mod command;
mod exit;
mod fault;
mod input;
pub mod laws;
mod line_col;
mod pipeline;
mod reading;
mod texts;
mod writing;

pub use base_token::{
    BytePos, Counted, CountedRead, CountedWrite, DUMMY_SP, Error, EsConfig, EsSyntax, EsVersion,
    Failing, JscTarget, LineCol, Span, Spanned, Syntax, SyntaxError,
};
pub use command::answer;
pub use ecma_parser::{PResult, Parser};
pub use exit::{Exit, exit_of};
pub use fault::Fault;
pub use line_col::place;
pub use pipeline::{run, run_kept};
pub use reading::read;
pub use run_command::{CliFault, Goal, Indent, Invocation, LineEnd, Options, Style, invocation};
pub use run_memory as memory;
pub use run_print::{EmitError, Positions, print, text_of};
pub use texts::{format, minify};
