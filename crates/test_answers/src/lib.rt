//! Programs that answer questions: lines on standard input, each a setting and fields, and a line of fields on standard output
//! for each. `docs/ROWS.md` has the form.
#![tactic(auto)]

mod answer;
mod field;
mod program;
mod question;

pub use answer::Answer;
pub use program::{Subject, answer_all};
pub use question::Question;
