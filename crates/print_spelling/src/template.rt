//! How templates and regular expressions are written.

pub mod laws;
pub mod part;
pub mod raw;
pub mod regexp;
pub mod text;

pub use part::Part;
pub use regexp::{RegExpText, reg_exp};
pub use text::TemplateText;
