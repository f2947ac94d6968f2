//! The text of a message for people.

use run_text::{Row, frame};
use std::alloc::{AllocError, Global};

/// A place in a text, from 1.
#[derive(Clone, Copy)]
pub struct Place {
    pub line: u64,
    pub column: u64,
}

/// What is said of a file.
#[derive(Clone, Copy)]
pub struct Message<'a> {
    pub path: &'a str,
    pub place: Option<Place>,
    /// The line of the place, where it is shown.
    pub row: Option<Row<'a>>,
    pub text: &'a str,
}

/// Adds a text in a colour, where there are colours.
fn push_colored(
    line: &mut String,
    text: &str,
    code: &str,
    has_colors: bool,
) -> Result<(), AllocError> {
    if !has_colors {
        return line.push_str(text);
    }
    line.push_str("\u{1b}[")?;
    line.push_str(code)?;
    line.push('m')?;
    line.push_str(text)?;
    line.push_str("\u{1b}[0m")
}

/// A message for people: where, and what, and the line with a mark below the place.
///
/// # Errors
///
/// `AllocError` where there is no memory for it.
pub fn message_text(
    alloc: Global,
    message: &Message<'_>,
    has_colors: bool,
) -> Result<String, AllocError> {
    let mut text = String::new(alloc);
    let path = message.path;
    let head = match message.place {
        Some(Place { line, column }) => format!(in alloc; "{path}:{line}:{column}")?,
        None => String::from_str(alloc, path)?,
    };
    push_colored(&mut text, head.as_str(), "1", has_colors)?;
    text.push_str(": ")?;
    push_colored(&mut text, message.text, "31", has_colors)?;
    text.push('\n')?;
    if let (Some(place), Some(row)) = (message.place, message.row) {
        text.push_str(frame(alloc, place.line, row)?.as_str())?;
    }
    Ok(text)
}
