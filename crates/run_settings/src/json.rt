//! Texts of JSON: a message for editors, and the settings that hold.

use crate::messages::Message;
use crate::values::target_name;
use run_command::{Indent, LineEnd, Options};
use serde_json::{Value, json};
use std::alloc::{AllocError, Global};

/// A message as a line of JSON: its path, its line and its column, which are 0 where it is of no place, and what it says.
///
/// # Errors
///
/// `AllocError` where there is no memory for it.
pub fn message_json(alloc: Global, message: &Message<'_>) -> Result<String, AllocError> {
    let (line, column) = match message.place {
        Some(place) => (place.line, place.column),
        None => (0, 0),
    };
    let path = message.path;
    let text = message.text;
    let value = json!(in alloc; {
        "path": path,
        "line": line,
        "column": column,
        "message": text
    })?;
    let mut line = value.to_string(alloc)?;
    line.push('\n')?;
    Ok(line)
}

/// A step of indentation as a value.
fn indent_value(alloc: Global, indent: Indent) -> Result<Value, AllocError> {
    match indent {
        Indent::Blanks(count) => Ok(Value::from(u64::from(count))),
        Indent::Tabs(_) => Value::try_from_str(alloc, "tab"),
    }
}

/// The name of a line end.
fn line_end_name(line_end: LineEnd) -> &'static str {
    match line_end {
        LineEnd::Lf => "lf",
        LineEnd::CrLf => "crlf",
    }
}

/// The settings that hold for a file as a line of JSON, as a settings file has them, but for the goal.
///
/// # Errors
///
/// `AllocError` where there is no memory for it.
pub fn config_json(alloc: Global, options: &Options) -> Result<String, AllocError> {
    let indent = indent_value(alloc, options.indent)?;
    let line_end = line_end_name(options.line_end);
    let target = target_name(options.target);
    let ascii_only = options.ascii_only;
    let inline_script = options.inline_script;
    let nesting = u64::from(options.nesting);
    let value = json!(in alloc; {
        "target": target,
        "asciiOnly": ascii_only,
        "inlineScript": inline_script,
        "lineEnd": line_end,
        "indent": indent,
        "nesting": nesting
    })?;
    let mut line = value.to_string(alloc)?;
    line.push('\n')?;
    Ok(line)
}
