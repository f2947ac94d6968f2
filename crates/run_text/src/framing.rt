//! The line of a place, with a mark below the place.

ghost use Rattle.std.specs.Prelude.{◌≡◌, ◌≤◌, length};
ghost use Rattle.run_text.specs.Rows.{ends_row, IsRowEnd, IsRowStart};

use std::alloc::{AllocError, Global};
use unicode_width::UnicodeWidthChar;

/// The columns that are shown before a place at most.
const BEFORE: usize = 60;

/// The columns that are shown from a place on at most.
const BEHIND: usize = 40;

/// What stands for the part of a line that is cut off.
const CUT: &str = "…";

/// A line of a text: what stands on it before a place, and what stands from there on.
#[derive(Clone, Copy)]
pub struct Row<'a> {
    pub before: &'a str,
    pub behind: &'a str,
}

/// Whether a byte ends a line: LF, and CR, also before LF.
fn ends_row(byte: u8) -> bool
    ensures { result ≡ ends_row byte }
{
    byte == b'\n' || byte == b'\r'
}

/// Where the line of a place begins.
fn row_start(text: &[u8], at: usize) -> usize
    requires { at ≤ length text.now }
    ensures { IsRowStart text.now at result }
{
    let mut start = at;
    while start > 0 && !ends_row(text[start - 1]) {
        start -= 1;
    }
    start
}

/// Where the line of a place ends.
fn row_end(text: &[u8], at: usize) -> usize
    requires { at ≤ length text.now }
    ensures { IsRowEnd text.now at result }
{
    let mut end = at;
    while end < text.len() && !ends_row(text[end]) {
        end += 1;
    }
    end
}

/// The line of a place. A place past the end counts as the end.
pub fn row_of(text: &str, at: usize) -> Row<'_> {
    let at = at.min(text.len());
    let bytes = text.as_bytes();
    Row {
        before: text.get(row_start(bytes, at)..at).unwrap_or(""),
        behind: text.get(at..row_end(bytes, at)).unwrap_or(""),
    }
}

/// How many columns a character takes. A tab and what isn't shown count for one.
fn width(c: char) -> usize {
    c.width().unwrap_or(1)
}

/// The end of a text that takes so many columns at most.
fn last_columns(text: &str, most: usize) -> &str {
    let mut start = text.len();
    let mut taken = 0usize;
    for (at, c) in text.char_indices().rev() {
        taken = taken.saturating_add(width(c));
        if taken > most {
            break;
        }
        start = at;
    }
    text.get(start..).unwrap_or(text)
}

/// The beginning of a text that takes so many columns at most.
fn first_columns(text: &str, most: usize) -> &str {
    let mut taken = 0usize;
    for (at, c) in text.char_indices() {
        taken = taken.saturating_add(width(c));
        if taken > most {
            return text.get(..at).unwrap_or(text);
        }
    }
    text
}

/// Adds a text without what would move a terminal's cursor: a control that isn't a tab is shown as a blank.
fn push_shown(line: &mut String, text: &str) -> Result<(), AllocError> {
    for c in text.chars() {
        line.push(if c != '\t' && c.width().is_none() {
            ' '
        } else {
            c
        })?;
    }
    Ok(())
}

/// Adds blanks as wide as a text, with its tabs.
fn push_blanks(line: &mut String, text: &str) -> Result<(), AllocError> {
    for c in text.chars() {
        if c == '\t' {
            line.push('\t')?;
        } else {
            for _ in 0..width(c) {
                line.push(' ')?;
            }
        }
    }
    Ok(())
}

/// The line with its number, and below it a mark under the place. A long line is cut on both sides of the place.
///
/// # Errors
///
/// `AllocError` where there is no memory for it.
pub fn frame(alloc: Global, number: u64, row: Row<'_>) -> Result<String, AllocError> {
    let before = last_columns(row.before, BEFORE);
    let behind = first_columns(row.behind, BEHIND);
    let mut text = format!(in alloc; "{number} | ")?;
    let margin = text.len();
    if before.len() < row.before.len() {
        text.push_str(CUT)?;
    }
    push_shown(&mut text, before)?;
    push_shown(&mut text, behind)?;
    if behind.len() < row.behind.len() {
        text.push_str(CUT)?;
    }
    text.push('\n')?;
    for _ in 2..margin {
        text.push(' ')?;
    }
    text.push_str("| ")?;
    if before.len() < row.before.len() {
        text.push(' ')?;
    }
    push_blanks(&mut text, before)?;
    text.push_str("^\n")?;
    Ok(text)
}
