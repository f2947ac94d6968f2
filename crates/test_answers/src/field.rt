//! Fields of lines: a tab, a line feed, a carriage return and a backslash are `\t`, `\n`, `\r` and `\\` there.

use std::alloc::{AllocError, Global};

/// The text that a field stands for.
///
/// # Errors
///
/// Want of memory.
pub fn unescape(alloc: Global, field: &str) -> Result<String, AllocError> {
    let mut text = String::new(alloc);
    let mut is_escape = false;
    for c in field.chars() {
        if is_escape {
            text.push(match c {
                't' => '\t',
                'n' => '\n',
                'r' => '\r',
                other => other,
            })?;
            is_escape = false;
        } else if c == '\\' {
            is_escape = true;
        } else {
            text.push(c)?;
        }
    }
    Ok(text)
}

/// Adds a field of these bytes to a line.
///
/// # Errors
///
/// Want of memory.
pub fn push_escaped(line: &mut Vec<u8>, bytes: &[u8]) -> Result<(), AllocError> {
    for byte in bytes {
        match *byte {
            b'\t' => line.extend_from_slice(b"\\t")?,
            b'\n' => line.extend_from_slice(b"\\n")?,
            b'\r' => line.extend_from_slice(b"\\r")?,
            b'\\' => line.extend_from_slice(b"\\\\")?,
            own => line.push(own)?,
        }
    }
    Ok(())
}
