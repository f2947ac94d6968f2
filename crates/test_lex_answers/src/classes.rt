//! Classes of bytes and characters: all that are in one.

use crate::told::failed;
use lex_pieces::{CharExt, byte_class};
use test_answers::Answer;

/// Whether a byte has what is asked: a class by its name, or a property.
fn has(byte: u8, asked: &str, answer: &Answer) -> anyhow::Result<bool> {
    let class = byte_class(byte);
    match asked {
        "is_name_part" => Ok(class.is_name_part()),
        "is_white_space" => Ok(class.is_white_space()),
        _ => Ok(format!(in answer.alloc(); "{class:?}")?.as_str() == asked),
    }
}

/// All bytes of a class, in one field.
pub fn bytes(asked: &str, answer: &mut Answer) -> anyhow::Result<()> {
    let mut found = Vec::new(answer.alloc());
    for byte in 0..=255u8 {
        if has(byte, asked, answer)? {
            found.push(byte)?;
        }
    }
    Ok(answer.push(found.as_slice())?)
}

/// Whether a character has a property.
fn is(c: char, asked: &str) -> anyhow::Result<bool> {
    match asked {
        "is_ws" => Ok(c.is_ws()),
        "is_line_terminator" => Ok(c.is_line_terminator()),
        "is_line_break" => Ok(c.is_line_break()),
        _ => failed("no such property"),
    }
}

/// All characters of a class, in one field.
pub fn characters(asked: &str, answer: &mut Answer) -> anyhow::Result<()> {
    let mut found = String::new(answer.alloc());
    for code in 0..0x11_0000u32 {
        if let Some(c) = char::from_u32(code)
            && is(c, asked)?
        {
            found.push(c)?;
        }
    }
    Ok(answer.push(found.as_bytes())?)
}
