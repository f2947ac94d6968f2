//! Texts of each kind.

use base_token::{BytePos, Span};
use print_writers::{EmitError, WriteJs};

/// Names as a program has them.
const NAMES: [&str; 8] = [
    "a",
    "index",
    "length",
    "e",
    "prototype",
    "options",
    "callback",
    "result",
];

/// Strings as a program has them, with their quotes.
const STRINGS: [&str; 4] = [
    "\"click\"",
    "\"a message that is told once\"",
    "\"use strict\"",
    "\"https://example.org/index.html\"",
];

/// The span of the text of this number.
fn span_of(index: u32) -> Span {
    let lo = index.saturating_mul(2).saturating_add(1);
    Span {
        lo: BytePos(lo),
        hi: BytePos(lo.saturating_add(1)),
    }
}

/// The name of this number.
fn name(index: u32) -> &'static str {
    NAMES[index as usize % 8]
}

/// Writes so many names, each before a comma.
fn names<W: WriteJs>(writer: &mut W, count: u32) -> Result<(), EmitError> {
    for index in 0..count {
        writer.write_symbol(span_of(index), name(index))?;
        writer.write_punct(None, ",")?;
    }
    Ok(())
}

/// Writes so many strings, each before a comma.
fn strings<W: WriteJs>(writer: &mut W, count: u32) -> Result<(), EmitError> {
    for index in 0..count {
        writer.write_str_lit(span_of(index), STRINGS[index as usize % 4])?;
        writer.write_punct(None, ",")?;
    }
    Ok(())
}

/// Writes so many names, each before a blank.
fn line<W: WriteJs>(writer: &mut W, count: u32) -> Result<(), EmitError> {
    for index in 0..count {
        writer.write_symbol(span_of(index), name(index))?;
        writer.write_space()?;
    }
    Ok(())
}

/// Writes so many names, each in a line of its own, 255 levels deep.
fn lines<W: WriteJs>(writer: &mut W, count: u32) -> Result<(), EmitError> {
    for _ in 0..255 {
        writer.increase_indent()?;
    }
    for index in 0..count {
        writer.write_symbol(span_of(index), name(index))?;
        writer.write_line()?;
    }
    Ok(())
}

/// Writes so many names, each before a semicolon.
fn semicolons<W: WriteJs>(writer: &mut W, count: u32) -> Result<(), EmitError> {
    for index in 0..count {
        writer.write_symbol(span_of(index), name(index))?;
        writer.write_semi(None)?;
    }
    Ok(())
}

/// Marks so many positions at one place.
fn places<W: WriteJs>(writer: &mut W, count: u32) -> Result<(), EmitError> {
    writer.write_str("a")?;
    for index in 0..count {
        writer.add_srcmap(BytePos(index.saturating_add(1)))?;
    }
    Ok(())
}

/// Marks so many positions at one place, each smaller than the last.
fn falling<W: WriteJs>(writer: &mut W, count: u32) -> Result<(), EmitError> {
    writer.write_str("a")?;
    for index in 0..count {
        writer.add_srcmap(BytePos(count - index))?;
    }
    Ok(())
}

/// Marks so many positions at one place, in no order.
fn scattered<W: WriteJs>(writer: &mut W, count: u32) -> Result<(), EmitError> {
    writer.write_str("a")?;
    for index in 0..count {
        writer.add_srcmap(BytePos(index.wrapping_mul(0x9E37_79B1)))?;
    }
    Ok(())
}

/// Writes so many texts of a kind.
pub(crate) fn fill<W: WriteJs>(writer: &mut W, kind: &str, count: u32) -> Result<(), EmitError> {
    match kind {
        "strings" => strings(writer, count),
        "line" => line(writer, count),
        "lines" => lines(writer, count),
        "semicolons" => semicolons(writer, count),
        "places" => places(writer, count),
        "falling" => falling(writer, count),
        "scattered" => scattered(writer, count),
        _ => names(writer, count),
    }
}
