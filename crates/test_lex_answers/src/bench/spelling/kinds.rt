//! Spellings of each kind.

use base_number::NumValue;
use base_token::EsVersion;
use print_spelling::Style;
use print_spelling::number::{NumberText, formatted, minified};
use print_spelling::string::{NameText, QuotedText};
use std::alloc::Global;
use std::io::Write;

/// Names as a program has them.
const NAMES: [&str; 4] = ["index", "prototype", "callback", "getElementById"];

/// Names with a character that an escape stands for where ASCII is asked for.
const WIDE: [&str; 4] = ["größe", "naïve", "длина", "été"];

/// Strings as a program has them.
const STRINGS: [&str; 4] = [
    "click",
    "a message that is told once",
    "use strict it says",
    "https://example.org/index.html",
];

/// Strings with an escape or more.
const ESCAPED: [&str; 4] = [
    "a line\nand one more\n",
    "both \" and ' and \"",
    "C:\\folder\\name",
    "\u{2028}\u{7}",
];

/// Numbers as a program has them.
const NUMBERS: [&str; 4] = ["0", "1000", "3.25", "0xFFFF_FFFF"];

/// The settings that text is written by.
fn style(minify: bool, ascii_only: bool) -> Style {
    Style {
        target: EsVersion::Es2020,
        minify,
        ascii_only,
        inline_script: false,
    }
}

/// The units of a text.
fn units(alloc: Global, text: &str) -> anyhow::Result<Vec<u16>> {
    let mut units = Vec::new(alloc);
    for unit in text.encode_utf16() {
        units.push(unit)?;
    }
    Ok(units)
}

/// Writes one string.
fn string<W: Write>(out: &mut W, units: &[u16]) -> anyhow::Result<()> {
    let mut left = QuotedText::new(units, style(true, false));
    for _ in 0..u64::MAX {
        let Some(block) = left.next_block() else {
            break;
        };
        out.write_all(block.as_str().as_bytes())?;
    }
    Ok(())
}

/// Writes so many strings.
fn strings<W: Write>(
    alloc: Global,
    out: &mut W,
    texts: &[&str; 4],
    count: u32,
) -> anyhow::Result<()> {
    let lists = [
        units(alloc, texts[0])?,
        units(alloc, texts[1])?,
        units(alloc, texts[2])?,
        units(alloc, texts[3])?,
    ];
    for index in 0..count {
        string(out, lists[index as usize % 4].as_slice())?;
    }
    Ok(())
}

/// Writes so many names.
fn names<W: Write>(
    out: &mut W,
    texts: &[&str; 4],
    ascii_only: bool,
    count: u32,
) -> anyhow::Result<()> {
    for index in 0..count {
        let mut left = NameText::name(texts[index as usize % 4], style(true, ascii_only));
        for _ in 0..u64::MAX {
            let Some(piece) = left.next_piece() else {
                break;
            };
            out.write_all(piece.as_str().as_bytes())?;
        }
    }
    Ok(())
}

/// The value of a number.
fn value(alloc: Global, text: &str) -> anyhow::Result<NumValue> {
    match NumValue::read(alloc, text)? {
        Some(value) => Ok(value),
        None => Err(anyhow::Error::msg("no number")),
    }
}

/// The values of the numbers.
fn values(alloc: Global) -> anyhow::Result<[NumValue; 4]> {
    Ok([
        value(alloc, NUMBERS[0])?,
        value(alloc, NUMBERS[1])?,
        value(alloc, NUMBERS[2])?,
        value(alloc, NUMBERS[3])?,
    ])
}

/// Writes so many numbers minified.
fn numbers<W: Write>(alloc: Global, out: &mut W, count: u32) -> anyhow::Result<()> {
    let values = values(alloc)?;
    for index in 0..count {
        let NumberText {
            first,
            second,
            third,
        } = minified(&values[index as usize % 4]);
        out.write_all(first.as_bytes())?;
        out.write_all(second.as_bytes())?;
        out.write_all(third.as_bytes())?;
    }
    Ok(())
}

/// Writes so many numbers as they were read.
fn as_read<W: Write>(alloc: Global, out: &mut W, count: u32) -> anyhow::Result<()> {
    let values = values(alloc)?;
    for index in 0..count {
        let place = index as usize % 4;
        let mut left = formatted(style(false, false), &values[place], Some(NUMBERS[place]));
        for _ in 0..u64::MAX {
            let Some(piece) = left.next_piece() else {
                break;
            };
            out.write_all(piece.as_bytes())?;
        }
    }
    Ok(())
}

/// Writes so many spellings of a kind.
pub(crate) fn fill<W: Write>(
    alloc: Global,
    out: &mut W,
    kind: &str,
    count: u32,
) -> anyhow::Result<()> {
    match kind {
        "strings" => strings(alloc, out, &STRINGS, count),
        "escaped" => strings(alloc, out, &ESCAPED, count),
        "numbers" => numbers(alloc, out, count),
        "formatted" => as_read(alloc, out, count),
        "ascii" => names(out, &WIDE, true, count),
        _ => names(out, &NAMES, false, count),
    }
}
