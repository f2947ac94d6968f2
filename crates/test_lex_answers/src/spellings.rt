//! Written spellings: strings by their units, names and keys, pieces of templates by their raw
//! texts, numbers by a spelling of theirs, big integers.

use base_number::NumValue;
use base_token::EsVersion;
use print_spelling::Style;
use print_spelling::number::{
    FormattedText, NumberText, big_int, formatted, formatted_big_int, minified, takes_point,
};
use print_spelling::string::{NameText, QuotedText, keeps_raw};
use print_spelling::template::{TemplateText, reg_exp};
use std::alloc::Global;
use test_answers::{Answer, Question};

/// The settings of a question.
fn style(question: &Question<'_>) -> Style {
    let target = if question.has("es3") {
        EsVersion::Es3
    } else if question.has("es5") {
        EsVersion::Es5
    } else if question.has("es2015") {
        EsVersion::Es2015
    } else if question.has("es2020") {
        EsVersion::Es2020
    } else {
        EsVersion::EsNext
    };
    Style {
        target,
        minify: !question.has("format"),
        ascii_only: question.has("ascii"),
        inline_script: question.has("inline"),
    }
}

/// Units as hexadecimal numbers with blanks between them.
fn units(alloc: Global, text: &str) -> anyhow::Result<Vec<u16>> {
    let mut units = Vec::new(alloc);
    for unit in text.split_whitespace() {
        units.push(u16::from_str_radix(unit, 16)?)?;
    }
    Ok(units)
}

/// Units as they are written in quotes.
fn string(text: &str, style: Style, answer: &mut Answer) -> anyhow::Result<()> {
    let units = units(answer.alloc(), text)?;
    let mut written: Vec<u8> = Vec::new(answer.alloc());
    let mut left = QuotedText::new(units.as_slice(), style);
    for _ in 0..u64::MAX {
        let Some(block) = left.next_block() else {
            break;
        };
        written.extend_from_slice(block.as_str().as_bytes())?;
    }
    Ok(answer.push(written.as_slice())?)
}

/// A string, by its units and its text as it was read.
fn raw(text: &str, raw: &str, style: Style, answer: &mut Answer) -> anyhow::Result<()> {
    let units = units(answer.alloc(), text)?;
    if keeps_raw(style, units.as_slice(), raw) {
        Ok(answer.push(raw.as_bytes())?)
    } else {
        string(text, style, answer)
    }
}

/// A name or a key.
fn name(left: NameText<'_>, answer: &mut Answer) -> anyhow::Result<()> {
    let mut left = left;
    let mut written: Vec<u8> = Vec::new(answer.alloc());
    for _ in 0..u64::MAX {
        let Some(piece) = left.next_piece() else {
            break;
        };
        written.extend_from_slice(piece.as_str().as_bytes())?;
    }
    Ok(answer.push(written.as_slice())?)
}

/// A piece of an untagged template.
fn template(left: TemplateText<'_>, answer: &mut Answer) -> anyhow::Result<()> {
    let mut left = left;
    let mut written: Vec<u8> = Vec::new(answer.alloc());
    for _ in 0..u64::MAX {
        let Some(piece) = left.next_piece() else {
            break;
        };
        written.extend_from_slice(piece.as_str().as_bytes())?;
    }
    Ok(answer.push(written.as_slice())?)
}

/// The pieces of a number when formatting.
fn pieces(alloc: Global, left: FormattedText<'_>) -> anyhow::Result<Vec<u8>> {
    let mut left = left;
    let mut written: Vec<u8> = Vec::new(alloc);
    for _ in 0..u64::MAX {
        let Some(piece) = left.next_piece() else {
            break;
        };
        written.extend_from_slice(piece.as_bytes())?;
    }
    Ok(written)
}

/// A number as it was read; before the point of a member with a point of its own where it takes one.
fn as_read(
    text: &str,
    style: Style,
    before_member: bool,
    answer: &mut Answer,
) -> anyhow::Result<()> {
    let Some(value) = NumValue::read(answer.alloc(), text)? else {
        return Err(anyhow::Error::msg("no number"));
    };
    let mut written = pieces(answer.alloc(), formatted(style, &value, Some(text)))?;
    if before_member && takes_point(style, &value, Some(text)) {
        written.push(b'.')?;
    }
    Ok(answer.push(written.as_slice())?)
}

/// A minified number before the point of a member.
fn member(text: &str, style: Style, answer: &mut Answer) -> anyhow::Result<()> {
    let Some(value) = NumValue::read(answer.alloc(), text)? else {
        return Err(anyhow::Error::msg("no number"));
    };
    let NumberText {
        first,
        second,
        third,
    } = minified(&value);
    let point = if takes_point(style, &value, None) {
        "."
    } else {
        ""
    };
    Ok(answer.say(format_args!("{first}{second}{third}{point}"))?)
}

/// A regular expression, by its body and its flags with a blank between them.
fn regular(text: &str, answer: &mut Answer) -> anyhow::Result<()> {
    let Some((body, flags)) = text.split_once(' ') else {
        return Err(anyhow::Error::msg("no flags"));
    };
    let text = reg_exp(body, flags);
    Ok(answer.say(format_args!(
        "{}{}{}{}",
        text.opening, text.body, text.closing, text.flags
    ))?)
}

/// The three parts of a number.
fn number(text: NumberText<'_>, answer: &mut Answer) -> anyhow::Result<()> {
    let NumberText {
        first,
        second,
        third,
    } = text;
    Ok(answer.say(format_args!("{first}{second}{third}"))?)
}

/// A big integer: its radix, its digits and, when formatting, its text as it was read, with blanks between them.
fn big_integer(text: &str, style: Style, answer: &mut Answer) -> anyhow::Result<()> {
    let Some((radix, rest)) = text.split_once(' ') else {
        return Err(anyhow::Error::msg("no big integer"));
    };
    let radix = radix.parse::<u32>()?;
    if style.minify {
        return number(big_int(radix, rest), answer);
    }
    let left = match rest.split_once(' ') {
        Some((digits, raw)) => formatted_big_int(style, radix, digits, Some(raw)),
        None => formatted_big_int(style, radix, rest, None),
    };
    let written = pieces(answer.alloc(), left)?;
    Ok(answer.push(written.as_slice())?)
}

/// The second word of a setting, which says what is spelled.
fn kind<'q>(question: &'q Question<'_>) -> &'q str {
    question.setting.split(' ').nth(1).unwrap_or_default()
}

/// A spelling of the kind that the setting says.
pub fn spell(question: &Question<'_>, text: &str, answer: &mut Answer) -> anyhow::Result<()> {
    match kind(question) {
        "string" => string(text, style(question), answer),
        "raw" => raw(text, question.text(1), style(question), answer),
        "name" => name(NameText::name(text, style(question)), answer),
        "key" => name(NameText::key(text, style(question)), answer),
        "template" => template(TemplateText::new(text, style(question)), answer),
        "number" => match NumValue::read(answer.alloc(), text)? {
            Some(value) => number(minified(&value), answer),
            None => Err(anyhow::Error::msg("no number")),
        },
        "formatted" => as_read(text, style(question), question.has("member"), answer),
        "member" => member(text, style(question), answer),
        "regexp" => regular(text, answer),
        "bigint" => big_integer(text, style(question), answer),
        _ => Err(anyhow::Error::msg("no such spelling")),
    }
}
