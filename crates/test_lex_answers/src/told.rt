//! What is read, told in words.

use base_token::{Error, NumValue, Units};
use test_answers::{Answer, Question};

/// The text that a question asks about.
pub fn asked<'q>(question: &'q Question<'_>) -> anyhow::Result<&'q str> {
    let text = question.text(0);
    if text.len() < 100_000_000 {
        Ok(text)
    } else {
        failed("too long")
    }
}

/// The place of the end of a text that starts at 1.
pub fn end_of(text: &str) -> u32 {
    (text.len().min(100_000_000) as u32).saturating_add(1)
}

/// What keeps a question from an answer.
pub fn failed<T>(why: &str) -> anyhow::Result<T> {
    Err(anyhow::Error::msg(why))
}

/// A fault, with its place counted in bytes from 1.
pub fn fault(fault: &Error, answer: &mut Answer) -> anyhow::Result<()> {
    let (lo, hi) = (fault.span.lo.0, fault.span.hi.0);
    Ok(answer.say(format_args!("{:?} {lo}..{hi}", fault.kind))?)
}

/// A value as digits and a power of ten, or as radix and digits.
pub fn value(value: &NumValue, answer: &Answer) -> anyhow::Result<String> {
    let (radix, digits) = (value.radix(), value.digits());
    if radix != 10 {
        return Ok(format!(in answer.alloc(); "{radix}:{digits}")?);
    }
    let sign = if value.has_negative_exponent() {
        "-"
    } else {
        ""
    };
    let digits = if digits.is_empty() { "0" } else { digits };
    Ok(format!(in answer.alloc(); "{digits}e{sign}{}", value.exponent_digits())?)
}

/// The code units of a value.
pub fn units(units: &Units<'_>, answer: &Answer) -> anyhow::Result<String> {
    let units = units.clone()?.into_vec(answer.alloc())?;
    Ok(format!(in answer.alloc(); "{units:?}")?)
}
