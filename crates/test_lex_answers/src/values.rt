//! Values of numbers.

use base_token::NumValue;
use std::alloc::{AllocError, Global};
use test_answers::Answer;

/// A value: its radix unless that is ten, its digits, and the power of ten.
fn told(alloc: Global, value: &NumValue) -> Result<String, AllocError> {
    let sign = if value.has_negative_exponent() {
        "-"
    } else {
        ""
    };
    let (digits, exponent) = (value.digits(), value.exponent_digits());
    let own = format!(in alloc; "{digits}e{sign}{exponent}")?;
    let radix = value.radix();
    if radix == 10 {
        return Ok(own);
    }
    format!(in alloc; "{radix}:{own}")
}

/// The value of a spelling. Its copy has to be the same.
pub fn value(text: &str, answer: &mut Answer) -> anyhow::Result<()> {
    let alloc = answer.alloc();
    let Some(number) = NumValue::read(alloc, text)? else {
        return Ok(answer.say("none")?);
    };
    let copy = number.clone()?;
    let own = told(alloc, &number)?;
    if !copy.is_same(&number) || told(alloc, &copy)? != own {
        return Err(anyhow::Error::msg("the copy has another value"));
    }
    Ok(answer.say(own.as_str())?)
}

/// Reads a number.
fn read(alloc: Global, text: &str) -> anyhow::Result<NumValue> {
    match NumValue::read(alloc, text)? {
        Some(value) => Ok(value),
        None => Err(anyhow::Error::msg("no number")),
    }
}

/// Whether two spellings have the same value.
pub fn same(one: &str, other: &str, answer: &mut Answer) -> anyhow::Result<()> {
    let alloc = answer.alloc();
    let is_same = read(alloc, one)?.is_same(&read(alloc, other)?);
    Ok(answer.say(if is_same { "same" } else { "other" })?)
}
