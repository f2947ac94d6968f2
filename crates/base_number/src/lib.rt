//! The values of numbers (ECMA-262, 12.9.3 and B.1.1).
#![tactic(auto)]

ghost use Rattle.std.specs.Prelude.{◌≡◌, ◌≤◌, ◌++◌, ◌↔◌, IsTrue, true, IfOk, nat_abs};
ghost use Rattle.std.specs.Str.{IsAscii};
ghost use Rattle.std.specs.Option.{option_copied};
ghost use Rattle.std.specs.Str.Parse.{AllDigits};
ghost use Rattle.base_number.specs.Numbers.{plain, numeral, IsCanonical, number_digits, number_radix, number_exponent, is_below_zero, scaled, in_radix, decimal_number, unprefixed_number, prefixed_number, number_of};
ghost use Rattle.base_number.specs.DigitText.{digits_in};

use digits::{
    Digits, count_digits, cut, digits_in, lower_digits_in, small_value, spells_digits, trim_back,
    trim_front,
};
use exponent::{Exponent, decimal};
use spelling::{prefix_radix, spells_exponent, spells_mantissa, spells_octal};
use std::alloc::{AllocError, Global};
use std::marker::Model;
use std::str;

pub(crate) mod digits;
pub(crate) mod exponent;
pub(crate) mod spelling;

/// The value of a number, exact. A contract sees digits and a power of ten, or a radix and digits.
#[derive(Debug)]
pub struct NumValue {
    form: Form,
}

impl Drop for NumValue {
    #[inline(always)]
    fn drop(self) {
        let NumValue { form: _form } = self;
    }
}

#[derive(Debug, Drop)]
enum Form {
    /// Digits and those of the power of ten after them, in one text; `count` of it are the former.
    Scaled {
        negative: bool,
        count: usize,
        text: Digits,
    },
    InRadix {
        radix: u32,
        digits: Digits,
    },
}

impl Model for NumValue {
    ghost use Rattle.base_number.specs.Numbers.{SpecNumber};
    ghost use Rattle.base_number.specs.NumberForm.{number_view, IsKept};

    ghost Value = { SpecNumber };

    ghost view = { λ n. number_view n.form };

    ghost invariant = { λ n. IsKept n.form };
}

impl NumValue {
    /// The value of a number as it is spelled, or `None` where the text is no number. A big integer,
    /// which ends in `n`, is none.
    ///
    /// # Errors
    ///
    /// Want of memory.
    #[tactic(auto, unfolding(crate::specs::Numbers::number_of))]
    pub fn read(alloc: Global, spelling: &str) -> Result<Option<NumValue>, AllocError>
        ensures { IfOk result (λ value. value ≡ number_of spelling.now) }
    {
        let text = spelling.as_bytes();
        match prefix_radix(text) {
            Some(radix) => prefixed(alloc, radix, &text[2..]),
            None => unprefixed(alloc, text),
        }
    }

    /// Its digits: decimal ones without zeros at either end, none for 0; past 64 bits in another
    /// radix, lower-case ones of that radix without zeros in front.
    pub fn digits(&self) -> &str
        ensures value { result.now ≡ number_digits self.now }
        ensures form { IsCanonical self.now }
    {
        match &self.form {
            Form::Scaled { count, text, .. } => ascii(&text.as_slice()[..*count]),
            Form::InRadix { digits, .. } => ascii(digits.as_slice()),
        }
    }

    /// The radix of its digits.
    pub fn radix(&self) -> u32
        ensures { result ≡ number_radix self.now }
    {
        match &self.form {
            Form::Scaled { .. } => 10,
            Form::InRadix { radix, .. } => *radix,
        }
    }

    /// Whether the power of ten is below 0.
    pub fn has_negative_exponent(&self) -> bool
        ensures { result ≡ is_below_zero (number_exponent self.now) }
    {
        match &self.form {
            Form::Scaled { negative, .. } => *negative,
            Form::InRadix { .. } => false,
        }
    }

    /// The decimal digits of the power of ten, without its sign.
    pub fn exponent_digits(&self) -> &str
        ensures { result.now ≡ numeral (nat_abs (number_exponent self.now)) }
    {
        match &self.form {
            Form::Scaled { count, text, .. } => ascii(&text.as_slice()[*count..]),
            Form::InRadix { .. } => "0",
        }
    }

    /// Whether two numbers are the same.
    pub fn is_same(&self, other: &NumValue) -> bool
        ensures { IsTrue result ↔ (self.now ≡ other.now) }
    {
        match (&self.form, &other.form) {
            (
                Form::Scaled {
                    negative,
                    count,
                    text,
                },
                Form::Scaled {
                    negative: other_negative,
                    count: other_count,
                    text: other_text,
                },
            ) => {
                negative == other_negative
                    && count == other_count
                    && text.as_slice() == other_text.as_slice()
            }
            (
                Form::InRadix { radix, digits },
                Form::InRadix {
                    radix: other_radix,
                    digits: other_digits,
                },
            ) => radix == other_radix && digits.as_slice() == other_digits.as_slice(),
            _ => false,
        }
    }
}

/// ASCII characters as text.
fn ascii(digits: &[u8]) -> &str
    requires { IsAscii digits.now }
    ensures { result.now ≡ digits.now }
{
    str::from_utf8(digits).unwrap()
}

/// The number with a prefix, by the radix of that and what follows it.
fn prefixed(alloc: Global, radix: u32, digits: &[u8]) -> Result<Option<NumValue>, AllocError>
    requires lower { 2 ≤ radix }
    requires upper { radix ≤ 16 }
    ensures { IfOk result (λ value. value ≡ prefixed_number radix digits.now) }
{
    if !spells_digits(digits, radix) {
        return Ok(None);
    }
    Ok(Some(in_radix(alloc, radix, digits)?))
}

/// The number without a prefix.
fn unprefixed(alloc: Global, text: &[u8]) -> Result<Option<NumValue>, AllocError>
    ensures { IfOk result (λ value. value ≡ unprefixed_number text.now) }
{
    if let [b'0', digits @ ..] = text
        && spells_octal(digits)
    {
        return Ok(Some(in_radix(alloc, 8, digits)?));
    }
    decimal_number(alloc, text)
}

/// The value of digits in a radix.
fn in_radix(alloc: Global, radix: u32, text: &[u8]) -> Result<NumValue, AllocError>
    requires lower { 2 ≤ radix }
    requires upper { radix ≤ 16 }
    requires digits { AllDigits radix (plain text.now) }
    ensures { IfOk result (λ value. value ≡ in_radix radix text.now) }
{
    let text = trim_front(text);
    match small_value(text, radix) {
        Some(value) => {
            let digits = decimal(alloc, value)?;
            scaled(alloc, digits.as_slice(), Exponent::zero(alloc))
        }
        None => {
            let digits = lower_digits_in(alloc, text)?;
            Ok(NumValue {
                form: Form::InRadix { radix, digits },
            })
        }
    }
}

/// The decimal number that a text spells.
fn decimal_number(alloc: Global, text: &[u8]) -> Result<Option<NumValue>, AllocError>
    ensures { IfOk result (λ value. value ≡ decimal_number text.now) }
{
    let (mantissa, exponent) = cut(text, b'e');
    let (integer, fraction) = cut(mantissa, b'.');
    if !spells_mantissa(integer, fraction) || !spells_exponent(exponent) {
        return Ok(None);
    }
    let decimals = count_digits(fraction.unwrap_or(b"".as_slice()));
    let exponent = Exponent::read(alloc, exponent)?.minus(alloc, decimals)?;
    Ok(Some(scaled(alloc, mantissa, exponent)?))
}

/// The digits of a text times ten to the exponent.
fn scaled(alloc: Global, text: &[u8], exponent: Exponent) -> Result<NumValue, AllocError>
    requires { AllDigits 10 (digits_in text.now) }
    ensures { IfOk result (λ value. value ≡ scaled (digits_in text.now) exponent) }
{
    let (trimmed, zeros) = trim_back(trim_front(text));
    let mut text = digits_in(alloc, trimmed)?;
    let count = text.len();
    let exponent = if count == 0 {
        Exponent::zero(alloc)
    } else {
        exponent.plus(alloc, zeros)?
    };
    let (negative, exponent) = exponent.into_parts(alloc)?;
    text.extend_from_slice(exponent.as_slice())?;
    Ok(NumValue {
        form: Form::Scaled {
            negative,
            count,
            text,
        },
    })
}

impl Clone for NumValue {
    ghost use Rattle.std.specs.Prelude.{◌≡◌};

    ghost is_clone = { λ n m. m ≡ n };

    fn clone(&self) -> Result<NumValue, AllocError> {
        let form = match &self.form {
            Form::Scaled {
                negative,
                count,
                text,
            } => Form::Scaled {
                negative: *negative,
                count: *count,
                text: text.clone()?,
            },
            Form::InRadix { radix, digits } => Form::InRadix {
                radix: *radix,
                digits: digits.clone()?,
            },
        };
        Ok(NumValue { form })
    }
}
