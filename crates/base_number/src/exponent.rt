//! Exponents of any size, as a sign and decimal digits.
ghost use Rattle.std.specs.Prelude.{◌≡◌, ◌+◌, ◌-◌, ◌*◌, ◌^◌, ◌<◌, ◌≤◌, IfOk, pos, ◌+ℤ◌, ◌-ℤ◌};
ghost use Rattle.std.specs.Str.Parse.{digits_value, AllDigits};
ghost use Rattle.base_number.specs.DigitText.{digits_in};

use crate::digits::{Digits, digits_in, small_value, trim_front};
use crate::spelling::{is_negative, unsigned};
use std::alloc::{AllocError, Global};
use std::marker::Model;

/// An exponent: a sign and decimal digits. A contract sees the number.
#[derive(Drop)]
pub(crate) struct Exponent {
    negative: bool,
    digits: Digits,
}

impl Model for Exponent {
    ghost use Rattle.std.specs.Prelude.{ℤ};
    ghost use Rattle.std.specs.Str.Parse.{AllDigits};
    ghost use Rattle.base_number.specs.Numbers.{signed};

    ghost Value = { ℤ };

    ghost view = { λ e. signed e.negative e.digits.items };

    ghost invariant = { λ e. AllDigits 10 e.digits.items };
}

impl Exponent {
    ghost use Rattle.std.specs.Prelude.{true, neg_ℤ};
    ghost use Rattle.std.specs.Option.{option_copied};
    ghost use Rattle.base_number.specs.Numbers.{signed, exponent_value, spells_exponent};
    ghost use Rattle.base_number.specs.NumberForm.{IsSigned};

    /// The number that a sign and digits write.
    pub(crate) fn new(negative: bool, digits: Digits) -> Exponent
        requires { AllDigits 10 digits.items }
        ensures { result ≡ signed negative digits.items }
    {
        Exponent { negative, digits }
    }

    /// No power of ten.
    pub(crate) fn zero(alloc: Global) -> Exponent
        ensures { result ≡ pos 0 }
    {
        Exponent::new(false, Digits::new(alloc))
    }

    /// The value of an exponent as it is spelled, if there is one.
    pub(crate) fn read(alloc: Global, text: Option<&[u8]>) -> Result<Exponent, AllocError>
        requires { spells_exponent (option_copied text) ≡ true }
        ensures { IfOk result (λ e. e ≡ exponent_value (option_copied text.entry)) }
    {
        match text {
            None => Ok(Exponent::zero(alloc)),
            Some(text) => {
                let digits = digits_in(alloc, trim_front(unsigned(text)))?;
                Ok(Exponent::new(is_negative(text), digits))
            }
        }
    }

    /// The sign, and the digits without zeros in front but for 0 itself, which has no minus.
    pub(crate) fn into_parts(self, alloc: Global) -> Result<(bool, Digits), AllocError>
        ensures value { IfOk result (λ parts. signed parts.0 parts.1.items ≡ self) }
        ensures form { IfOk result (λ parts. IsSigned parts.0 parts.1.items) }
    {
        let Exponent { negative, digits } = self;
        let kept = digits_in(alloc, trim_front(digits.as_slice()))?;
        if kept.is_empty() {
            return Ok((false, Digits::from_slice(alloc, b"0")?));
        }
        Ok((negative, kept))
    }

    /// The number with the other sign.
    pub(crate) fn negated(self) -> Exponent
        ensures { result ≡ neg_ℤ self }
    {
        let Exponent { negative, digits } = self;
        Exponent {
            negative: !negative,
            digits,
        }
    }

    /// The sum.
    pub(crate) fn plus(self, alloc: Global, addend: u64) -> Result<Exponent, AllocError>
        ensures { IfOk result (λ e. e ≡ self +ℤ pos addend) }
    {
        if addend == 0 {
            return Ok(self);
        }
        let Exponent { negative, digits } = self;
        if !negative {
            let digits = sum(alloc, digits.as_slice(), addend)?;
            return Ok(Exponent { negative, digits });
        }
        match small_value(digits.as_slice(), 10) {
            Some(value) if value <= addend => Ok(Exponent {
                negative: false,
                digits: decimal(alloc, addend - value)?,
            }),
            _ => Ok(Exponent {
                negative,
                digits: difference(alloc, digits.as_slice(), addend)?,
            }),
        }
    }

    /// The difference.
    pub(crate) fn minus(self, alloc: Global, subtrahend: u64) -> Result<Exponent, AllocError>
        ensures { IfOk result (λ e. e ≡ self -ℤ pos subtrahend) }
    {
        Ok(self.negated().plus(alloc, subtrahend)?.negated())
    }
}

/// The decimal digits of a number.
pub(crate) fn decimal(alloc: Global, value: u64) -> Result<Digits, AllocError>
    ensures digits { IfOk result (λ v. AllDigits 10 v.items) }
    ensures value { IfOk result (λ v. digits_value 10 v.items ≡ value) }
{
    sum(alloc, b"", value)
}

/// The digits of a sum. What comes in may have zeros in front, and what goes out too.
pub(crate) fn sum(alloc: Global, digits: &[u8], addend: u64) -> Result<Digits, AllocError>
    requires { AllDigits 10 digits.now }
    ensures digits { IfOk result (λ v. AllDigits 10 v.items) }
    ensures value { IfOk result (λ v. digits_value 10 v.items ≡ digits_value 10 digits.now + addend) }
{
    let mut low_first = Digits::new(alloc);
    let mut carry = addend;
    let mut left = digits;
    while let Some((digit, front)) = left.split_last() {
        let total = carry % 10 + u64::from(*digit - b'0');
        low_first.push(b'0' + (total % 10) as u8)?;
        carry = carry / 10 + total / 10;
        left = front;
    }
    while carry > 0 {
        low_first.push(b'0' + (carry % 10) as u8)?;
        carry /= 10;
    }
    low_first.reverse();
    Ok(low_first)
}

/// A digit less another one, and how many tens that borrowed.
fn minus_digit(minuend: u64, taken: u64) -> (u64, u64)
    requires minuend { minuend < 10 }
    requires taken { taken < 10 }
    ensures rest { result.0 < 10 }
    ensures short { result.1 ≤ 1 }
    ensures value { result.0 + taken ≡ minuend + 10 * result.1 }
{
    if minuend < taken {
        (minuend + 10 - taken, 1)
    } else {
        (minuend - taken, 0)
    }
}

/// The digits of a difference. What comes in may have zeros in front, and what goes out too.
pub(crate) fn difference(
    alloc: Global,
    digits: &[u8],
    subtrahend: u64,
) -> Result<Digits, AllocError>
    requires digits { AllDigits 10 digits.now }
    requires enough { subtrahend ≤ digits_value 10 digits.now }
    ensures digits { IfOk result (λ v. AllDigits 10 v.items) }
    ensures value { IfOk result (λ v. digits_value 10 v.items + subtrahend ≡ digits_value 10 digits.now) }
{
    let mut low_first = Digits::new(alloc);
    let mut borrow = subtrahend;
    let mut left = digits;
    while let Some((digit, front)) = left.split_last() {
        let (rest, short) = minus_digit(u64::from(*digit - b'0'), borrow % 10);
        low_first.push(b'0' + rest as u8)?;
        borrow = borrow / 10 + short;
        left = front;
    }
    low_first.reverse();
    Ok(low_first)
}
