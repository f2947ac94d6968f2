//! The front of a text that is a number, read byte by byte.

ghost use Rattle.std.specs.Prelude.{◌≡◌, ◌+◌, ◌<◌, true, length, IsUtf8};
ghost use Rattle.std.specs.Str.{chars};
ghost use Rattle.lex_literal.specs.NumberSteps as steps;
ghost use Rattle.lex_literal.specs.NumberSteps.{IsFront};

/// The radix of a prefix.
#[derive(Clone, Copy, Debug, PartialEq, Eq)]
pub(crate) enum Radix {
    Binary,
    Octal,
    Hexadecimal,
}

impl Radix {
    ghost use Rattle.std.specs.Prelude.{◌≡◌, ◌≤◌};
    ghost use Rattle.lex_literal.specs.NumberSteps.{radix_value};

    /// Its number.
    pub(crate) fn value(self) -> u32
        ensures value { result ≡ radix_value self }
        ensures lower { 2 ≤ result }
        ensures upper { result ≤ 16 }
    {
        match self {
            Radix::Binary => 2,
            Radix::Octal => 8,
            Radix::Hexadecimal => 16,
        }
    }
}

/// What was read of a number. A flag says whether a digit came last, and no `_`.
#[derive(Clone, Copy, Debug, PartialEq, Eq)]
pub(crate) enum State {
    /// Nothing.
    Start,
    /// A 0.
    Zero,
    /// A 0 and octal digits.
    LegacyOctal,
    /// A 0 and digits with 8 or 9 among them.
    LegacyDecimal,
    /// Decimal digits.
    Integer(bool),
    /// An integer and a point.
    Point,
    /// A point and decimal digits.
    Fraction(bool),
    /// The `e` of an exponent.
    Mark,
    /// The digits of an exponent, or its sign.
    Exponent(bool),
    /// A prefix and digits.
    Prefixed(Radix, bool),
}

/// What was read with this byte behind a 0, where it is neither a digit nor the point nor an `e`.
fn prefix(byte: u8) -> Option<State>
    ensures { result ≡ steps.step_prefix byte }
{
    match byte {
        b'x' | b'X' => Some(State::Prefixed(Radix::Hexadecimal, false)),
        b'o' | b'O' => Some(State::Prefixed(Radix::Octal, false)),
        b'b' | b'B' => Some(State::Prefixed(Radix::Binary, false)),
        _ => None,
    }
}

/// The `e` of an exponent.
fn exponent(byte: u8) -> Option<State>
    ensures { result ≡ steps.step_exponent byte }
{
    match byte {
        b'e' | b'E' => Some(State::Mark),
        _ => None,
    }
}

/// The point or the `e` behind an integer.
fn point(byte: u8) -> Option<State>
    ensures { result ≡ steps.step_point byte }
{
    match byte {
        b'.' => Some(State::Point),
        _ => exponent(byte),
    }
}

/// What begins a number.
fn start(byte: u8) -> Option<State>
    ensures { result ≡ steps.step_start byte }
{
    match byte {
        b'0' => Some(State::Zero),
        b'1'..=b'9' => Some(State::Integer(true)),
        b'.' => Some(State::Fraction(false)),
        _ => None,
    }
}

/// A digit behind a 0 and octal digits.
fn behind_octal(byte: u8) -> Option<State>
    ensures { result ≡ steps.step_octal byte }
{
    match byte {
        b'0'..=b'7' => Some(State::LegacyOctal),
        b'8' | b'9' => Some(State::LegacyDecimal),
        _ => None,
    }
}

/// What was read with this byte behind a 0.
fn behind_zero(byte: u8) -> Option<State>
    ensures { result ≡ steps.step_zero byte }
{
    match byte {
        b'0'..=b'9' => behind_octal(byte),
        b'.' => Some(State::Point),
        b'e' | b'E' => Some(State::Mark),
        _ => prefix(byte),
    }
}

/// What was read with this byte behind decimal digits that begin with 0.
fn behind_legacy_decimal(byte: u8) -> Option<State>
    ensures { result ≡ steps.step_legacy_decimal byte }
{
    match byte {
        b'0'..=b'9' => Some(State::LegacyDecimal),
        _ => point(byte),
    }
}

/// What was read with this byte behind decimal digits.
fn behind_integer(behind_digit: bool, byte: u8) -> Option<State>
    ensures { result ≡ steps.step_integer behind_digit byte }
{
    match byte {
        b'0'..=b'9' => Some(State::Integer(true)),
        b'_' if behind_digit => Some(State::Integer(false)),
        _ if behind_digit => point(byte),
        _ => None,
    }
}

/// What was read with this byte behind an integer and a point.
fn behind_point(byte: u8) -> Option<State>
    ensures { result ≡ steps.step_behind_point byte }
{
    match byte {
        b'0'..=b'9' => Some(State::Fraction(true)),
        _ => exponent(byte),
    }
}

/// What was read with this byte behind the digits of a fraction.
fn behind_fraction(behind_digit: bool, byte: u8) -> Option<State>
    ensures { result ≡ steps.step_fraction behind_digit byte }
{
    match byte {
        b'0'..=b'9' => Some(State::Fraction(true)),
        b'_' if behind_digit => Some(State::Fraction(false)),
        _ if behind_digit => exponent(byte),
        _ => None,
    }
}

/// What was read with this byte behind the `e`.
fn behind_mark(byte: u8) -> Option<State>
    ensures { result ≡ steps.step_mark byte }
{
    match byte {
        b'0'..=b'9' => Some(State::Exponent(true)),
        b'+' | b'-' => Some(State::Exponent(false)),
        _ => None,
    }
}

/// What was read with this byte behind the digits of an exponent.
fn behind_exponent(behind_digit: bool, byte: u8) -> Option<State>
    ensures { result ≡ steps.step_power behind_digit byte }
{
    match byte {
        b'0'..=b'9' => Some(State::Exponent(true)),
        b'_' if behind_digit => Some(State::Exponent(false)),
        _ => None,
    }
}

/// What was read with this byte behind the digits of a radix.
fn behind_prefixed(radix: Radix, behind_digit: bool, byte: u8) -> Option<State>
    ensures { result ≡ steps.step_prefixed radix behind_digit byte }
{
    if char::from(byte).is_digit(radix.value()) {
        return Some(State::Prefixed(radix, true));
    }
    match byte {
        b'_' if behind_digit => Some(State::Prefixed(radix, false)),
        _ => None,
    }
}

impl State {
    ghost use Rattle.std.specs.Prelude.{◌≡◌};
    ghost use Rattle.lex_literal.specs.NumberSteps.{step, is_whole, big_radix, exponent_follows};

    /// What was read with one more byte, if a number may go on so (ECMA-262, 12.9.3 and B.1.1).
    #[tactic(auto, unfolding(crate::specs::NumberSteps::step))]
    pub(crate) fn next(self, byte: u8) -> Option<State>
        ensures { result ≡ step self byte }
    {
        match self {
            State::Start => start(byte),
            State::Zero => behind_zero(byte),
            State::LegacyOctal => behind_octal(byte),
            State::LegacyDecimal => behind_legacy_decimal(byte),
            State::Integer(behind_digit) => behind_integer(behind_digit, byte),
            State::Point => behind_point(byte),
            State::Fraction(behind_digit) => behind_fraction(behind_digit, byte),
            State::Mark => behind_mark(byte),
            State::Exponent(behind_digit) => behind_exponent(behind_digit, byte),
            State::Prefixed(radix, behind_digit) => behind_prefixed(radix, behind_digit, byte),
        }
    }

    /// Whether it is a number.
    pub(crate) fn is_whole(self) -> bool
        ensures { result ≡ is_whole self }
    {
        match self {
            State::Start | State::Mark => false,
            State::Zero | State::LegacyOctal | State::LegacyDecimal | State::Point => true,
            State::Integer(behind_digit)
            | State::Fraction(behind_digit)
            | State::Exponent(behind_digit)
            | State::Prefixed(_, behind_digit) => behind_digit,
        }
    }

    /// The radix of the big integer that an `n` makes of it, if it makes one.
    pub(crate) fn big_radix(self) -> Option<u32>
        ensures { result ≡ big_radix self }
    {
        match self {
            State::Zero | State::Integer(true) => Some(10),
            State::Prefixed(radix, true) => Some(radix.value()),
            _ => None,
        }
    }

    /// Whether an exponent may follow.
    pub(crate) fn exponent_follows(self) -> bool
        ensures { result ≡ exponent_follows self }
    {
        let Some(mark) = self.next(b'e') else {
            return false;
        };
        match mark.next(b'0') {
            Some(digit) => digit.is_whole(),
            None => false,
        }
    }
}

/// The state in which a number was read last, and what follows that number.
fn scan(bytes: &[u8]) -> (State, &[u8])
    ensures { (result.0, result.1.now) ≡ steps.scan State.Start (State.Start, bytes.now) bytes.now }
{
    let mut state = State::Start;
    let mut last = State::Start;
    let mut behind = bytes;
    let mut left = bytes;
    'bytes: while let Some((byte, more)) = left.split_first() {
        let Some(next) = state.next(*byte) else {
            return (last, behind);
        };
        state = next;
        left = more;
        if next.is_whole() {
            last = next;
            behind = more;
        }
    }
    (last, behind)
}

/// A front of a text that is a number.
#[derive(Clone, Copy)]
pub(crate) struct Front<'a> {
    /// What was read there.
    pub(crate) state: State,
    /// Its text.
    pub(crate) own: &'a str,
    /// What follows it.
    pub(crate) rest: &'a str,
}

/// The longest front of a text that is a number.
pub(crate) fn split_number(text: &str) -> Front<'_>
    ensures front { IsFront (chars text.now) result.state result.own.now (chars result.rest.now) }
    ensures whole { 0 < length result.own.now → steps.is_whole result.state ≡ true }
    ensures own { chars result.own.now ≡ result.own.now }
    ensures text { IsUtf8 result.rest.now }
    ensures lengths { length result.own.now + length result.rest.now ≡ length text.now }
{
    let (state, behind) = scan(text.as_bytes());
    let (own, rest) = text.split_at(text.len() - behind.len());
    Front { state, own, rest }
}
