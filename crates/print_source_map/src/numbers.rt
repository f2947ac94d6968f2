//! Numbers in base 64 VLQ.

ghost use Rattle.std.specs.Prelude.{◌≡◌, ◌++◌, [], ◌∷◌, ◌<◌, OnOk, string_bytes};
ghost use Rattle.print_source_map.specs.Writing.{digit_of, digits, difference};

use std::alloc::AllocError;

/// Appends an ASCII character.
pub(crate) fn push_ascii(text: &mut String, c: char) -> Result<(), AllocError>
    requires { c < 128 }
    ensures { OnOk result (string_bytes text.new ≡ string_bytes text.old ++ c ∷ []) }
{
    text.push(c)
}

/// The digit of base 64 for a value.
fn digit(value: u8) -> char
    requires { value < 64 }
    ensures digit { result ≡ digit_of value }
    ensures ascii { result < 128 }
{
    let code = match value {
        0..=25 => b'A' + value,
        26..=51 => b'a' + (value - 26),
        52..=61 => b'0' + (value - 52),
        62 => b'+',
        _ => b'/',
    };
    char::from(code)
}

/// Appends a number: five bits a digit, the lowest first, and 32 more in each digit that another follows.
#[tactic(auto, using(crate::proofs::Written::last_pushed, crate::proofs::Written::more_pushed))]
fn push_number(text: &mut String, number: u64) -> Result<(), AllocError>
    ensures { OnOk result (string_bytes text.new ≡ string_bytes text.old ++ digits number) }
{
    if number < 32 {
        return push_ascii(text, digit(number as u8));
    }
    push_ascii(text, digit((number % 32) as u8 + 32))?;
    push_number(text, number / 32)
}

/// Appends the number that leads from one place to another, with its sign in the lowest bit.
#[tactic(auto, unfolding(crate::specs::Writing::difference))]
pub(crate) fn push_difference(text: &mut String, from: u32, to: u32) -> Result<(), AllocError>
    ensures { OnOk result (string_bytes text.new ≡ string_bytes text.old ++ digits (difference from to)) }
{
    let number = if from <= to {
        u64::from(to - from) * 2
    } else {
        u64::from(from - to) * 2 + 1
    };
    push_number(text, number)
}
