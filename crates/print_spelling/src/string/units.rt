//! The code points of units of UTF-16.

ghost use Rattle.std.specs.Prelude.{◌≡◌, ◌<◌, true, false, ◌&&◌, [], ◌∷◌, length, IfSome, MatchOption};
ghost use Rattle.lex_literal.specs.Escapes.{begins};
ghost use Rattle.print_spelling.specs.String.CodePoints as spec;

/// Whether a unit is a high surrogate.
fn is_high(unit: u16) -> bool
    ensures { result ≡ spec.is_high unit }
{
    (0xD800..0xDC00).contains(&unit)
}

/// Whether a unit is a low surrogate.
fn is_low(unit: u16) -> bool
    ensures { result ≡ spec.is_low unit }
{
    (0xDC00..0xE000).contains(&unit)
}

/// The low surrogate behind a high one, and what follows it, where these two are a pair.
fn partner(unit: u16, rest: &[u16]) -> Option<(u16, &[u16])>
    ensures pair { MatchOption result ((spec.is_high unit && begins spec.is_low rest.now) ≡ false)
        (λ x. (rest.now ≡ x.0 ∷ x.1.now) × (spec.is_high unit ≡ true) × (spec.is_low x.0 ≡ true)) }
{
    if !is_high(unit) {
        return None;
    }
    match rest {
        [low, behind @ ..] => {
            if is_low(*low) {
                Some((*low, behind))
            } else {
                None
            }
        }
        [] => None,
    }
}

/// The character of a high and a low surrogate.
fn of_pair(high: u16, low: u16) -> u32
    requires high { spec.is_high high ≡ true }
    requires low { spec.is_low low ≡ true }
    ensures value { result ≡ spec.of_pair high low }
    ensures code { result < 0x110000 }
{
    0x1_0000 + (u32::from(high) - 0xD800) * 0x400 + (u32::from(low) - 0xDC00)
}

/// The code point at the front of units, which may be a surrogate without its partner, and the units
/// behind it (ECMA-262, 11.1.4).
pub fn front(units: &[u16]) -> Option<(u32, &[u16])>
    ensures cut { MatchOption result (units.now ≡ []) (λ x. spec.code_points units.now ≡ x.0 ∷ spec.code_points x.1.now) }
    ensures code { IfSome result (λ x. x.0 < 0x110000) }
    ensures shorter { IfSome result (λ x. length x.1.now < length units.now) }
{
    let (unit, rest) = units.split_first()?;
    match partner(*unit, rest) {
        Some((low, behind)) => Some((of_pair(*unit, low), behind)),
        None => Some((u32::from(*unit), rest)),
    }
}
