//! Lines and columns of what is written.
ghost use Rattle.std.specs.Prelude.{◌≡◌, ◌+◌, ◌<◌, [], ◌∷◌, length, IfSome, IsUtf8, MatchOption};
ghost use Rattle.std.specs.Str.{chars};
ghost use Rattle.print_writers.specs.Lines.{ends_line, units, units_of, further, next_line, after_text};

use base_token::LineCol;

/// The first character of a text, and what follows it.
pub fn pop(text: &str) -> Option<(char, &str)>
    ensures cut { MatchOption result (chars text.now ≡ []) (λ x. chars text.now ≡ x.0 ∷ chars x.1.now) }
    ensures text { IfSome result (λ x. IsUtf8 x.1.now) }
    ensures shorter { IfSome result (λ x. length x.1.now < length text.now) }
{
    let mut left = text.chars();
    let c = left.next()?;
    Some((c, left.as_str()))
}

/// Whether a character ends a line, before this text.
pub fn ends_line(c: char, rest: &str) -> bool
    ensures { result ≡ ends_line c (chars rest.now) }
{
    c == '\n' || (c == '\r' && !matches!(pop(rest), Some(('\n', _))))
}

/// So many columns further.
pub(crate) fn further(columns: u64, place: LineCol) -> Option<LineCol>
    ensures { result ≡ further columns place }
{
    if columns <= u64::from(u32::MAX - place.col) {
        let col = place.col + columns as u32;
        return Some(LineCol {
            line: place.line,
            col,
        });
    }
    None
}

/// The start of the next line.
pub(crate) fn next_line(place: LineCol) -> Option<LineCol>
    ensures { result ≡ next_line place }
{
    if place.line == u32::MAX {
        return None;
    }
    Some(LineCol {
        line: place.line + 1,
        col: 0,
    })
}

/// How many UTF-16 units a text has.
pub(crate) fn units(text: &str) -> u64
    ensures { result ≡ units (chars text.now) }
{
    let mut count = 0;
    let mut rest = text;
    'text: while let Some((c, after)) = pop(rest) {
        count += c.len_utf16() as u64;
        rest = after;
    }
    count
}

/// Where a text ends that begins at this place.
pub(crate) fn after_text(place: LineCol, text: &str) -> Option<LineCol>
    ensures { result ≡ after_text place (chars text.now) }
{
    let mut place = place;
    let mut rest = text;
    'text: while let Some((c, after)) = pop(rest) {
        place = if ends_line(c, after) {
            next_line(place)?
        } else {
            further(c.len_utf16() as u64, place)?
        };
        rest = after;
    }
    Some(place)
}
