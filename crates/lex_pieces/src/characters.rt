//! The classes of characters that the lexical grammar tells apart.
ghost use Rattle.std.specs.Prelude.{ℕ, ◌≡◌, ◌<◌, [], ◌∷◌, length, IfSome, IsUtf8, MatchOption, Some};
ghost use Rattle.std.specs.Str.{chars};
ghost use Rattle.lex_pieces.specs.Bytes.{IsLead};
ghost use Rattle.lex_pieces.specs.Characters as spec;

/// What the lexical grammar asks of a character.
pub trait CharExt {
    ghost use Rattle.std.specs.Prelude.{ℕ};

    /// The character.
    ghost code: { Self → ℕ };

    /// The character itself.
    fn to_char(self) -> Option<char>
        ensures { result ≡ Some (code self) };

    /// Whether a name may begin with it (ECMA-262, 12.7), by XID_Start.
    fn is_ident_start(self) -> bool
        ensures { result ≡ spec.is_name_start (code self) };

    /// Whether a name may go on with it (ECMA-262, 12.7), by XID_Continue.
    fn is_ident_part(self) -> bool
        ensures { result ≡ spec.is_name_part (code self) };

    /// Whether it is LF, CR, U+2028 or U+2029 (ECMA-262, 12.3).
    fn is_line_terminator(self) -> bool
        ensures { result ≡ spec.is_line_terminator (code self) };

    /// Whether it is LF or CR.
    fn is_line_break(self) -> bool
        ensures { result ≡ spec.is_line_break (code self) };

    /// Whether it is white space (ECMA-262, 12.2).
    fn is_ws(self) -> bool
        ensures { result ≡ spec.is_white_space (code self) };
}

impl CharExt for char {
    ghost code = { λ c. c };

    fn to_char(self) -> Option<char> {
        Some(self)
    }

    fn is_ident_start(self) -> bool {
        unicode_ident::is_xid_start(self) || matches!(self, '$' | '_')
    }

    fn is_ident_part(self) -> bool {
        unicode_ident::is_xid_continue(self) || matches!(self, '$' | '_' | '\u{200C}' | '\u{200D}')
    }

    fn is_line_terminator(self) -> bool {
        matches!(self, '\n' | '\r' | '\u{2028}' | '\u{2029}')
    }

    fn is_line_break(self) -> bool {
        matches!(self, '\n' | '\r')
    }

    fn is_ws(self) -> bool {
        matches!(self, '\t' | '\u{B}' | '\u{C}' | ' ' | '\u{A0}' | '\u{1680}')
            || matches!(
                self,
                '\u{2000}'..='\u{200A}' | '\u{202F}' | '\u{205F}' | '\u{3000}' | '\u{FEFF}'
            )
    }
}

/// The first character of a text, and what follows it.
pub fn pop(text: &str) -> Option<(char, &str)>
    ensures cut { MatchOption result (chars text.now ≡ []) (λ x. chars text.now ≡ x.0 ∷ chars x.1.now) }
    ensures text { IfSome result (λ x. IsUtf8 x.1.now) }
    ensures shorter { IfSome result (λ x. length x.1.now < length text.now) }
{
    let mut left = text.chars();
    let c = left.next()?;
    Some((c, left.as_str()))
}

/// The first byte of a text.
#[inline]
pub(crate) fn first_byte(text: &str) -> Option<u8>
    ensures { MatchOption result (chars text.now ≡ []) (λ b. IsLead b (chars text.now)) }
{
    match text.as_bytes() {
        [byte, ..] => Some(*byte),
        [] => None,
    }
}

/// What follows the first character, which is of ASCII.
#[inline]
pub(crate) fn past_ascii(text: &str) -> &str
    requires { (b : ℕ) × (b < 128) × IsLead b (chars text.now) }
    ensures cut { (c : ℕ) × (c < 128) × (chars text.now ≡ c ∷ chars result.now) }
    ensures shorter { length result.now < length text.now }
{
    &text[1..]
}
