//! The classes of bytes. On ASCII a class tells which characters a byte stands for.
ghost use Rattle.std.specs.Prelude.{◌≡◌};
ghost use Rattle.lex_pieces.specs.Bytes.{class_of, is_name_class, is_space_class};

/// What a byte begins.
#[derive(Clone, Copy, Debug, PartialEq, Eq)]
pub enum ByteClass {
    /// White space (ECMA-262, 12.2).
    WhiteSpace,
    /// A line terminator (ECMA-262, 12.3).
    LineTerminator,
    /// A character that a name may begin with (ECMA-262, 12.7).
    NameStart,
    /// A decimal digit (ECMA-262, 12.9.3).
    Digit,
    /// A quote of strings (ECMA-262, 12.9.4).
    Quote,
    /// The quote of templates (ECMA-262, 12.9.6).
    BackQuote,
    /// What escapes begin with.
    Backslash,
    /// A character that a punctuator begins with (ECMA-262, 12.8), `#` and `@`.
    Punctuator,
    /// Any other character of ASCII: none begins anything.
    Other,
    /// A byte of a character past ASCII.
    NonAscii,
}

impl ByteClass {
    /// Whether its characters are what a name goes on with.
    #[inline]
    pub fn is_name_part(self) -> bool
        ensures { result ≡ is_name_class self }
    {
        matches!(self, ByteClass::NameStart | ByteClass::Digit)
    }

    /// Whether its characters are white space.
    #[inline]
    pub fn is_white_space(self) -> bool
        ensures { result ≡ is_space_class self }
    {
        matches!(self, ByteClass::WhiteSpace)
    }
}

const W: ByteClass = ByteClass::WhiteSpace;

const L: ByteClass = ByteClass::LineTerminator;

const A: ByteClass = ByteClass::NameStart;

const D: ByteClass = ByteClass::Digit;

const Q: ByteClass = ByteClass::Quote;

const B: ByteClass = ByteClass::BackQuote;

const E: ByteClass = ByteClass::Backslash;

const P: ByteClass = ByteClass::Punctuator;

const O: ByteClass = ByteClass::Other;

const N: ByteClass = ByteClass::NonAscii;

/// The class of each byte.
static CLASSES: [ByteClass; 256] = [
    O, O, O, O, O, O, O, O, O, W, L, W, W, L, O, O, O, O, O, O, O, O, O, O, O, O, O, O, O, O, O, O,
    W, P, Q, P, A, P, P, Q, P, P, P, P, P, P, P, P, D, D, D, D, D, D, D, D, D, D, P, P, P, P, P, P,
    P, A, A, A, A, A, A, A, A, A, A, A, A, A, A, A, A, A, A, A, A, A, A, A, A, A, A, P, E, P, P, A,
    B, A, A, A, A, A, A, A, A, A, A, A, A, A, A, A, A, A, A, A, A, A, A, A, A, A, A, P, P, P, P, O,
    N, N, N, N, N, N, N, N, N, N, N, N, N, N, N, N, N, N, N, N, N, N, N, N, N, N, N, N, N, N, N, N,
    N, N, N, N, N, N, N, N, N, N, N, N, N, N, N, N, N, N, N, N, N, N, N, N, N, N, N, N, N, N, N, N,
    N, N, N, N, N, N, N, N, N, N, N, N, N, N, N, N, N, N, N, N, N, N, N, N, N, N, N, N, N, N, N, N,
    N, N, N, N, N, N, N, N, N, N, N, N, N, N, N, N, N, N, N, N, N, N, N, N, N, N, N, N, N, N, N, N,
];

/// The class of a byte. It looks at a table.
#[inline]
pub fn byte_class(byte: u8) -> ByteClass
    ensures { result ≡ class_of byte }
{
    CLASSES[byte as usize]
}
