//! The parts of a raw text of a template.

/// A part of a raw text of a template: what is written of it.
#[derive(Clone, Copy, Debug, PartialEq, Eq)]
pub enum Part {
    /// A backslash and this character, as it is spelled.
    Pair(u8),
    /// `\x` and these two digits, as it is spelled.
    Digits(u8, u8),
    /// A backslash at the end of the text.
    Last,
    /// Nothing: a line goes on behind a separator.
    Nothing,
    /// A character, by `\xhh`.
    Hexed(u32),
    /// A character, as if it stood bare.
    Code(u32),
}
