//! The tokens of a text that is laid out, and the comments that are to be written between them.

/// A token of a text that is laid out.
#[derive(Clone, Copy, Debug)]
pub struct Slot<'a> {
    /// What the layout has before it: white space and ends of lines.
    pub before: &'a str,
    /// The token's own text.
    pub own: &'a str,
    /// The number of its kind, of `lex_source::kinds`.
    pub kind: u8,
    /// Nothing else may stand before it: it is of a template's characters, or what ends them.
    pub closed: bool,
    /// The layout ends a line before it.
    pub breaks: bool,
    /// The source has an empty line before it.
    pub parted: bool,
    /// The blanks before it on its line, where it is the first there.
    pub indent: &'a str,
}

/// A comment that is to be written.
#[derive(Clone, Copy, Debug)]
pub struct Note<'a> {
    /// Whether it ends with its line or with its own mark.
    pub is_line: bool,
    /// What stands between its marks.
    pub text: &'a str,
    /// A line ends within it.
    pub breaks: bool,
    /// How many lines end before it, since the token or the comment before it.
    pub lines: u32,
    /// How many lines end behind it, before the next.
    pub behind: u32,
    /// The gap for which it is meant: how many tokens stand before that. It comes there or, where it may not stand, later.
    pub gap: usize,
}

/// How the text looks.
#[derive(Clone, Copy, Debug)]
pub struct Look<'a> {
    /// As short as it can be, not for people.
    pub minify: bool,
    /// What ends a line.
    pub line_end: &'a str,
    /// One step of the indentation.
    pub step: &'a str,
}
