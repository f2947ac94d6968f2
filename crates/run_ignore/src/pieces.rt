//! What a pattern is made of.

ghost use Rattle.std.specs.Prelude.{◌≡◌};
ghost use Rattle.std.specs.List.{list_any};
ghost use Rattle.run_ignore.specs.Classes.{holds, is_between};

/// The bytes from `from` to `to`, both among them; none where `to` is below `from`.
#[derive(Clone, Copy)]
pub struct Range {
    pub from: u8,
    pub to: u8,
}

/// The bytes that a class has, as `[a-z_]`, or those that it has not, as `[!a-z]`.
#[derive(Drop)]
pub struct Class {
    pub(crate) negated: bool,
    pub(crate) ranges: Vec<Range>,
}

impl Class {
    /// Whether the class has a byte. A slash is asked for by no one: `Matches` lets no class stand for it.
    pub fn holds(&self, byte: u8) -> bool
        ensures { result ≡ holds self.now byte }
    {
        let listed = is_listed(&self.ranges, byte);
        if self.negated { !listed } else { listed }
    }
}

/// Whether a range has the byte.
fn is_listed(ranges: &[Range], byte: u8) -> bool
    ensures { result ≡ list_any (is_between byte) ranges.now }
{
    ranges
        .iter()
        .any(|range| range.from <= byte && byte <= range.to)
}

/// One part of a pattern.
#[derive(Drop)]
pub enum Piece {
    /// This byte.
    Byte(u8),
    /// `?`: one byte of a name.
    One,
    /// `[a-z]`: one byte of a name that the class has.
    Among(Class),
    /// `*`: any run of bytes of a name, also none.
    Star,
    /// `**/` at the start of a name: any number of folders, also none.
    Folders,
    /// `**` as the last name: whatever is there.
    Everything,
    /// A class that is not closed or that names another, or a backslash at the end: the pattern matches nothing.
    Nothing,
}
