//! Places in a text.
ghost use Rattle.std.specs.Prelude.{◌≡◌, ◌<◌, ◌↔◌, IsTrue};
ghost use Rattle.std.specs.declared.cmp.Ordering.TheVariants.{Equal, Less};
ghost use Rattle.base_token.specs.Spans.{span_or_none};

/// A place in a text, in bytes from a start that the reader chooses. 0 alone stands for no place.
#[derive(Clone, Copy, Debug, Default, PartialEq, Eq, PartialOrd, Ord, Hash)]
pub struct BytePos(pub u32);

impl BytePos {
    /// No place.
    pub const DUMMY: BytePos = BytePos(0);

    /// Whether this stands for no place.
    pub fn is_dummy(self) -> bool
        ensures { IsTrue result ↔ (self.0 ≡ 0) }
    {
        self.0 == 0
    }
}

/// Law: two places are equal, in code and in contracts, exactly where neither is before the other,
/// and places are ordered as their numbers are.
pub fn place_order_law(a: BytePos, b: BytePos)
    ensures order { (⟦<BytePos as Ord>⟧.cmp a b ≡ Equal) ↔ (a ≡ b) }
    ensures equality { IsTrue (⟦<BytePos as PartialEq>⟧.eq a b) ↔ (a ≡ b) }
    ensures before { (⟦<BytePos as Ord>⟧.cmp a b ≡ Less) ↔ (a.0 < b.0) }
{}

/// A part of a text: from `lo` up to, and without, `hi`.
#[derive(Clone, Copy, Debug, Default, PartialEq, Eq, PartialOrd, Ord, Hash)]
pub struct Span {
    pub lo: BytePos,
    pub hi: BytePos,
}

/// No part of any text.
pub const DUMMY_SP: Span = Span {
    lo: BytePos::DUMMY,
    hi: BytePos::DUMMY,
};

/// A line and a column, both from 0. The column counts UTF-16 units.
#[derive(Clone, Copy, Debug, Default, PartialEq, Eq, PartialOrd, Ord, Hash)]
pub struct LineCol {
    pub line: u32,
    pub col: u32,
}

/// What has a part of a text for its place.
pub trait Spanned {
    ghost use Rattle.base_token.specs.declared.place.Span.{Span};

    /// The part.
    ghost span_of: { Self → Span };

    /// The part of the text.
    fn span(&self) -> Span
        ensures { result ≡ span_of self.now };

    /// Where it begins.
    final fn span_lo(&self) -> BytePos
        ensures { result ≡ (span_of self.now).lo }
    {
        self.span().lo
    }

    /// Where it ends.
    final fn span_hi(&self) -> BytePos
        ensures { result ≡ (span_of self.now).hi }
    {
        self.span().hi
    }
}

impl Spanned for Span {
    ghost span_of = { λ s. s };

    fn span(&self) -> Span {
        *self
    }
}

impl<T: Spanned> Spanned for &T {
    ghost span_of = { λ r. T.span_of r.now };

    fn span(&self) -> Span {
        (**self).span()
    }
}

impl<T: Spanned> Spanned for Box<T> {
    ghost span_of = { λ b. T.span_of b.value };

    fn span(&self) -> Span {
        (**self).span()
    }
}

/// A part that may be left out is no part of the text where it is.
impl<T: Spanned> Spanned for Option<T> {
    ghost span_of = { span_or_none T.span_of };

    fn span(&self) -> Span {
        match self {
            Some(x) => x.span(),
            None => DUMMY_SP,
        }
    }
}
