//! Who knows the texts and the lines of places.
ghost use Rattle.std.specs.Prelude.{◌≡◌, None, false};

use base_token::{BytePos, Span};

/// Knows the texts of spans.
pub trait SourceMapper {
    /// The text of a span, where it is known.
    fn span_to_snippet(&self, span: Span) -> Option<&str>;
}

/// Knows which places share a line.
pub trait SourceMapperExt {
    /// Whether two places are on the same line.
    fn is_on_same_line(&self, one: BytePos, other: BytePos) -> bool;
}

/// Knows no places: no two share a line, and no span has a text.
#[derive(Clone, Copy, Debug, Default)]
pub struct NoPlaces;

impl SourceMapper for NoPlaces {
    fn span_to_snippet(&self, _span: Span) -> Option<&str>
        ensures { result ≡ None }
    {
        None
    }
}

impl SourceMapperExt for NoPlaces {
    fn is_on_same_line(&self, _one: BytePos, _other: BytePos) -> bool
        ensures { result ≡ false }
    {
        false
    }
}
