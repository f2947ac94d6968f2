//! A mapping of places.

use base_token::LineCol;

/// A place in what was written, and the place of the source that stands there. Lines and columns are from 0, and columns
/// count UTF-16 units.
#[derive(Clone, Copy, Debug, Default, PartialEq, Eq)]
pub struct Mapping {
    pub written: LineCol,
    pub source: LineCol,
}
