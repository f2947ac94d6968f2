//! A pattern and the paths that it matches.

ghost use Rattle.std.specs.Prelude.{◌≡◌, ◌↔◌, true, IfOk};
ghost use Rattle.run_ignore.specs.Matching.{Matches};
ghost use Rattle.run_ignore.specs.Reading.{IsAnchored, IsPattern};

use crate::matching::is_match;
use crate::pieces::Piece;
use crate::reading::{past, read_pieces};
use std::alloc::{AllocError, Global};

/// A name with `*`, `**`, `?` and `[a-z]`.
#[derive(Drop)]
pub struct Pattern {
    pub(crate) pieces: Vec<Piece>,
}

impl Pattern {
    /// Reads a pattern, without a slash at its end: that belongs to a rule. A slash at its start or in its middle anchors it to the
    /// folder from which paths are counted; else it matches at any depth, as with `**/` before it.
    ///
    /// # Errors
    ///
    /// `AllocError` where there is no memory for its pieces.
    pub fn parse(alloc: Global, text: &[u8]) -> Result<Pattern, AllocError>
        ensures { IfOk result (λ pattern. IsPattern text.now pattern.pieces.items) }
    {
        if text.contains(&b'/') {
            return anchored(alloc, text);
        }
        let mut pieces = read_pieces(alloc, text)?;
        pieces.insert(0, Piece::Folders)?;
        Ok(Pattern { pieces })
    }

    /// Whether the pattern matches a path, whose names have one slash between them.
    ///
    /// The time is that of the product of the lengths of pattern and path; a row of two bytes for each piece is all that it takes.
    ///
    /// # Errors
    ///
    /// `AllocError` where there is no memory for the row.
    pub fn matches(&self, alloc: Global, path: &[u8]) -> Result<bool, AllocError>
        ensures { IfOk result (λ answer. (answer ≡ true) ↔ Matches self.now.pieces.items path.now) }
    {
        is_match(alloc, &self.pieces, path)
    }
}

/// A pattern with a slash.
fn anchored(alloc: Global, text: &[u8]) -> Result<Pattern, AllocError>
    ensures { IfOk result (λ pattern. IsAnchored text.now pattern.pieces.items) }
{
    let pieces = match past(b'/', text) {
        Some(inner) => read_pieces(alloc, inner)?,
        None => read_pieces(alloc, text)?,
    };
    Ok(Pattern { pieces })
}
