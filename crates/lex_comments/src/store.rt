//! Where the comments of a text are kept: before a place of it, or after one.
ghost use Rattle.std.specs.Prelude.{◌≡◌, ◌↔◌, ◌≢◌, ℕ, [], ◌∷◌, ◌++◌, IsTrue, OnOk, OnErr, IfOk};
ghost use Rattle.lex_comments.specs.Comments.{comments_at, IsAdded, IsTaken, IsSame};
ghost use Rattle.lex_comments.specs.Store.{leading_at, trailing_at};

use crate::owned::Comment;
use base_token::BytePos;
use std::alloc::{AllocError, Global};
use std::collections::BTreeMap;

/// The comments of a place, in the order in which they were added, for each place that has some.
type Places = BTreeMap<u32, Vec<Comment>>;

/// The comments of a text. Each leads what begins at a place, or trails what ends there.
#[derive(Drop)]
pub struct Comments {
    alloc: Global,
    leading: Places,
    trailing: Places,
}

/// The comments of a place.
fn at(places: &Places, pos: BytePos) -> &[Comment]
    ensures { result.now ≡ comments_at places.now pos.0 }
{
    match places.get(&pos.0) {
        Some(comments) => comments.as_slice(),
        None => &[],
    }
}

/// Adds a comment after those of a place. Where memory runs out nothing changes.
fn add(alloc: Global, places: &mut Places, pos: BytePos, comment: Comment) -> Result<(), AllocError>
    ensures added { OnOk result (IsAdded (comments_at places.old) (comments_at places.new) pos.0 comment) }
    ensures unchanged { OnErr result (IsSame (comments_at places.old) (comments_at places.new)) }
{
    if let Some(comments) = places.get_mut(&pos.0) {
        comments.push(comment)?;
        return Ok(());
    }
    let mut comments = Vec::with_capacity(alloc, 1)?;
    comments.push(comment)?;
    places.insert(pos.0, comments)?;
    Ok(())
}

/// Takes the comments of a place away.
fn take(alloc: Global, places: &mut Places, pos: BytePos) -> Vec<Comment>
    ensures answer { result.items ≡ comments_at places.old pos.0 }
    ensures taken { IsTaken (comments_at places.old) (comments_at places.new) pos.0 }
{
    match places.remove(&pos.0) {
        Some(comments) => comments,
        None => Vec::new(alloc),
    }
}

impl Comments {
    /// No comments.
    pub fn new(alloc: Global) -> Comments
        ensures leading { (q : ℕ) → leading_at result q ≡ [] }
        ensures trailing { (q : ℕ) → trailing_at result q ≡ [] }
    {
        Comments {
            alloc,
            leading: BTreeMap::new(alloc),
            trailing: BTreeMap::new(alloc),
        }
    }

    /// Adds a comment after those that lead what begins at a place.
    ///
    /// # Errors
    ///
    /// Want of memory. Nothing changes then.
    pub fn add_leading(&mut self, pos: BytePos, comment: Comment) -> Result<(), AllocError>
        ensures added { OnOk result (IsAdded (leading_at self.old) (leading_at self.new) pos.0 comment) }
        ensures unchanged { OnErr result (IsSame (leading_at self.old) (leading_at self.new)) }
        ensures trailing { IsSame (trailing_at self.old) (trailing_at self.new) }
    {
        add(self.alloc, &mut self.leading, pos, comment)
    }

    /// Adds a comment after those that trail what ends at a place.
    ///
    /// # Errors
    ///
    /// Want of memory. Nothing changes then.
    pub fn add_trailing(&mut self, pos: BytePos, comment: Comment) -> Result<(), AllocError>
        ensures added { OnOk result (IsAdded (trailing_at self.old) (trailing_at self.new) pos.0 comment) }
        ensures unchanged { OnErr result (IsSame (trailing_at self.old) (trailing_at self.new)) }
        ensures leading { IsSame (leading_at self.old) (leading_at self.new) }
    {
        add(self.alloc, &mut self.trailing, pos, comment)
    }

    /// Whether a comment leads what begins at a place.
    pub fn has_leading(&self, pos: BytePos) -> bool
        ensures { IsTrue result ↔ (leading_at self.now pos.0 ≢ []) }
    {
        !self.get_leading(pos).is_empty()
    }

    /// Whether a comment trails what ends at a place.
    pub fn has_trailing(&self, pos: BytePos) -> bool
        ensures { IsTrue result ↔ (trailing_at self.now pos.0 ≢ []) }
    {
        !self.get_trailing(pos).is_empty()
    }

    /// The comments that lead what begins at a place, in the order in which they were added.
    pub fn get_leading(&self, pos: BytePos) -> &[Comment]
        ensures { result.now ≡ leading_at self.now pos.0 }
    {
        at(&self.leading, pos)
    }

    /// The comments that trail what ends at a place, in the order in which they were added.
    pub fn get_trailing(&self, pos: BytePos) -> &[Comment]
        ensures { result.now ≡ trailing_at self.now pos.0 }
    {
        at(&self.trailing, pos)
    }

    /// Takes the comments away that lead what begins at a place. It takes no memory.
    pub fn take_leading(&mut self, pos: BytePos) -> Vec<Comment>
        ensures answer { result.items ≡ leading_at self.old pos.0 }
        ensures taken { IsTaken (leading_at self.old) (leading_at self.new) pos.0 }
        ensures trailing { IsSame (trailing_at self.old) (trailing_at self.new) }
    {
        take(self.alloc, &mut self.leading, pos)
    }

    /// Takes the comments away that trail what ends at a place. It takes no memory.
    pub fn take_trailing(&mut self, pos: BytePos) -> Vec<Comment>
        ensures answer { result.items ≡ trailing_at self.old pos.0 }
        ensures taken { IsTaken (trailing_at self.old) (trailing_at self.new) pos.0 }
        ensures leading { IsSame (leading_at self.old) (leading_at self.new) }
    {
        take(self.alloc, &mut self.trailing, pos)
    }
}

impl Clone for Comments {
    ghost is_clone = { λ c d. IsSame (leading_at c) (leading_at d) × IsSame (trailing_at c) (trailing_at d) };

    fn clone(&self) -> Result<Comments, AllocError> {
        Ok(Comments {
            alloc: self.alloc,
            leading: self.leading.clone()?,
            trailing: self.trailing.clone()?,
        })
    }
}
