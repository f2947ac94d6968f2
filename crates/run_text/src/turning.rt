//! How the lines of one text become those of another.

ghost use Rattle.std.specs.Prelude.{◌≡◌, ◌+◌, ◌<◌, ◌≤◌, true, false, [], drop, length, IfOk, IfSome};
ghost use Rattle.std.specs.Str.{bytes_eq};
ghost use Rattle.run_text.specs.Blocks.{Agree, IsBlock, Turns};

use std::alloc::{AllocError, Global};

/// Lines that both texts have, and then lines of the old one in whose place stand lines of the new one.
#[derive(Clone, Copy)]
pub struct Block {
    pub kept: usize,
    pub removed: usize,
    pub added: usize,
}

/// How far a line is looked for that both have, in lines of the two together.
const REACH: usize = 64;

/// A line of fewer bytes is no place from which two texts are taken to agree again: a brace alone is everywhere.
const TELLING: usize = 3;

/// Whether two lines are the same.
fn is_same(one: &[u8], other: &[u8]) -> bool
    ensures { result ≡ bytes_eq one.now other.now }
{
    one == other
}

/// How many lines both have at their front.
#[tactic(auto, using(crate::proofs::BlockLemmas::agree_none, crate::proofs::BlockLemmas::agree_more))]
fn common(old: &[&[u8]], new: &[&[u8]]) -> usize
    ensures agree { Agree result old.now new.now }
    ensures old { result ≤ length old.now }
    ensures new { result ≤ length new.now }
{
    let mut count = 0;
    while count < old.len() && count < new.len() && is_same(old[count], new[count]) {
        count += 1;
    }
    count
}

/// Whether both have the same line there, which tells enough.
fn is_met(old: &[&[u8]], removed: usize, new: &[&[u8]], added: usize) -> bool
    ensures old { result ≡ true → removed < length old.now }
    ensures new { result ≡ true → added < length new.now }
{
    if removed >= old.len() || added >= new.len() {
        return false;
    }
    old[removed].len() >= TELLING && is_same(old[removed], new[added])
}

/// How many lines to leave of each, `reach` together, up to a line that both have.
fn met_at(old: &[&[u8]], new: &[&[u8]], reach: usize) -> Option<(usize, usize)>
    requires { 0 < reach }
    ensures { IfSome result (λ x. (0 < x.0 + x.1) × (x.0 ≤ length old.now) × (x.1 ≤ length new.now)) }
{
    for removed in 0..reach {
        let added = reach - removed;
        if is_met(old, removed, new, added) {
            return Some((removed, added));
        }
    }
    if is_met(old, reach, new, 0) {
        return Some((reach, 0));
    }
    None
}

/// How many lines to leave of each, one at least, up to a line near by that both have.
fn near(old: &[&[u8]], new: &[&[u8]]) -> Option<(usize, usize)>
    ensures { IfSome result (λ x. (0 < x.0 + x.1) × (x.0 ≤ length old.now) × (x.1 ≤ length new.now)) }
{
    for reach in 1..REACH {
        if let Some(found) = met_at(old, new, reach) {
            return Some(found);
        }
    }
    None
}

/// How many lines to leave of each up to a line that both have; all where none is found.
fn gap(old: &[&[u8]], new: &[&[u8]]) -> (usize, usize)
    ensures old { result.0 ≤ length old.now }
    ensures new { result.1 ≤ length new.now }
    ensures some { 0 < length old.now + length new.now → 0 < result.0 + result.1 }
{
    let mut at = 0;
    while at < old.len() && at < new.len() {
        if let Some((removed, added)) = near(behind(old, at), behind(new, at)) {
            return (at + removed, at + added);
        }
        at += 1;
    }
    (old.len(), new.len())
}

/// The lines behind so many.
fn behind<'a, 'b>(lines: &'b [&'a [u8]], count: usize) -> &'b [&'a [u8]]
    requires { count ≤ length lines.now }
    ensures { result.now ≡ drop count lines.now }
{
    let (_, behind) = lines.split_at(count);
    behind
}

/// Whether nothing is left of either.
#[tactic(auto, using(crate::proofs::LineLemmas::nothing_is))]
fn is_done(left: &[&[u8]], coming: &[&[u8]]) -> bool
    ensures done { result ≡ true → (left.now ≡ []) × (coming.now ≡ []) }
    ensures more { result ≡ false → 0 < length left.now + length coming.now }
{
    if !left.is_empty() {
        return false;
    }
    coming.is_empty()
}

/// The first block.
fn next_block(old: &[&[u8]], new: &[&[u8]]) -> Block
    ensures is { IsBlock result old.now new.now }
    ensures some { 0 < length old.now + length new.now → 0 < result.kept + result.removed + result.added }
{
    let kept = common(old, new);
    let (removed, added) = gap(behind(old, kept), behind(new, kept));
    Block {
        kept,
        removed,
        added,
    }
}

/// Blocks that turn the lines of one text into those of another. A line that both have is looked for near by, so they are
/// not always the fewest.
///
/// # Errors
///
/// `AllocError` where there is no memory for them.
#[tactic(auto, using(crate::proofs::BlockLemmas::blocks_begun, crate::proofs::BlockLemmas::blocks_more, crate::proofs::BlockLemmas::blocks_done))]
pub fn blocks(alloc: Global, old: &[&[u8]], new: &[&[u8]]) -> Result<Vec<Block>, AllocError>
    ensures { IfOk result (λ blocks. Turns blocks.items old.now new.now) }
{
    let mut blocks = Vec::new(alloc);
    let mut left = old;
    let mut coming = new;
    'left: loop {
        if is_done(left, coming) {
            return Ok(blocks);
        }
        let block = next_block(left, coming);
        blocks.push(block)?;
        left = behind(behind(left, block.kept), block.removed);
        coming = behind(behind(coming, block.kept), block.added);
    }
}
