//! The text of a pattern to its pieces.

ghost use Rattle.std.specs.Prelude.{◌≡◌, ℕ, List, ◌∷◌, ◌++◌, ◌<◌, ◌≤◌, [], length, IfOk, IfSome, MatchOption, ◌↔◌, Bool, true, false, Some, None};
ghost use Rattle.std.specs.Option.{option_copied};
ghost use Rattle.run_ignore.specs.Reading.{Begins, IsCharacter, IsCutShort, IsHyphen, IsMember, IsNoMember, NamesClass, Members, IsNegation, IsRun, IsPiece, ends_name, Spells};

use crate::pieces::{Class, Piece, Range};
use std::alloc::{AllocError, Global};

/// What follows this byte at the front of a text, or nothing where another stands there or none.
pub(crate) fn past(byte: u8, text: &[u8]) -> Option<&[u8]>
    ensures cases { MatchOption result (Begins text.now byte → ⊥) (λ rest. text.now ≡ byte ∷ rest.now) }
    ensures shorter { IfSome result (λ rest. length rest.now < length text.now) }
{
    match text.split_first() {
        Some((first, rest)) if *first == byte => Some(rest),
        _ => None,
    }
}

/// The byte for which the front of a text stands, and what follows it; nothing where the text ends.
fn character(text: &[u8]) -> Option<(u8, &[u8])>
    ensures cases { MatchOption result (IsCutShort text.now) (λ x. IsCharacter x.0 text.now x.1.now) }
    ensures shorter { IfSome result (λ x. length x.1.now < length text.now) }
{
    let (first, rest) = text.split_first()?;
    if *first != b'\\' {
        return Some((*first, rest));
    }
    let (second, rest) = rest.split_first()?;
    Some((*second, rest))
}

/// What follows a hyphen that stands before a member of a class.
fn hyphen(text: &[u8]) -> Option<&[u8]>
    ensures cases { MatchOption result ((rest : List ℕ) → IsHyphen text.now rest → ⊥) (λ rest. IsHyphen text.now rest.now) }
    ensures shorter { IfSome result (λ rest. length rest.now < length text.now) }
{
    let rest = past(b'-', text)?;
    if rest.is_empty() || past(b']', rest).is_some() {
        return None;
    }
    Some(rest)
}

/// One member of a class behind the member `before`, from which a range may go: its bytes, itself where a range may go from it, and
/// what follows. Nothing where the text ends before.
fn member(before: Option<u8>, text: &[u8]) -> Option<(Range, Option<u8>, &[u8])>
    ensures cases { MatchOption result (IsNoMember before text.now) (λ x. IsMember x.0 before text.now x.1 x.2.now) }
    ensures shorter { IfSome result (λ x. length x.2.now < length text.now) }
{
    if let Some(from) = before
        && let Some(behind) = hyphen(text)
    {
        let (to, rest) = character(behind)?;
        return Some((Range { from, to }, None, rest));
    }
    let (byte, rest) = character(text)?;
    let range = Range {
        from: byte,
        to: byte,
    };
    Some((range, Some(byte), rest))
}

/// Whether the front of a text names a class, as `[:alpha:]` does.
fn names_class(text: &[u8]) -> bool
    ensures { (result ≡ true) ↔ NamesClass text.now }
{
    past(b'[', text).is_some_and(|rest| past(b':', rest).is_some())
}

/// What follows the closing bracket at the front of a text, which as the first member of a class would be one.
fn closed(text: &[u8], is_first: bool) -> Option<&[u8]>
    ensures cases { MatchOption result (is_first ≡ false → Begins text.now 93 → ⊥)
        (λ rest. (is_first ≡ false) × (text.now ≡ 93 ∷ rest.now)) }
    ensures shorter { IfSome result (λ rest. length rest.now < length text.now) }
{
    if is_first {
        return None;
    }
    past(b']', text)
}

/// Reads the members of a class up to its closing bracket, and answers what follows that; nothing where the class isn't closed or
/// names another.
///
/// # Errors
///
/// `AllocError` where there is no memory for the ranges.
#[tactic(auto, using(crate::proofs::ReadLemmas::members_begun, crate::proofs::ReadLemmas::members_more, crate::proofs::ReadLemmas::members_closed, crate::proofs::ReadLemmas::members_named, crate::proofs::ReadLemmas::members_open))]
fn members<'a>(text: &'a [u8], ranges: &mut Vec<Range>) -> Result<Option<&'a [u8]>, AllocError>
    requires { ranges.old.items ≡ [] }
    ensures read { IfOk result (λ end. Members ranges.new.items true None text.now (option_copied end)) }
    ensures shorter { IfOk result (λ end. IfSome end (λ rest. length rest.now < length text.now)) }
{
    let mut rest = text;
    let mut is_first = true;
    let mut before = None;
    'members: loop {
        if let Some(behind) = closed(rest, is_first) {
            return Ok(Some(behind));
        }
        if names_class(rest) {
            return Ok(None);
        }
        let Some((range, next, behind)) = member(before, rest) else {
            return Ok(None);
        };
        ranges.push(range)?;
        rest = behind;
        before = next;
        is_first = false;
    }
}

/// What follows the asterisks at the front of a text.
#[tactic(auto, using(crate::proofs::ReadLemmas::stars_begun, crate::proofs::ReadLemmas::stars_more, crate::proofs::ReadLemmas::stars_done))]
fn past_stars(text: &[u8]) -> &[u8]
    ensures read { (stars : List ℕ) × IsRun stars text.now result.now }
    ensures shorter { length result.now ≤ length text.now }
{
    let mut rest = text;
    'stars: while let Some(more) = past(b'*', rest) {
        rest = more;
    }
    rest
}

/// The piece of the asterisks at the front of a text, and what follows it.
#[tactic(auto, using(crate::proofs::ReadLemmas::star_inside, crate::proofs::ReadLemmas::star_lone, crate::proofs::ReadLemmas::star_joined, crate::proofs::ReadLemmas::stars_all, crate::proofs::ReadLemmas::stars_folders, crate::proofs::ReadLemmas::star_shorter))]
fn star_piece(text: &[u8], is_start: bool) -> (Piece, &[u8])
    requires { Begins text.now 42 }
    ensures read { IsPiece result.0 is_start text.now result.1.now }
    ensures shorter { length result.1.now < length text.now }
{
    let rest = past_stars(text);
    // For the proof: two tests in place of one `||`, so that each way out has a lemma of its own.
    if !is_start {
        return (Piece::Star, rest);
    }
    if text.len() - rest.len() < 2 {
        return (Piece::Star, rest);
    }
    if rest.is_empty() {
        return (Piece::Everything, rest);
    }
    match past(b'/', rest) {
        Some(behind) => (Piece::Folders, behind),
        None => (Piece::Star, rest),
    }
}

/// Whether a sign behind an opening bracket negates the class, and what follows it.
fn negation(text: &[u8]) -> (bool, &[u8])
    ensures read { IsNegation text.now result.0 result.1.now }
    ensures shorter { length result.1.now ≤ length text.now }
{
    if let Some(rest) = past(b'!', text) {
        return (true, rest);
    }
    if let Some(rest) = past(b'^', text) {
        return (true, rest);
    }
    (false, text)
}

/// The class whose members stand at the front of a text, behind its opening bracket, and what follows it; or the end of the text,
/// where it isn't closed or names another.
///
/// # Errors
///
/// `AllocError` where there is no memory for the ranges.
#[tactic(auto, using(crate::proofs::ReadLemmas::class_read, crate::proofs::ReadLemmas::class_unread))]
fn class_piece(alloc: Global, text: &[u8]) -> Result<(Piece, &[u8]), AllocError>
    ensures read { IfOk result (λ x. (is_start : Bool) → IsPiece x.0 is_start (91 ∷ text.now) x.1.now) }
    ensures shorter { IfOk result (λ x. length x.1.now ≤ length text.now) }
{
    let (negated, inner) = negation(text);
    let mut ranges = Vec::new(alloc);
    match members(inner, &mut ranges)? {
        Some(rest) => Ok((Piece::Among(Class { negated, ranges }), rest)),
        None => Ok((Piece::Nothing, &text[text.len()..])),
    }
}

/// The piece at the front of a text, and what follows it.
///
/// # Errors
///
/// `AllocError` where there is no memory for a class.
#[tactic(auto, using(crate::proofs::ReadLemmas::cut_short))]
fn read_piece(alloc: Global, text: &[u8], is_start: bool) -> Result<(Piece, &[u8]), AllocError>
    requires { 0 < length text.now }
    ensures read { IfOk result (λ x. IsPiece x.0 is_start text.now x.1.now) }
    ensures shorter { IfOk result (λ x. length x.1.now < length text.now) }
{
    if let Some(rest) = past(b'?', text) {
        return Ok((Piece::One, rest));
    }
    if let Some(body) = past(b'[', text) {
        return class_piece(alloc, body);
    }
    if let Some(_) = past(b'*', text) {
        return Ok(star_piece(text, is_start));
    }
    match character(text) {
        Some((byte, rest)) => Ok((Piece::Byte(byte), rest)),
        None => Ok((Piece::Nothing, &text[text.len()..])),
    }
}

/// Whether a name starts behind a piece.
fn ends_name(piece: &Piece) -> bool
    ensures { result ≡ ends_name piece.now }
{
    match piece {
        Piece::Byte(byte) => *byte == b'/',
        Piece::Folders => true,
        _ => false,
    }
}

/// The pieces that a text spells, which begins with a name.
///
/// # Errors
///
/// `AllocError` where there is no memory for them.
#[tactic(auto, using(crate::proofs::ReadLemmas::pieces_begun, crate::proofs::ReadLemmas::pieces_more, crate::proofs::ReadLemmas::pieces_done))]
pub(crate) fn read_pieces(alloc: Global, text: &[u8]) -> Result<Vec<Piece>, AllocError>
    ensures { IfOk result (λ pieces. Spells pieces.items true text.now) }
{
    let mut pieces = Vec::new(alloc);
    let mut rest = text;
    let mut is_start = true;
    'pieces: while !rest.is_empty() {
        let (piece, behind) = read_piece(alloc, rest, is_start)?;
        is_start = ends_name(&piece);
        pieces.push(piece)?;
        rest = behind;
    }
    Ok(pieces)
}
