//! The lines of a `.gitignore` file to rules.

ghost use Rattle.std.specs.Prelude.{◌≡◌, ◌==◌, ◌↔◌, not, ◌&&◌, ℕ, List, ◌∷◌, ◌++◌, ◌<◌, ◌⊎◌, [], length, true, false, IfOk, OnOk, MatchOption};
ghost use Rattle.run_ignore.specs.Lines.{Ends, IsKept, IsNoRule, IsSigned, IsForFolders, IsRule, IsLineLength, IsReturned, IsLine, AddsRule};

use crate::patterns::Pattern;
use crate::reading::past;
use crate::rules::Rule;
use std::alloc::{AllocError, Global};

/// What stands before this byte at the end of a text, or nothing where another stands there or none.
fn before(byte: u8, text: &[u8]) -> Option<&[u8]>
    ensures { MatchOption result (Ends text.now byte → ⊥) (λ front. text.now ≡ front.now ++ byte ∷ []) }
{
    match text.split_last() {
        Some((last, front)) if *last == byte => Some(front),
        _ => None,
    }
}

/// The end of what is kept of a line: behind a byte that is quoted or no blank, and else where it was.
fn kept_end(quoted: bool, byte: u8, behind: usize, end: usize) -> usize
    ensures { ((result ≡ behind) × (quoted ≡ false → byte ≡ 32 → ⊥)) ⊎ ((result ≡ end) × ((quoted ≡ false) × (byte ≡ 32))) }
{
    if quoted || byte != b' ' { behind } else { end }
}

/// Whether a byte, which is quoted or not, quotes the next one.
fn quotes_next(quoted: bool, byte: u8) -> bool
    ensures { result ≡ (not quoted && (byte == 92)) }
{
    !quoted && byte == b'\\'
}

/// A line without the blanks at its end, but one that a backslash quotes.
#[tactic(auto, using(crate::proofs::KeptLemmas::kept_begun))]
fn kept(line: &[u8]) -> &[u8]
    ensures { IsKept line.now result.now }
{
    let mut end = 0;
    let mut quoted = false;
    for (at, byte) in line.iter().enumerate() {
        end = kept_end(quoted, *byte, at + 1, end);
        quoted = quotes_next(quoted, *byte);
    }
    &line[..end]
}

/// What stands behind `!`, which takes back.
fn signed(line: &[u8]) -> (bool, &[u8])
    ensures { IsSigned line.now result.0 result.1.now }
{
    match past(b'!', line) {
        Some(text) => (true, text),
        None => (false, line),
    }
}

/// What stands before a slash at the end, which is for folders alone.
fn for_folders(text: &[u8]) -> (bool, &[u8])
    ensures { IsForFolders text.now result.0 result.1.now }
{
    match before(b'/', text) {
        Some(name) => (true, name),
        None => (false, text),
    }
}

/// Whether a line, without the blanks at its end, has no rule.
fn has_no_rule(line: &[u8]) -> bool
    ensures { (result ≡ true) ↔ IsNoRule line.now }
{
    line.is_empty() || past(b'#', line).is_some()
}

/// The rule of a line, which has no blanks at its end.
///
/// # Errors
///
/// `AllocError` where there is no memory for the pieces of its pattern.
fn read_rule(alloc: Global, line: &[u8]) -> Result<Rule, AllocError>
    ensures { IfOk result (λ rule. IsRule line.now rule) }
{
    let (takes_back, text) = signed(line);
    let (folders_only, name) = for_folders(text);
    let pattern = Pattern::parse(alloc, name)?;
    Ok(Rule {
        pattern,
        takes_back,
        folders_only,
    })
}

/// Adds the rule of a line to those before, where it has one.
///
/// # Errors
///
/// `AllocError` where there is no memory for it.
pub(crate) fn add_rule(alloc: Global, line: &[u8], rules: &mut Vec<Rule>) -> Result<(), AllocError>
    ensures { OnOk result (AddsRule line.now rules.old.items rules.new.items) }
{
    let line = kept(line);
    if has_no_rule(line) {
        return Ok(());
    }
    let rule = read_rule(alloc, line)?;
    rules.push(rule)?;
    Ok(())
}

/// How many bytes stand before the first line feed, or in all of the text.
fn line_length(text: &[u8]) -> usize
    ensures { IsLineLength text.now result }
{
    for (at, byte) in text.iter().enumerate() {
        if *byte == b'\n' {
            return at;
        }
    }
    text.len()
}

/// A line without a carriage return at its end.
fn without_return(line: &[u8]) -> &[u8]
    ensures { IsReturned line.now result.now }
{
    match before(b'\r', line) {
        Some(front) => front,
        None => line,
    }
}

/// The first line of a text, without what ends it, and what follows.
#[tactic(auto, using(crate::proofs::LineLemmas::line_is, crate::proofs::LineLemmas::last_line_is))]
pub(crate) fn first_line(text: &[u8]) -> (&[u8], &[u8])
    requires { 0 < length text.now }
    ensures read { IsLine text.now result.0.now result.1.now }
    ensures shorter { length result.1.now < length text.now }
{
    let count = line_length(text);
    let line = without_return(&text[..count]);
    if count < text.len() {
        return (line, &text[count + 1..]);
    }
    (line, &text[count..])
}
