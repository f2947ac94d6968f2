//! The canonical text of tokens: the same tokens with one blank or line break between them.

ghost use Rattle.std.specs.Prelude.{◌≡◌, ◌-◌, ◌==◌, map, option_map, IfErr, IfOk};
ghost use Rattle.std.specs.String.{string_bytes};
ghost use Rattle.base_token.specs.declared.error.SyntaxError.TheVariants.{Memory};
ghost use Rattle.base_token.specs.Kinds.{hash_kind, template_kind};
ghost use Rattle.base_token.specs.TokenViews.{token_view};
ghost use Rattle.lex_source.specs.Machine.{shown_spot, without_fault};
ghost use Rattle.lex_source.specs.Canonical.Edges.{edge_in};
ghost use Rattle.lex_source.specs.Canonical.Laws.{CanonicalStays};
ghost use Rattle.lex_source.specs.Canonical.Canonical as spec;

use crate::settings::out_of_memory;
use base_token::{BytePos, Error, Span, Token, TokenAndSpan};
use std::alloc::{AllocError, Global};

/// Whether a character of the text begins there, or the text ends there.
fn is_cut(source: &str, at: usize) -> bool
    ensures { result ≡ spec.is_cut source.now at }
{
    source.is_char_boundary(at)
}

/// A place of a text, from 1, as a place from 0.
fn offset(place: BytePos) -> usize
    ensures { result ≡ place.0 - 1 }
{
    place.0.saturating_sub(1) as usize
}

/// The bytes of a text at this place, or none where it isn't in the text.
fn own(source: &str, span: Span) -> &str
    ensures { result.now ≡ spec.own_bytes source.now span.lo.0 span.hi.0 }
{
    let lo = offset(span.lo);
    let hi = offset(span.hi);
    if span.lo.0 <= span.hi.0 && is_cut(source, lo) && is_cut(source, hi) {
        &source[lo..hi]
    } else {
        ""
    }
}

/// What of a token tells what stands behind it.
#[derive(Clone, Copy, Debug)]
struct Edge {
    template: bool,
    hash: bool,
    end: u32,
}

/// How a token ends.
fn edge_of(token: &TokenAndSpan<'_>) -> Edge
    ensures { edge_in result ≡ spec.edge_of (shown_spot token.now) }
{
    Edge {
        template: is_template(&token.token),
        hash: is_hash(&token.token),
        end: token.span.hi.0,
    }
}

/// Whether a token is the characters of a template.
fn is_template(token: &Token<'_>) -> bool
    ensures { result ≡ (token_view token.now).kind == template_kind }
{
    matches!(token, Token::Template { .. })
}

/// Whether a token is `#`.
fn is_hash(token: &Token<'_>) -> bool
    ensures { result ≡ (token_view token.now).kind == hash_kind }
{
    matches!(token, Token::Hash)
}

/// Whether a token is a word.
fn is_word(token: &Token<'_>) -> bool
    ensures { result ≡ spec.is_word (without_fault (token_view token.now).content) }
{
    matches!(token, Token::Word(_))
}

/// Whether nothing stands before a token.
fn touches(last: Option<Edge>, token: &TokenAndSpan<'_>) -> bool
    ensures { result ≡ spec.touches (option_map edge_in last) (shown_spot token.now) }
{
    match last {
        Some(last) => {
            last.template
                || last.hash && is_word(&token.token) && last.end == token.span.lo.0
                || is_template(&token.token)
        }
        None => is_template(&token.token),
    }
}

/// What stands before a token behind the one before it.
fn gap(last: Option<Edge>, token: &TokenAndSpan<'_>) -> &'static str
    ensures { result.now ≡ spec.gap (option_map edge_in last) (shown_spot token.now) }
{
    if touches(last, token) {
        return "";
    }
    if token.had_line_break {
        return "\n";
    }
    match last {
        Some(_) => " ",
        None => "",
    }
}

/// Writes the canonical text of tokens.
#[tactic(auto, using(crate::proofs::canonical::Behind::behind_at, crate::proofs::canonical::Behind::behind_all))]
fn written(alloc: Global, source: &str, tokens: &[TokenAndSpan<'_>]) -> Result<String, AllocError>
    ensures { IfOk result (λ s. string_bytes s ≡ spec.canonical source.now (map shown_spot tokens.now)) }
{
    let mut out = String::new(alloc);
    let mut last = None;
    for token in tokens {
        out.push_str(gap(last, token))?;
        out.push_str(own(source, token.span))?;
        last = Some(edge_of(token));
    }
    Ok(out)
}

/// The canonical text of tokens that were read in this text, whose first place is 1: of each its own bytes.
/// Before a token stands a line break where the token has its mark, else a blank, unless it is the first.
/// Nothing stands beside the characters of a template, nor between `#` and a word that touches it. A token
/// whose place isn't in the text has no bytes.
///
/// # Errors
///
/// Want of memory.
pub fn canonical_text(
    alloc: Global,
    source: &str,
    tokens: &[TokenAndSpan<'_>],
) -> Result<String, Error>
    ensures text { IfOk result (λ s. string_bytes s ≡ spec.canonical source.now (map shown_spot tokens.now)) }
    ensures memory { IfErr result (λ e. e.kind ≡ Memory) }
{
    match written(alloc, source, tokens) {
        Ok(text) => Ok(text),
        Err(error) => Err(out_of_memory(error)),
    }
}

/// Law: a canonical text has the tokens of which it was written, with the same own bytes, each in its new place, and of
/// these tokens it is the canonical text again.
pub fn a_canonical_text_is_its_own()
    ensures { CanonicalStays }
{}
