//! Literals and templates as tokens.

ghost use Rattle.std.specs.Prelude.{◌≡◌, ◌++◌, ◌<◌, ◌≤◌, false, true, length, None, IfOk, IfSome, IsUtf8};
ghost use Rattle.std.specs.Str.{chars};
ghost use Rattle.lex_literal.specs.Escapes.{begins};
ghost use Rattle.lex_literal.specs.Numbers.{IsNumberFault, is_number_start, meaning};
ghost use Rattle.lex_literal.specs.Strings.{IsStringFault, is_quote};
ghost use Rattle.lex_token.specs.declared.goal.LexicalGoal.TheVariants.{TemplateEnd};
ghost use Rattle.lex_token.specs.Lexemes as spec;
ghost use Rattle.lex_token.specs.Readings.{BeginsWith, HasFirstBad, ReadsAs, ReadsLexeme, lexeme_view};

use crate::lexeme::{Lexeme, plain, stray};
use base_token::{Error, SyntaxError, Token};
use lex_literal::{
    Numeral, NumericLiteral, StringLiteral, read_number, read_string, read_template,
};
use lex_pieces::characters::pop;
use lex_pieces::regular_expression;
use std::alloc::Global;

/// A number or big integer as a token.
fn numeral(literal: NumericLiteral<'_>) -> Lexeme<'_>
    ensures view { lexeme_view result ≡ spec.numeral_spelled (meaning literal.entry.value) literal.entry.raw.now literal.entry.legacy }
    ensures rest { result.rest.now ≡ literal.entry.rest.now }
{
    let NumericLiteral {
        value,
        legacy,
        raw,
        rest,
    } = literal;
    let token = match value {
        Numeral::Number(value) => Token::Num { value, raw },
        Numeral::BigInt { radix, digits } => Token::BigInt { radix, digits, raw },
    };
    Lexeme {
        token,
        escaped: false,
        legacy,
        rest,
    }
}

/// The number or big integer at the front of a text.
pub(crate) fn number(alloc: Global, text: &str, end: u32) -> Result<Lexeme<'_>, Error>
    requires starts { is_number_start (chars text.now) ≡ true }
    requires within { length text.now < end }
    ensures number { ReadsAs spec.IsNumber (IsNumberFault end (chars text.now)) (chars text.now) result }
    ensures rest { IfOk result (λ l. IsUtf8 l.rest.now × (length l.rest.now ≤ length text.now)) }
{
    match read_number(alloc, text, end) {
        Ok(literal) => Ok(numeral(literal)),
        Err(error) => Err(error),
    }
}

/// The fault that strict code has with a string that has an octal escape.
fn octal(legacy: bool) -> Option<SyntaxError>
    ensures { result ≡ spec.octal legacy }
{
    if legacy {
        Some(SyntaxError::LegacyOctal)
    } else {
        None
    }
}

/// A string as a token.
fn quoted(literal: StringLiteral<'_>) -> Lexeme<'_>
    ensures view { lexeme_view result ≡ spec.string_spelled literal.entry.value literal.entry.raw.now literal.entry.legacy }
    ensures rest { result.rest.now ≡ literal.entry.rest.now }
{
    let StringLiteral {
        value,
        legacy,
        raw,
        rest,
    } = literal;
    Lexeme {
        token: Token::Str { units: value, raw },
        escaped: false,
        legacy: octal(legacy),
        rest,
    }
}

/// The string at the front of a text.
pub(crate) fn string(alloc: Global, text: &str, end: u32) -> Result<Lexeme<'_>, Error>
    requires quote { begins is_quote (chars text.now) ≡ true }
    requires within { length text.now < end }
    ensures string { ReadsAs spec.IsQuoted (IsStringFault end (chars text.now)) (chars text.now) result }
    ensures rest { IfOk result (λ l. IsUtf8 l.rest.now × (length l.rest.now ≤ length text.now)) }
{
    match read_string(alloc, text, end) {
        Ok(literal) => Ok(quoted(literal)),
        Err(error) => Err(error),
    }
}

/// The regular expression at the front of a text that begins with a slash. `behind` follows the slash.
pub(crate) fn pattern<'a>(text: &'a str, behind: &str, end: u32) -> Result<Lexeme<'a>, Error>
    requires cut { spec.IsPast (chars text.now) (chars behind.now) }
    requires order { length behind.now ≤ length text.now }
    requires within { length text.now < end }
    ensures pattern { ReadsAs spec.IsPattern (spec.IsPatternFault end (chars text.now)) (chars text.now) result }
    ensures rest { IfOk result (λ l. IsUtf8 l.rest.now × (length l.rest.now ≤ length text.now)) }
{
    match regular_expression(end, text) {
        Ok(Some(found)) => Ok(plain(Token::Regex(found.body, found.flags), found.rest)),
        Ok(None) => Err(stray(end, text, behind)),
        Err(error) => Err(error),
    }
}

/// What follows the own text at the front of a text.
fn past<'a>(text: &'a str, own: &str) -> &'a str
    requires { BeginsWith (chars text.now) (chars own.now) }
    ensures cut { chars text.now ≡ chars own.now ++ chars result.now }
    ensures rest { IsUtf8 result.now × (length result.now ≤ length text.now) }
{
    let (_, rest) = text.split_at(own.len());
    rest
}

/// The characters of a template at the front of a text, up to what ends them.
pub(crate) fn template(alloc: Global, text: &str, end: u32) -> Result<Lexeme<'_>, Error>
    requires within { length text.now < end }
    ensures characters { ReadsAs spec.IsCharacters (spec.IsOpenTemplate end (chars text.now)) (chars text.now) result }
    ensures bad { IfOk result (λ l. HasFirstBad end (chars text.now) l.token) }
    ensures rest { IfOk result (λ l. IsUtf8 l.rest.now × (length l.rest.now ≤ length text.now)) }
{
    match read_template(alloc, text, end) {
        Ok(piece) => {
            let rest = past(text, piece.raw);
            let raw = piece.raw;
            let cooked = piece.cooked;
            Ok(plain(Token::Template { raw, cooked }, rest))
        }
        Err(error) => Err(error),
    }
}

/// What ends the characters of a template, at the front of a text.
pub(crate) fn template_end(text: &str, end: u32) -> Result<Option<Lexeme<'_>>, Error>
    requires within { length text.now < end }
    ensures token { ReadsLexeme end TemplateEnd (chars text.now) result }
    ensures rest { IfOk result (λ o. IfSome o (λ l. IsUtf8 l.rest.now × (length l.rest.now ≤ length text.now))) }
{
    let Some((c, rest)) = pop(text) else {
        return Ok(None);
    };
    match (c, pop(rest)) {
        ('`', _) => Ok(Some(plain(Token::BackQuote, rest))),
        ('$', Some(('{', behind))) => Ok(Some(plain(Token::DollarLBrace, behind))),
        _ => Err(stray(end, text, rest)),
    }
}
