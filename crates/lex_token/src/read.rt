//! The token at the front of a text.

ghost use Rattle.std.specs.Prelude.{◌≡◌, ◌<◌, ◌≤◌, ◌∷◌, true, length, IfOk, IfSome, IsUtf8};
ghost use Rattle.std.specs.Str.{chars};
ghost use Rattle.lex_token.specs.Lexemes as spec;
ghost use Rattle.lex_token.specs.Readings.{Reads, ReadsAs, ReadsLexeme, TellsFirstBad};

use crate::goal::LexicalGoal;
use crate::lexeme::Lexeme;
use crate::literals::{number, pattern, string, template, template_end};
use crate::sort::{Sort, sort_of};
use crate::words::{mark, word};
use base_token::Error;
use lex_pieces::characters::pop;
use std::alloc::Global;

/// The token at the front of a text that begins with this character, outside templates.
fn outside<'a>(
    alloc: Global,
    goal: LexicalGoal,
    c: char,
    behind: &str,
    text: &'a str,
    end: u32,
) -> Result<Lexeme<'a>, Error>
    requires cut { chars text.now ≡ c ∷ chars behind.now }
    requires order { length behind.now ≤ length text.now }
    requires within { length text.now < end }
    ensures token { ReadsAs (spec.IsOutside goal) (spec.IsOutsideFault end goal (chars text.now)) (chars text.now) result }
    ensures rest { IfOk result (λ l. IsUtf8 l.rest.now × (length l.rest.now ≤ length text.now)) }
{
    match sort_of(goal, c, behind) {
        Sort::Word => word(alloc, text, end),
        Sort::Number => number(alloc, text, end),
        Sort::Str => string(alloc, text, end),
        Sort::RegExp => pattern(text, behind, end),
        Sort::Punctuator => mark(text, behind, end),
    }
}

/// The token at the front of a text outside the characters of templates, or nothing at the end.
fn token_or_end(
    alloc: Global,
    goal: LexicalGoal,
    text: &str,
    end: u32,
) -> Result<Option<Lexeme<'_>>, Error>
    requires within { length text.now < end }
    ensures token { Reads (spec.IsOutside goal) (spec.IsOutsideFault end goal (chars text.now)) (chars text.now) result }
    ensures rest { IfOk result (λ o. IfSome o (λ l. IsUtf8 l.rest.now × (length l.rest.now ≤ length text.now))) }
{
    let Some((c, behind)) = pop(text) else {
        return Ok(None);
    };
    Ok(Some(outside(alloc, goal, c, behind, text, end)?))
}

/// The token at the front of a text under a goal, or nothing at the end of the text (ECMA-262, clause
/// 12). The text ends at the place `end`, and no trivia stands at its front. What a token holds is
/// borrowed where it is spelled as it reads, with no escape and no separator.
///
/// # Errors
///
/// No token stands there; or memory ran out.
pub fn read_token(
    alloc: Global,
    goal: LexicalGoal,
    text: &str,
    end: u32,
) -> Result<Option<Lexeme<'_>>, Error>
    requires within { length text.now < end }
    ensures token { ReadsLexeme end goal (chars text.now) result }
    ensures bad { TellsFirstBad end goal (chars text.now) result }
    ensures rest { IfOk result (λ o. IfSome o (λ l. IsUtf8 l.rest.now × (length l.rest.now ≤ length text.now))) }
{
    match goal {
        // For the proof: two arms, since an arm of both says only that the goal is one of them.
        LexicalGoal::Div => token_or_end(alloc, LexicalGoal::Div, text, end),
        LexicalGoal::RegExp => token_or_end(alloc, LexicalGoal::RegExp, text, end),
        LexicalGoal::TemplateTail => Ok(Some(template(alloc, text, end)?)),
        LexicalGoal::TemplateEnd => template_end(text, end),
    }
}
