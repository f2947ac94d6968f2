//! Laws of the definitions, by functions that do nothing.

ghost use Rattle.std.specs.Str.{chars};
ghost use Rattle.lex_token.specs.Lexemes.{OneLexeme};

use crate::goal::LexicalGoal;

/// Law: at most one token stands at the front of a text under one goal.
pub fn one_lexeme_stands(goal: LexicalGoal, text: &str)
    ensures { OneLexeme goal (chars text.now) }
{}
