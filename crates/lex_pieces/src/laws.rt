//! Laws of the definitions: what stands at the front of a text is determined.
ghost use Rattle.std.specs.Str.{chars};
ghost use Rattle.lex_pieces.specs.Trivia.{OnePiece};
ghost use Rattle.lex_pieces.specs.Names.{OneName};
ghost use Rattle.lex_pieces.specs.Punctuators.{OnePunctuator};
ghost use Rattle.lex_pieces.specs.RegExps.{OneRegExp};

use crate::trivia::Goal;

/// Law: at most one piece of trivia stands at the front of a text, and none where there is a fault.
pub fn one_piece_stands(goal: Goal, first: bool, text: &str)
    ensures { OnePiece goal first (chars text.now) }
{}

/// Law: at most one punctuator stands at the front of a text.
pub fn one_punctuator_stands(text: &str)
    ensures { OnePunctuator (chars text.now) }
{}

/// Law: at most one name stands at the front of a text.
pub fn one_name_stands(text: &str)
    ensures { OneName (chars text.now) }
{}

/// Law: at most one regular expression stands at the front of a text.
pub fn one_regular_expression_stands(text: &str)
    ensures { OneRegExp (chars text.now) }
{}
