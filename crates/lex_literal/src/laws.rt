//! Laws of the definitions, by functions that do nothing.

ghost use Rattle.lex_literal.specs.Escapes.{OneEscape};
ghost use Rattle.lex_literal.specs.Numbers.{OneNumber};
ghost use Rattle.lex_literal.specs.Standing.{BigIntStands, NumberStands};
ghost use Rattle.lex_literal.specs.Strings.{OneString};
ghost use Rattle.lex_literal.specs.Templates.{OnePiece};

/// Law: at most one escape stands behind a backslash.
pub fn one_escape_stands()
    ensures { OneEscape }
{}

/// Law: at most one string stands at the front of a text.
pub fn one_string_stands()
    ensures { OneString }
{}

/// Law: at most one piece of a template stands at the front of a text.
pub fn one_piece_stands()
    ensures { OnePiece }
{}

/// Law: at most one numeric literal stands at the front of a text.
pub fn one_number_stands()
    ensures { OneNumber }
{}

/// Law: a spelling of a number is read as its value, before any rest that may follow.
pub fn number_stands()
    ensures { NumberStands }
{}

/// Law: a spelling of a big integer is read as its radix and digits, before any rest that may follow.
pub fn big_int_stands()
    ensures { BigIntStands }
{}
