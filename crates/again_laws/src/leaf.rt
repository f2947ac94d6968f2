//! What the texts of names and literals mean as they are written: the same names and values again. The functions here are laws alone.

ghost use Rattle.again_laws.specs.Leaf.Laws.{NumberIsCanonical, NumberIsAscii, BigIsAscii, StringAlone, StringUnits, QuotedScalars, TemplateScalars, TextsMean};

/// Law: what is read of a number is in its one form, and the texts of numbers and of big integers are ASCII.
#[tactic(auto)]
pub fn numbers_are_canonical()
    ensures canonical { NumberIsCanonical }
    ensures ascii { NumberIsAscii }
    ensures big { BigIsAscii }
{}

/// Law: a string is read alone as it is before a rest, and reads as units of UTF-16; strings in quotes and pieces of
/// templates are written in scalar values.
#[tactic(auto)]
pub fn texts_are_scalars()
    ensures alone { StringAlone }
    ensures units { StringUnits }
    ensures quoted { QuotedScalars }
    ensures templates { TemplateScalars }
{}

/// Law: in each style the text of a name or a literal that was read means that name or that value, and each
/// punctuator, word and operator the token of its kind.
#[tactic(auto)]
pub fn texts_mean()
    ensures { TextsMean }
{}
