//! Laws of what is read again: what the layout of a program says is derived again, what is derived from known tokens
//! is read from these, what is written of a leaf tells what the leaf told, and what is written again is written as
//! before. The functions here are laws alone.

ghost use Rattle.again_laws.specs.DerivedLaws.BytesLaws.{WrittenAgain};
ghost use Rattle.again_laws.specs.DerivedLaws.DerivedLaws.{DerivedAgain};
ghost use Rattle.again_laws.specs.DerivedLaws.TextsLaws.{DerivedIsRead, ReadIsFaithful};

/// Law: the tokens that the layout of a program says are derived again, by a tree that is this one but for places and
/// spellings.
#[tactic(auto)]
pub fn derived_law()
    ensures derived { DerivedAgain }
{}

/// Law: what is derived from known tokens is read from these.
#[tactic(auto)]
pub fn read_law()
    ensures { DerivedIsRead }
{}

/// Law: of a tree that was read from known tokens, what is written of each leaf tells what the leaf told.
#[tactic(auto)]
pub fn faithful_law()
    ensures { ReadIsFaithful }
{}

/// Law: a tree whose spellings are those of the text written of a tree that was read is written as that one, in the same
/// pieces and as the same bytes: formatted what is formatted, minified what is minified, and minified what is formatted.
#[tactic(auto)]
pub fn written_again_law()
    ensures { WrittenAgain }
{}
