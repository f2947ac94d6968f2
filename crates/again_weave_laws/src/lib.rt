//! What is written of a program, with comments and other white space between its tokens, is the same program. The functions here
//! are laws alone.
#![tactic(auto)]

ghost use Rattle.again_weave_laws.specs.Laws.{ReadIsCelled, WovenReadsBack};

/// Law: a text that some tree reads is tokens, with trivia between them, behind a hashbang where there is one.
#[tactic(auto)]
pub fn cells_law()
    ensures { ReadIsCelled }
{}

/// Law: what is written of a tree that spells a text, in any look, formatted and minified, is read back with whatever
/// trivia stands between its tokens, where it may: a tree of the same program spells it, and no other reads it.
#[tactic(auto)]
pub fn woven_law()
    ensures { WovenReadsBack }
{}
