//! Laws of spelled texts, as functions that do nothing; and small texts that are spelled, and names of small
//! programs, as facts that the checker evaluates.
#![tactic(auto)]

ghost use Rattle.grammar_text_laws.specs.Laws.{OnePlainTree, OneTree, PlacesInOrder, TilesPart};
ghost use Rattle.grammar_text_laws.specs.OneLaws.{OneProgramSpells, OneTreeReads, OneTreeSpells};

/// Law: tokens that tile a text are in order. Each begins where the one before it ends or later, and has a character, but for the
/// characters of a template.
#[tactic(auto)]
pub fn tiles_are_in_order()
    ensures { PlacesInOrder }
{}

/// Law: two lists of places that tile one text have the same tokens, or they part first where one has a
/// regular expression or a part of a template and the other hasn't. So two trees that read one text are
/// the same, or their tokens part so; and at most one tree reads a text by tokens of which none is a
/// regular expression or a part of a template.
#[tactic(auto)]
pub fn one_tree_reads()
    ensures tiles { TilesPart }
    ensures trees { OneTree }
    ensures plain { OnePlainTree }
{}

/// Law: at most one tree reads a text as a script, and at most one as a module. So at most one tree, and
/// at most one program, spells it.
#[tactic(auto)]
pub fn one_tree_law()
    ensures reads { OneTreeReads }
    ensures trees { OneTreeSpells }
    ensures programs { OneProgramSpells }
{}
