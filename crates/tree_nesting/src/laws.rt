//! Laws of the definition.
ghost use Rattle.tree_nesting.specs.Levels.{NestsWithinLevels};
ghost use Rattle.tree_nesting.specs.Table.{CountsHold};

/// Law: the definition counts what a table says that was worked out by hand.
pub fn nesting_table_law()
    ensures { CountsHold }
{}

/// Law: a tree nests no deeper than where each member, call, tag and optional chain is a level, so what is within
/// a limit of levels is within that limit of nesting.
pub fn levels_law()
    ensures { NestsWithinLevels }
{}
