//! The names of a tree, in the order in which a text has them.

ghost use Rattle.tree_program_spec.specs.Names.Table.{NamesHold};

/// Law: the definition names what a table says that was worked out by hand.
pub fn names_table_law()
    ensures { NamesHold }
{}
