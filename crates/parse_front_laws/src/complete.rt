//! Laws of the grammar: what is read of a part of a program is a complete front of the list. The functions here are laws alone.

ghost use Rattle.parse_front_laws.specs.Complete.Asyncs.{ExpressionsSettle, FrontsStandAlone};
ghost use Rattle.parse_front_laws.specs.Complete.Exact.{FrontsAreExact};
ghost use Rattle.parse_front_laws.specs.Complete.Laws.{BindingsEnd, CutsOff, ExpressionsEnd, FrontsAreOne, FrontsAreRead};
ghost use Rattle.parse_front_laws.specs.Complete.Laws.{KeysEnd, ListItemsEnd, ModuleItemsEnd, StatementsEnd};

/// Law: a rest may be cut off. What is derived up to a rest is derived of the same front before a closing
/// brace in its place.
#[tactic(auto)]
pub fn cut_law()
    ensures spelled { CutsOff }
{}

/// Law: what is read of a list in order, as a part of a program, is derived from a complete front: no longer
/// one is derived of any list that begins with it and the next token.
#[tactic(auto)]
pub fn complete_law()
    ensures expressions { ExpressionsEnd }
    ensures bindings { BindingsEnd }
    ensures keys { KeysEnd }
    ensures statements { StatementsEnd }
    ensures list_items { ListItemsEnd }
    ensures module_items { ModuleItemsEnd }
{}

/// Law: at most one tree is derived from a complete front of a list in order, and there is one such front at
/// most. So what is read is the only one.
#[tactic(auto)]
pub fn one_law()
    ensures fronts { FrontsAreOne }
{}

/// Law: what is derived from a front of a list in order is read of it, at every depth of at least its nesting:
/// bindings and keys before whatever follows, statements and items before all but `finally` and a colon,
/// expressions before what the law of completeness asks.
#[tactic(auto)]
pub fn read_law()
    ensures fronts { FrontsAreRead }
{}

/// Law: each complete front is read. What is derived from a complete front of a list in order is read of it, at every
/// depth of at least its nesting: an expression outside generators where nothing goes on with it; a binding, a key, a
/// statement and an item before whatever follows.
#[tactic(auto)]
pub fn exact_law()
    ensures fronts { FrontsAreExact }
{}

/// Law: what is read as an expression of a list in order is derived from a complete front, but where the word `async` ends it
/// in the place of an assignment, before a name on its line.
#[tactic(auto)]
pub fn async_law()
    ensures expressions { ExpressionsSettle }
{}

/// Law: no name stands on the line of the word `async` that ends a complete front of an expression in the place of an
/// assignment, since an arrow would go on with it. The words of the list are to be of their kinds.
#[tactic(auto)]
pub fn alone_law()
    ensures expressions { FrontsStandAlone }
{}
