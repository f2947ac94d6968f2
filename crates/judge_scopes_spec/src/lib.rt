//! What each name of a program stands for, and which words keep their meaning in all of it, as definitions in `specs/`. Its only
//! functions are laws.
#![tactic(auto)]

ghost use Rattle.judge_scopes_spec.specs.Laws.{NamesAreTold, PlacesMove};

/// Law: the walk tells what each name of a tree stands for, once and in the order of the text.
pub fn names_law()
    ensures { NamesAreTold }
{}

/// Law: no place counts.
pub fn places_law()
    ensures { PlacesMove }
{}
