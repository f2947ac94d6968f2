//! The early errors of names, and those near them, that `grammar_spec` doesn't list: what is declared twice, private names, exports
//! and the like, as definitions in `specs/`. Its only function is a law.
#![tactic(auto)]

ghost use Rattle.judge_names_spec.specs.Laws.{PlacesMove};

/// Law: no place counts.
pub fn places_law()
    ensures { PlacesMove }
{}
