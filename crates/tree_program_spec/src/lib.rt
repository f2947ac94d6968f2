//! What a syntax tree says, as definitions in `specs/`: the tree without places and without what only tells how
//! something is spelled; its names in their order; and tests of whether two trees are equal, and whether they are the same
//! program, kind by kind and field by field. Its only functions are laws.
#![tactic(auto)]

ghost use Rattle.tree_program_spec.specs.EqualLaws.{EqualIsTested, SameIsTested};
ghost use Rattle.tree_program_spec.specs.Laws.{SameIsReflexive, SameIsSymmetric, SameIsTransitive};

pub mod names;

/// Law: being the same program is an equivalence.
pub fn same_program_law()
    ensures reflexive { SameIsReflexive }
    ensures symmetric { SameIsSymmetric }
    ensures transitive { SameIsTransitive }
{}

/// Law: the test of equality is true of two trees exactly where they are equal.
#[tactic(auto, using(crate::proofs::EqualLemmas::equal_decides))]
pub fn equal_law()
    ensures { EqualIsTested }
{}

/// Law: the test of being the same program is true of two trees exactly where they are.
#[tactic(auto, using(crate::proofs::SameLemmas::same_decides))]
pub fn same_law()
    ensures { SameIsTested }
{}
