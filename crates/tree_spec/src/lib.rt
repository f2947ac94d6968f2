//! The syntax tree as definitions see it, in `specs/`: contracts and laws cite it without the code's
//! types. Its only functions are laws.
#![tactic(auto)]

ghost use Rattle.std.specs.Prelude.{◌≡◌};
ghost use Rattle.tree_spec.specs.Laws.{PackUndoes, UnpackUndoes};

/// Law: a list of trees is packed and unpacked without a change, from either side.
#[tactic(auto, using(crate::proofs::PackLemmas::unpack_pack, crate::proofs::PackLemmas::pack_unpack))]
pub fn pack_law()
    ensures unpack { UnpackUndoes }
    ensures pack { PackUndoes }
{}
