//! Lemmas of booleans and lists that the toolchain's library lacks and several crates need, in `proofs/`.
#![tactic(auto)]
