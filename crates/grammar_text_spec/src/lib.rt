//! When a tree, and a program, spell a text: tokens that tile it, a derivation of them, early errors and nesting; fronts of lists, and names.
#![tactic(auto)]
