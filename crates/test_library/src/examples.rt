//! What a user of the tree writes: trees built by hand, a lint that counts names, a codemod that removes `debugger` statements, and
//! trees compared. Nothing here has a proof of its own.

pub mod build;
pub mod compare;
pub mod count_names;
pub mod remove_debugger;
