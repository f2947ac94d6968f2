//! Printing a tree: what each kind of node writes is its layout.
#![tactic(auto)]

pub mod arrays;
pub mod arrows;
pub mod assignments;
pub mod blocks;
pub mod calls;
pub mod chains;
pub mod classes;
pub mod declarations;
pub mod exports;
pub mod fors;
pub mod functions;
pub mod ifs;
pub mod imports;
pub mod jumps;
pub mod keys;
pub mod kinds;
pub mod knot;
pub mod lists;
pub mod literals;
pub mod members;
pub mod names;
pub mod news;
pub mod objects;
pub mod operators;
pub mod patterns;
pub mod print;
pub mod programs;
pub mod properties;
pub mod simple;
pub mod specifiers;
pub mod switches;
pub mod templates;
pub mod tries;
pub mod whiles;

pub use lists::Between;
pub use print::{Print, PrintElement, PrintItem, PrintPart};
