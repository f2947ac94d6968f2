//! Scripts and modules (ECMA-262, clause 16), with their imports and exports.
#![tactic(auto)]

pub mod after_export;
pub mod default_exports;
pub mod exportable;
pub mod exports;
pub mod imports;
pub mod items;
pub mod made;
pub mod names;
pub mod openings;
pub mod programs;
pub mod questions;
pub mod scripts;

pub use parse_objects::properties::prop;
