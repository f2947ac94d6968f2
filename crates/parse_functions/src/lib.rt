//! The rules of keys, parameters and functions, which objects, classes and declarations share, and declarations of functions.
#![tactic(auto)]

pub mod declarations;
pub mod functions;
pub mod heads;
pub mod keys;
pub mod made;

pub use parse_operands::elements::group_items;
pub use parse_operands::names::private_name;
