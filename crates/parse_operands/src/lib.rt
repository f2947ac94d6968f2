//! What the rules of the parser share: operands, the makers of nodes, what rules call for nested parts, and the rules
//! of elements of arrays, arguments, private names and keys in brackets.
#![tactic(auto)]

pub mod elements;
pub mod held;
pub mod lists;
pub mod literals;
pub mod made;
pub mod names;
pub mod nested;
pub mod operand;
pub mod operators;

pub use held::Held;
pub use nested::Nested;
pub use operand::Operand;
