//! Blocks and bodies, and the steps on the parser's state that they and what stands above them need; makers and parts
//! of statements, and declarations of variables.
#![tactic(auto)]

pub mod blocks;
pub mod body;
pub mod codes;
pub mod declarations;
pub mod made;
pub mod parts;
pub mod starts;

pub use body::BodySoFar;
pub use parse_operands::Nested;
