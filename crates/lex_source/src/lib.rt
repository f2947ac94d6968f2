//! Where tokens come from: the trait `Tokens`, what every source of tokens keeps, and the text that spells given tokens
//! (`canonical`).
#![tactic(auto)]

pub mod ahead;
pub mod canonical;
pub mod contexts;
pub mod faults;
pub mod kind_numbers;
pub mod kinds;
pub mod look;
pub mod settings;
pub mod tokens;

pub use ahead::Ahead;
pub use contexts::{TokenContext, TokenContexts};
pub use faults::FaultLog;
pub use look::Look;
pub use settings::Settings;
pub use tokens::Tokens;
