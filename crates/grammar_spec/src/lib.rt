//! The grammar of ECMAScript 2024 as definitions in `specs/`: the relation between trees and tokens, what it asks of tokens and
//! of trees (`Tokens`), its early errors (`Judge`), and the same grammar read from left to right (`Reader`).
#![tactic(auto)]

pub mod judge;
pub mod reader;
pub mod tokens;
