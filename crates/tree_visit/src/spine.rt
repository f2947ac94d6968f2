//! Chains of expressions, as long as a text may have them: binary operators, members, calls, tagged templates and optional
//! chains, each of which goes on from its left part. How many links a chain has, and what stands so many links down.

pub mod chain;
