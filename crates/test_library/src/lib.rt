//! Tests that no row can ask. What a user of the tree writes (`examples`); trees that `Build` makes, with nodes that no text has, long
//! chains, which trees without a text are the same program, and trees that are printed; and the lexical layer where memory runs out
//! (`lexing`). All that can be asked of a text is asked by rows (`docs/ROWS.md`).
#![tactic(auto)]

#[cfg(test)]
mod chains;
#[cfg(test)]
mod examples;
#[cfg(test)]
mod expressions;
#[cfg(test)]
mod functions;
#[cfg(test)]
mod lexing;
#[cfg(test)]
mod made;
#[cfg(test)]
mod modules;
#[cfg(test)]
mod patterns;
#[cfg(test)]
mod places;
#[cfg(test)]
mod printer;
#[cfg(test)]
mod statements;
#[cfg(test)]
mod told;
#[cfg(test)]
mod unspelled;
