//! Tests of the lexical layer: which tokens take memory, what the lexer and what keeps its tokens answer where memory runs out, and
//! ends that fail.

mod counted;
mod lexemes;
mod lexer;
mod made;
mod reading;
