//! A tree as a line of text.
use crate::words::{Words, words_of};
use base_token::Span;
use std::alloc::{AllocError, Global};
use std::fmt::Write;
use tree_nodes::Program;
use tree_visit::{Node, Walk, Watch};

/// The line so far, and whether memory ran out.
struct Line {
    text: String,
    full: bool,
}

impl Line {
    /// Adds a text.
    fn say(&mut self, text: &str) {
        let full = self.text.push_str(text).is_err();
        self.full = self.full || full;
    }

    /// What opens the next node.
    fn mark(&self) -> &'static str {
        if self.text.is_empty() { "(" } else { " (" }
    }

    /// Adds a word behind a blank, where there is one.
    fn word(&mut self, word: &str) {
        if !word.is_empty() {
            self.say(" ");
            self.say(word);
        }
    }

    /// Adds a number behind a blank.
    fn number(&mut self, number: usize) {
        let full = write!(self.text, " {number}").is_err();
        self.full = self.full || full;
    }

    /// Adds a node up to what is below it: its kind, what it spells, and its place.
    fn open(&mut self, words: &Words<'_>, span: Span) {
        self.say(self.mark());
        self.say(words.name);
        self.word(words.own);
        self.word(words.more);
        if let Some(count) = words.count {
            self.number(count);
        }
        let full = write!(self.text, " {}..{}", span.lo.0, span.hi.0).is_err();
        self.full = self.full || full;
    }
}

impl Watch for Line {
    ghost State = { Unit {0} };

    ghost step = { λ event s. s };

    ghost state = { λ line. tt };

    fn enter(&mut self, node: Node<'_>) {
        let (words, span) = words_of(node);
        self.open(&words, span);
    }

    fn leave(&mut self, _node: Node<'_>) {
        self.say(")");
    }
}

/// The outline of a part of a tree: each node in parentheses, with the name of its kind, what it spells itself, its place,
/// and the nodes below it in the order of the source, as `(ExprStmt 1..2 (Ident a 1..2))`.
///
/// # Errors
///
/// Want of memory.
pub fn outline_part<T: Walk>(alloc: Global, part: &T) -> Result<String, AllocError> {
    let mut line = Line {
        text: String::new(alloc),
        full: false,
    };
    part.walk(&mut line);
    let Line { text, full } = line;
    if full { Err(AllocError) } else { Ok(text) }
}

/// The outline of a program, in the same way, as `(Script 1..2 (ExprStmt 1..2 (Ident a 1..2)))`.
///
/// # Errors
///
/// Want of memory.
pub fn outline(alloc: Global, program: &Program) -> Result<String, AllocError> {
    outline_part(alloc, program)
}
