//! Answers.

use crate::field::push_escaped;
use std::alloc::{AllocError, Global};
use std::fmt::Display;

/// The fields that answer a question, each behind a tab.
#[derive(Drop)]
pub struct Answer {
    alloc: Global,
    line: Vec<u8>,
}

impl Answer {
    /// An answer without fields.
    pub fn new(alloc: Global) -> Answer {
        Answer {
            alloc,
            line: Vec::new(alloc),
        }
    }

    /// Where the answer takes its memory.
    pub fn alloc(&self) -> Global {
        self.alloc
    }

    /// Adds a field of these bytes.
    ///
    /// # Errors
    ///
    /// Want of memory.
    pub fn push(&mut self, bytes: &[u8]) -> Result<(), AllocError> {
        self.line.push(b'\t')?;
        push_escaped(&mut self.line, bytes)
    }

    /// Adds a field of this text, as `answer.say(format_args!("{lo}..{hi}"))?`.
    ///
    /// # Errors
    ///
    /// Want of memory.
    pub fn say(&mut self, text: impl Display + Drop) -> Result<(), AllocError> {
        let text = text.to_string(self.alloc)?;
        self.push(text.as_bytes())
    }

    /// The fields as a line has them.
    pub fn as_bytes(&self) -> &[u8] {
        self.line.as_slice()
    }
}
