//! Questions.

use crate::field::unescape;
use std::alloc::{AllocError, Global};

/// A question: the words of its setting, and its fields.
#[derive(Drop)]
pub struct Question<'a> {
    /// What is asked, and how.
    pub setting: &'a str,
    fields: Vec<String>,
}

impl Question<'_> {
    /// The field of this number, from 0; empty where there is no such field.
    pub fn text(&self, index: usize) -> &str {
        match self.fields.as_slice().get(index) {
            Some(field) => field.as_str(),
            None => "",
        }
    }

    /// Whether the setting has this word.
    pub fn has(&self, word: &str) -> bool {
        self.setting.split(' ').any(|own| own == word)
    }

    /// The first word of the setting.
    pub fn subject(&self) -> &str {
        match self.setting.split_once(' ') {
            Some((first, _)) => first,
            None => self.setting,
        }
    }

    /// What stands behind a word of the setting, as `2` in `indent=2`.
    pub fn value(&self, name: &str) -> Option<&str> {
        for word in self.setting.split(' ') {
            if let Some((own, value)) = word.split_once('=')
                && own == name
            {
                return Some(value);
            }
        }
        None
    }

    /// The number behind a word of the setting.
    pub fn number(&self, name: &str) -> Option<u32> {
        self.value(name)?.parse().ok()
    }
}

/// The question of a line: its setting, and its fields, with tabs between them.
///
/// # Errors
///
/// Want of memory.
pub fn read<'a>(alloc: Global, line: &'a str) -> Result<Question<'a>, AllocError> {
    let (setting, rest) = match line.split_once('\t') {
        Some((setting, rest)) => (setting, Some(rest)),
        None => (line, None),
    };
    let mut fields = Vec::new(alloc);
    if let Some(rest) = rest {
        for field in rest.split('\t') {
            fields.push(unescape(alloc, field)?)?;
        }
    }
    Ok(Question { setting, fields })
}
