//! What `.editorconfig` files say of a file: its indentation and its line ends.

use crate::settings::Settings;
use crate::values::blanks_of;
use run_command::{Indent, LineEnd};
use run_ignore::Pattern;
use std::alloc::{AllocError, Global};

/// How many names are made of one with `{a,b}` at most.
const MOST_GLOBS: u32 = 256;

/// What one file says of another, or several of which an inner one decides first.
#[derive(Clone, Copy)]
pub struct Editor {
    tabs: Option<bool>,
    size: Option<u64>,
    line_end: Option<LineEnd>,
    /// The files of folders above don't count.
    pub is_root: bool,
}

/// Whether a text is this word, in letters of any case.
fn is_word(text: &str, word: &str) -> bool {
    text.eq_ignore_ascii_case(word)
}

/// What stands before, in and behind the first `{` and `}` of a name.
fn choices(glob: &str) -> Option<(&str, &str, &str)> {
    let (front, rest) = glob.split_once('{')?;
    let (inner, back) = rest.split_once('}')?;
    Some((front, inner, back))
}

/// Adds the names that one with `{a,b}` stands for, in its first place alone.
fn push_choices(
    alloc: Global,
    globs: &mut Vec<String>,
    front: &str,
    inner: &str,
    back: &str,
) -> Result<(), AllocError> {
    for choice in inner.split(',') {
        globs.push(format!(in alloc; "{front}{choice}{back}")?)?;
    }
    Ok(())
}

/// Whether a section of this name is meant for a path.
fn is_meant(alloc: Global, name: &str, path: &str) -> Result<bool, AllocError> {
    let mut globs = Vec::new(alloc);
    globs.push(String::from_str(alloc, name)?)?;
    for _ in 0..MOST_GLOBS {
        let Some(glob) = globs.pop() else {
            return Ok(false);
        };
        if let Some((front, inner, back)) = choices(glob.as_str()) {
            push_choices(alloc, &mut globs, front, inner, back)?;
        } else if Pattern::parse(alloc, glob.as_bytes())?.matches(alloc, path.as_bytes())? {
            return Ok(true);
        }
    }
    Ok(false)
}

/// The name of a section, where a line begins one.
fn section(line: &str) -> Option<&str> {
    line.strip_prefix('[')?.strip_suffix(']')
}

/// What a line sets, and to what.
fn pair(line: &str) -> Option<(&str, &str)> {
    if line.starts_with('#') || line.starts_with(';') {
        return None;
    }
    let (key, value) = line.split_once('=')?;
    Some((key.trim(), value.trim()))
}

impl Editor {
    /// Nothing is said.
    pub const NONE: Editor = Editor {
        tabs: None,
        size: None,
        line_end: None,
        is_root: false,
    };

    /// Takes what a line of a section that is meant sets.
    fn take_meant(&mut self, key: &str, value: &str) {
        if is_word(key, "indent_style") {
            self.tabs = Some(is_word(value, "tab"));
        } else if is_word(key, "indent_size") {
            self.size = value.parse::<u64>().ok();
        } else if is_word(key, "end_of_line") {
            self.line_end = if is_word(value, "crlf") {
                Some(LineEnd::CrLf)
            } else if is_word(value, "lf") {
                Some(LineEnd::Lf)
            } else {
                None
            };
        }
    }

    /// Reads the text of a file, of which a path in its folder is asked. What isn't known says nothing.
    ///
    /// # Errors
    ///
    /// `AllocError` where there is no memory for the names of sections.
    pub fn read(alloc: Global, text: &str, path: &str) -> Result<Editor, AllocError> {
        let mut said = Editor::NONE;
        let mut is_top = true;
        let mut is_own = false;
        for line in text.lines() {
            let line = line.trim();
            if let Some(name) = section(line) {
                is_top = false;
                is_own = is_meant(alloc, name, path)?;
            } else if let Some((key, value)) = pair(line) {
                if is_own {
                    said.take_meant(key, value);
                } else if is_top && is_word(key, "root") {
                    said.is_root = is_word(value, "true");
                }
            }
        }
        Ok(said)
    }

    /// What these say, and where they say nothing what the others do.
    pub fn over(self, other: Editor) -> Editor {
        Editor {
            tabs: self.tabs.or(other.tabs),
            size: self.size.or(other.size),
            line_end: self.line_end.or(other.line_end),
            is_root: self.is_root || other.is_root,
        }
    }

    /// The settings that are said by that.
    pub fn settings(&self) -> Settings {
        let indent = if self.tabs == Some(true) {
            Some(Indent::Tabs(1))
        } else {
            self.size.and_then(blanks_of)
        };
        Settings {
            line_end: self.line_end,
            indent,
            ..Settings::NONE
        }
    }
}
