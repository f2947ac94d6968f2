//! Names with `*` and `?` among the paths of a command line.

use crate::names::joined;
use run_ignore::Pattern;
use std::alloc::{AllocError, Global};

/// What stands in a folder and matches a pattern.
#[derive(Drop)]
pub(crate) struct Wild {
    pattern: Pattern,
    /// How many bytes of a path stand before what is matched.
    skipped: usize,
    /// How many folders below the folder may have what matches.
    pub(crate) deepest: usize,
}

/// Where the first `*` or `?` stands.
fn wild_at(path: &str) -> Option<usize> {
    path.as_bytes()
        .iter()
        .position(|byte| *byte == b'*' || *byte == b'?')
}

/// The folder before a name that begins with or has this front, and how many bytes stand before the name.
fn folder_before(front: &str) -> (&str, usize) {
    match front.rsplit_once('/') {
        None => (".", 0),
        Some((folder, _)) => {
            let skipped = folder.len().saturating_add(1);
            (if folder.is_empty() { "/" } else { folder }, skipped)
        }
    }
}

/// How many folders below its own a pattern may match in, at most so many.
fn deepest(pattern: &str, most: usize) -> usize {
    if pattern.contains("**") {
        most
    } else {
        pattern.split('/').count().saturating_sub(1).min(most)
    }
}

impl Wild {
    /// The folder before the first name with `*` or `?`, and what matches in it; nothing where no name has these.
    pub(crate) fn read(
        alloc: Global,
        path: &str,
        most: usize,
    ) -> Result<Option<(String, Wild)>, AllocError> {
        let Some(at) = wild_at(path) else {
            return Ok(None);
        };
        let (folder, skipped) = folder_before(path.get(..at).unwrap_or(""));
        let rest = path.get(skipped..).unwrap_or("");
        let anchored = joined(alloc, "/", rest)?;
        let wild = Wild {
            pattern: Pattern::parse(alloc, anchored.as_bytes())?,
            skipped,
            deepest: deepest(rest, most),
        };
        Ok(Some((String::from_str(alloc, folder)?, wild)))
    }

    /// Whether a path in the folder matches.
    pub(crate) fn matches(&self, alloc: Global, path: &str) -> Result<bool, AllocError> {
        let bytes = path.as_bytes();
        self.pattern
            .matches(alloc, bytes.get(self.skipped..).unwrap_or(bytes))
    }
}
