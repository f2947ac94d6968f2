//! The rules of `.gitignore` and `.delvaramignore` files, by the folders in which they stand.

use run_ignore::{Rules, Verdict};
use std::alloc::{AllocError, Global};

/// The files of rules in a folder, in the order in which they are read: the last decides first.
pub(crate) static RULES: [&str; 2] = [".gitignore", ".delvaramignore"];

/// The rules of one file, and how many bytes of a whole path stand before the path that they are asked of.
#[derive(Drop)]
pub(crate) struct Level {
    pub(crate) rules: Rules,
    pub(crate) skipped: usize,
}

/// What rules say of a whole path: those of the last file that says something decide.
fn verdict(
    alloc: Global,
    levels: &[Level],
    path: &[u8],
    is_dir: bool,
) -> Result<Verdict, AllocError> {
    for level in levels.iter().rev() {
        let below = path.get(level.skipped..).unwrap_or(path);
        match level.rules.verdict(alloc, below, is_dir)? {
            Verdict::Unsaid => {}
            said => return Ok(said),
        }
    }
    Ok(Verdict::Unsaid)
}

/// Whether rules leave out a whole path, whatever they say of the folders above it.
pub(crate) fn leave_out(
    alloc: Global,
    levels: &[Level],
    path: &str,
    is_dir: bool,
) -> Result<bool, AllocError> {
    match verdict(alloc, levels, path.as_bytes(), is_dir)? {
        Verdict::LeftOut => Ok(true),
        Verdict::TakenBack | Verdict::Unsaid => Ok(false),
    }
}

/// How many bytes of a whole path stand before what stands in this folder.
pub(crate) fn skipped(folder: &str) -> usize {
    if folder.ends_with('/') {
        folder.len()
    } else {
        folder.len().saturating_add(1)
    }
}
