//! Where what is written of a file goes.

use run_files::joined;
use run_settings::Asked;
use std::alloc::{AllocError, Global};

/// A path without the ending of a program.
fn without_ending(path: &str) -> &str {
    for ending in [".js", ".mjs", ".cjs"] {
        if let Some(front) = path.strip_suffix(ending) {
            return front;
        }
    }
    path
}

/// A path as it stands in a folder for what is written: without names `..`, and not from the top.
fn inner(alloc: Global, path: &str) -> Result<String, AllocError> {
    let mut inner = String::new(alloc);
    for name in path.split('/') {
        if !name.is_empty() && name != ".." {
            if !inner.is_empty() {
                inner.push('/')?;
            }
            inner.push_str(name)?;
        }
    }
    Ok(inner)
}

/// Where a file goes before its ending is another.
fn before_suffix(alloc: Global, asked: &Asked, path: &str) -> Result<String, AllocError> {
    match &asked.out_folder {
        None => String::from_str(alloc, path),
        Some(folder) => joined(alloc, folder.as_str(), inner(alloc, path)?.as_str()),
    }
}

/// The path to which what is written of a file goes, where it goes to a file.
pub(crate) fn destination(
    alloc: Global,
    asked: &Asked,
    path: &str,
) -> Result<Option<String>, AllocError> {
    if let Some(file) = &asked.out_file {
        return Ok(Some(String::from_str(alloc, file.as_str())?));
    }
    if asked.out_folder.is_none() && asked.suffix.is_none() {
        return Ok(None);
    }
    let whole = before_suffix(alloc, asked, path)?;
    match &asked.suffix {
        None => Ok(Some(whole)),
        Some(suffix) => {
            let mut path = String::from_str(alloc, without_ending(whole.as_str()))?;
            path.push_str(suffix.as_str())?;
            Ok(Some(path))
        }
    }
}

/// Whether a file has the name of one that was written before.
pub(crate) fn is_written(asked: &Asked, path: &str) -> bool {
    match &asked.suffix {
        None => false,
        Some(suffix) => { without_ending(suffix.as_str()) != "" && path.ends_with(suffix.as_str()) }
    }
}
