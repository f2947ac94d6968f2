//! The parts of a path.

use std::alloc::{AllocError, Global};

/// The folder of a path, as a path: `.` where it has none, and `/` of what stands at the top.
pub fn folder_of(path: &str) -> &str {
    match path.rsplit_once('/') {
        None => ".",
        Some((folder, _)) => { if folder.is_empty() { "/" } else { folder } }
    }
}

/// The last name of a path.
pub fn name_of(path: &str) -> &str {
    match path.rsplit_once('/') {
        None => path,
        Some((_, name)) => name,
    }
}

/// The path of a name in a folder. In `.` it is the name alone.
///
/// # Errors
///
/// `AllocError` where there is no memory for it.
pub fn joined(alloc: Global, folder: &str, name: &str) -> Result<String, AllocError> {
    let mut path = String::new(alloc);
    if folder != "." {
        path.push_str(folder)?;
        if !folder.ends_with('/') {
            path.push('/')?;
        }
    }
    path.push_str(name)?;
    Ok(path)
}

/// A path with one slash between its names and none at its end, and without names `.`, but where it is nothing else.
///
/// # Errors
///
/// `AllocError` where there is no memory for it.
pub fn cleaned(alloc: Global, path: &str) -> Result<String, AllocError> {
    let mut clean = String::new(alloc);
    if path.starts_with('/') {
        clean.push('/')?;
    }
    for name in path.split('/') {
        if !name.is_empty() && name != "." {
            push_name(&mut clean, name)?;
        }
    }
    if clean.is_empty() {
        clean.push('.')?;
    }
    Ok(clean)
}

/// Adds a name to a path.
fn push_name(path: &mut String, name: &str) -> Result<(), AllocError> {
    if !path.is_empty() && !path.as_str().ends_with('/') {
        path.push('/')?;
    }
    path.push_str(name)
}
