//! The bytes of a file.

use crate::trouble::Trouble;
use std::fs;

/// The bytes of a regular file, or of that to which a link leads.
///
/// # Errors
///
/// `NoRegularFile` for anything else, which isn't opened, and `System`.
pub fn read_file(rt: &HostRuntime, path: &str) -> Result<Vec<u8>, Trouble> {
    let metadata = fs::metadata(rt, path)?;
    if !metadata.is_file() {
        return Err(Trouble::NoRegularFile);
    }
    Ok(fs::read(rt, path)?)
}
