//! Source maps (ECMA-426) of what is written.

use base64::engine::general_purpose::STANDARD;
use print_source_map::{MapError, Mapping, mappings};
use run_files::{folder_of, name_of};
use serde_json::Value;
use std::alloc::{AllocError, Global};

/// What ends a text before the path of its source map.
const MARK: &str = "\n//# sourceMappingURL=";

/// What stands before a source map in a text.
const INLINE: &str = "data:application/json;charset=utf-8;base64,";

/// The path of a source as one in the folder of what is written finds it.
fn seen_from(alloc: Global, to: &str, path: &str) -> Result<String, AllocError> {
    if folder_of(to) == folder_of(path) {
        return String::from_str(alloc, name_of(path));
    }
    let mut seen = String::new(alloc);
    if !path.starts_with('/') {
        for _ in to.split('/').skip(1) {
            seen.push_str("../")?;
        }
    }
    seen.push_str(path)?;
    Ok(seen)
}

/// Adds a text as JSON has it.
fn push_text(alloc: Global, map: &mut String, text: &str) -> Result<(), AllocError> {
    let quoted = Value::try_from_str(alloc, text)?.to_string(alloc)?;
    map.push_str(quoted.as_str())
}

/// The text of a source map.
fn text_of(
    alloc: Global,
    text: &str,
    file: &str,
    source: &str,
    mappings: &str,
) -> Result<String, AllocError> {
    let mut map = String::from_str(alloc, "{\"version\":3,\"file\":")?;
    push_text(alloc, &mut map, file)?;
    map.push_str(",\"sources\":[")?;
    push_text(alloc, &mut map, source)?;
    map.push_str("],\"sourcesContent\":[")?;
    push_text(alloc, &mut map, text)?;
    map.push_str("],\"names\":[],\"mappings\":")?;
    push_text(alloc, &mut map, mappings)?;
    map.push('}')?;
    Ok(map)
}

/// The source map of what is written of a text to a path.
///
/// # Errors
///
/// Why there is no text of its mappings.
pub(crate) fn source_map(
    alloc: Global,
    text: &str,
    found: &[Mapping],
    path: &str,
    to: &str,
) -> Result<String, MapError> {
    let mappings = mappings(alloc, found)?;
    let source = seen_from(alloc, to, path)?;
    let map = text_of(alloc, text, name_of(to), source.as_str(), mappings.as_str())?;
    Ok(map)
}

/// A text with the path of its source map at the end.
pub(crate) fn with_path(alloc: Global, text: &str, path: &str) -> Result<String, AllocError> {
    let mut with = String::from_str(alloc, text.trim_end_matches('\n'))?;
    with.push_str(MARK)?;
    with.push_str(path)?;
    with.push('\n')?;
    Ok(with)
}

/// A text with its source map at the end.
pub(crate) fn with_map(alloc: Global, text: &str, map: &str) -> Result<String, AllocError> {
    let mut data = String::from_str(alloc, INLINE)?;
    STANDARD.encode_string(map.as_bytes(), &mut data)?;
    with_path(alloc, text, data.as_str())
}
