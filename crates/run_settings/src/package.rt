//! What a `package.json` says of the files of its folder.

use crate::command::Goals;
use run_command::Goal;
use serde_json::Value;
use std::alloc::{AllocError, Global};

/// As what files of a folder are read whose ending doesn't say it: modules where `type` is `module`, and else scripts.
///
/// # Errors
///
/// `AllocError` where there is no memory to read the text.
pub fn goals_in(alloc: Global, bytes: &[u8]) -> Result<Goals, AllocError> {
    let Ok(text) = std::str::from_utf8(bytes) else {
        return Ok(Goals::One(Goal::Script));
    };
    match Value::from_str(alloc, text) {
        Ok(value) => Ok(Goals::One(goal_of(&value))),
        Err(error) if error.is_memory() => Err(AllocError),
        Err(_) => Ok(Goals::One(Goal::Script)),
    }
}

/// As what files are read beside such a value.
fn goal_of(value: &Value) -> Goal {
    match value.get("type") {
        Some(kind) if kind.as_str() == Some("module") => Goal::Module,
        _ => Goal::Script,
    }
}
