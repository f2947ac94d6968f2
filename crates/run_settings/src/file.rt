//! The settings file, `delvaram.json`.

use crate::keys::{key_at, place_in};
use crate::settings::Settings;
use crate::values::{blanks_of, goal_of, indent_of, line_end_of, nesting_of, target_of};
use run_command::Indent;
use serde_json::{Error, Value};
use std::alloc::{AllocError, Global};

/// Why a settings file says nothing.
#[derive(Drop)]
pub enum SettingsFault {
    /// What is wrong, and where: the line and the column from 1.
    Wrong {
        line: u64,
        column: u64,
        message: String,
    },
    /// A growth was refused.
    Memory,
}

impl From<AllocError> for SettingsFault {
    fn from(_: AllocError) -> SettingsFault {
        SettingsFault::Memory
    }
}

/// What is wrong, at a line and a column.
fn wrong_at(alloc: Global, line: u64, column: u64, message: &str) -> SettingsFault {
    match String::from_str(alloc, message) {
        Ok(message) => SettingsFault::Wrong {
            line,
            column,
            message,
        },
        Err(_) => SettingsFault::Memory,
    }
}

/// What is wrong at a place of a text.
fn wrong(alloc: Global, text: &str, at: usize, message: &str) -> SettingsFault {
    let (line, column) = place_in(text, at);
    wrong_at(alloc, line, column, message)
}

/// A step of indentation: a number of blanks, or a word.
fn indent(value: &Value) -> Option<Indent> {
    match value.as_str() {
        Some("tab") => indent_of("tab"),
        Some(_) => None,
        None => value.as_u64().and_then(blanks_of),
    }
}

/// The settings with one more, by its key; nothing where the value is none that it takes.
fn with(settings: Settings, key: &str, value: &Value) -> Option<Settings> {
    let text = value.as_str();
    let mut with = settings;
    match key {
        "goal" => with.goal = Some(text.and_then(goal_of)?),
        "target" => with.target = Some(text.and_then(target_of)?),
        "lineEnd" => with.line_end = Some(text.and_then(line_end_of)?),
        "indent" => with.indent = Some(indent(value)?),
        "asciiOnly" => with.ascii_only = Some(value.as_bool()?),
        "inlineScript" => with.inline_script = Some(value.as_bool()?),
        "nesting" => with.nesting = Some(value.as_u64().and_then(nesting_of)?),
        _ => {}
    }
    Some(with)
}

/// What a setting takes, by its key; nothing where there is none of that name.
fn wanted(key: &str) -> Option<&'static str> {
    match key {
        "$schema" => Some("a path"),
        "goal" => Some("\"script\" or \"module\""),
        "target" => Some("\"es2015\" to \"es2022\" or \"esnext\""),
        "lineEnd" => Some("\"lf\" or \"crlf\""),
        "indent" => Some("a number from 0 to 8 or \"tab\""),
        "asciiOnly" | "inlineScript" => Some("true or false"),
        "nesting" => Some("a number from 1 to 4096"),
        _ => None,
    }
}

/// The settings with one more.
fn take(
    alloc: Global,
    text: &str,
    settings: Settings,
    key: &str,
    value: &Value,
) -> Result<Settings, SettingsFault> {
    let Some(wanted) = wanted(key) else {
        let message = format!(in alloc; "unknown setting \"{key}\"")?;
        return Err(wrong(alloc, text, key_at(text, key), message.as_str()));
    };
    match with(settings, key, value) {
        Some(settings) => Ok(settings),
        None => {
            let message = format!(in alloc; "\"{key}\" is to be {wanted}")?;
            Err(wrong(alloc, text, key_at(text, key), message.as_str()))
        }
    }
}

/// What is said of an error of JSON, without its place.
fn before_place(text: &str) -> &str {
    match text.split_once(" at line ") {
        Some((message, _)) => message,
        None => text,
    }
}

/// What an error of JSON is told as.
fn told(alloc: Global, error: &Error) -> SettingsFault {
    if error.is_memory() {
        return SettingsFault::Memory;
    }
    let line = (error.line() as u64).max(1);
    let column = (error.column() as u64).max(1);
    match error.to_string(alloc) {
        Ok(text) => wrong_at(alloc, line, column, before_place(text.as_str())),
        Err(_) => SettingsFault::Memory,
    }
}

/// Reads the text of a settings file: an object of settings by their names.
///
/// # Errors
///
/// `Wrong` where it is none, has an unknown key, or a value that a key doesn't take, with the place; and `Memory`.
pub fn settings_in(alloc: Global, bytes: &[u8]) -> Result<Settings, SettingsFault> {
    let Ok(text) = std::str::from_utf8(bytes) else {
        return Err(wrong(alloc, "", 0, "the text is not UTF-8"));
    };
    let value = match Value::from_str(alloc, text) {
        Ok(value) => value,
        Err(error) => return Err(told(alloc, &error)),
    };
    let Some(members) = value.as_object() else {
        return Err(wrong(alloc, "", 0, "the settings are to be an object"));
    };
    let mut settings = Settings::NONE;
    for (key, value) in members {
        settings = take(alloc, text, settings, key.as_str(), value)?;
    }
    Ok(settings)
}
