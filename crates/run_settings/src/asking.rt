//! What the words of a command line ask for.

use crate::command::{Asked, AskingFault, Color, Doing, MapTo, Task, command};
use crate::settings::Settings;
use crate::values::{indent_of, line_end_of, target_of};
use clap::error::ErrorKind;
use clap::{ArgMatches, Error};
use run_command::Goal;
use std::alloc::{AllocError, Global};

/// The words of a command line that has none: the program's name alone.
static NAME_ALONE: [&str; 1] = ["delvaram"];

/// A flag, where it is given.
fn flag(matches: &ArgMatches<'_>, name: &str) -> Option<bool> {
    if matches.get_flag(name) {
        Some(true)
    } else {
        None
    }
}

/// As what texts are to be read, where that is said.
fn goal(matches: &ArgMatches<'_>) -> Option<Goal> {
    if matches.get_flag("script") {
        Some(Goal::Script)
    } else if matches.get_flag("module") {
        Some(Goal::Module)
    } else {
        None
    }
}

/// The settings that the words say.
fn settings(matches: &ArgMatches<'_>) -> Settings {
    Settings {
        goal: goal(matches),
        target: matches.get_str("target").and_then(target_of),
        ascii_only: flag(matches, "ascii-only"),
        inline_script: flag(matches, "inline-script"),
        line_end: matches.get_str("line-end").and_then(line_end_of),
        indent: matches.get_str("indent").and_then(indent_of),
        nesting: matches.get_one::<u32>("nesting"),
    }
}

/// What becomes of a text.
fn doing(matches: &ArgMatches<'_>) -> Doing {
    if matches.get_flag("write") {
        Doing::Write
    } else if matches.get_flag("check") {
        Doing::Check
    } else if matches.get_flag("list") {
        Doing::List
    } else if matches.get_flag("diff") {
        Doing::Diff
    } else {
        Doing::Print
    }
}

/// When messages have colours.
fn color(matches: &ArgMatches<'_>) -> Color {
    match matches.get_str("color") {
        Some("always") => Color::Always,
        Some("never") => Color::Never,
        _ => Color::Auto,
    }
}

/// Where a source map is written, where one is.
fn source_map(matches: &ArgMatches<'_>) -> Option<MapTo> {
    match matches.get_str("source-map") {
        Some("file") => Some(MapTo::File),
        Some("inline") => Some(MapTo::Inline),
        _ => None,
    }
}

/// The value of an option, where it is given.
fn value(
    alloc: Global,
    matches: &ArgMatches<'_>,
    name: &str,
) -> Result<Option<String>, AllocError> {
    match matches.get_str(name) {
        Some(text) => Ok(Some(String::from_str(alloc, text)?)),
        None => Ok(None),
    }
}

/// The paths.
fn paths(alloc: Global, matches: &ArgMatches<'_>) -> Result<Vec<String>, AllocError> {
    let mut paths = Vec::new(alloc);
    if let Some(words) = matches.get_strs("PATH") {
        for word in words {
            paths.push(String::from_str(alloc, word)?)?;
        }
    }
    Ok(paths)
}

/// What the words of a command ask for.
fn asked_of(alloc: Global, task: Task, matches: &ArgMatches<'_>) -> Result<Asked, AllocError> {
    Ok(Asked {
        task,
        doing: doing(matches),
        paths: paths(alloc, matches)?,
        stdin_path: value(alloc, matches, "stdin-path")?,
        out_file: value(alloc, matches, "out-file")?,
        out_folder: value(alloc, matches, "out-dir")?,
        suffix: value(alloc, matches, "suffix")?,
        source_map: source_map(matches),
        settings: settings(matches),
        loses_comments: matches.get_str("comments").is_some(),
        color: color(matches),
        is_json: matches.get_str("message-format") == Some("json"),
        is_quiet: matches.get_flag("quiet"),
        prints_config: matches.get_flag("print-config"),
    })
}

/// The task of a command.
fn task_of(name: &str) -> Task {
    match name {
        "format" => Task::Format,
        "minify" => Task::Minify,
        _ => Task::Read,
    }
}

/// Whether each file is written to a place that its own path says.
fn has_own_place(asked: &Asked) -> bool {
    asked.out_folder.is_some() || asked.suffix.is_some()
}

/// What words that clap takes lack, where they lack something.
fn lacking(asked: &Asked) -> Option<&'static str> {
    let reads_input = asked.paths.iter().any(|path| path.as_str() == "-");
    if asked.paths.is_empty() {
        Some("no files: name files or folders, or - for standard input")
    } else if reads_input && asked.paths.len() > 1 {
        Some("standard input can't be read beside files")
    } else if reads_input && (asked.doing == Doing::Write || has_own_place(asked)) {
        Some("standard input has no file to write to")
    } else if asked.stdin_path.is_some() && !reads_input {
        Some("--stdin-path is for standard input, and no path is -")
    } else if asked.source_map == Some(MapTo::File)
        && asked.out_file.is_none()
        && !has_own_place(asked)
    {
        Some("--source-map file is for what is written to a file")
    } else {
        None
    }
}

/// What clap finds in the words.
fn matches_in<'a>(alloc: Global, words: &'a [String]) -> Result<ArgMatches<'a>, Error> {
    let command = command(alloc)?;
    if words.is_empty() {
        command.try_get_matches_from(NAME_ALONE.as_slice())
    } else {
        command.try_get_matches_from(words)
    }
}

/// What an error of clap is told as.
fn fault_of(alloc: Global, error: &Error) -> AskingFault {
    if error.kind() == ErrorKind::OutOfMemory {
        return AskingFault::Memory;
    }
    match error.to_string(alloc) {
        Err(_) => AskingFault::Memory,
        Ok(text) if error.use_stderr() => AskingFault::Refused(text),
        Ok(text) => AskingFault::Shown(text),
    }
}

/// What the words that clap took ask for.
fn asked_in(alloc: Global, matches: &ArgMatches<'_>) -> Result<Asked, AllocError> {
    match matches.subcommand() {
        Some((name, inner)) => asked_of(alloc, task_of(name), inner),
        None => asked_of(alloc, Task::Read, matches),
    }
}

/// What is told of words that lack something.
fn refusal(alloc: Global, what: &str) -> AskingFault {
    match format!(in alloc; "error: {what}\n\nFor more information, try '--help'.\n") {
        Ok(text) => AskingFault::Refused(text),
        Err(_) => AskingFault::Memory,
    }
}

/// What the words that clap took ask for, where they lack nothing.
fn whole(alloc: Global, matches: &ArgMatches<'_>) -> Result<Asked, AskingFault> {
    match asked_in(alloc, matches) {
        Ok(asked) => match lacking(&asked) {
            None => Ok(asked),
            Some(what) => Err(refusal(alloc, what)),
        },
        Err(_) => Err(AskingFault::Memory),
    }
}

/// Reads a command line, of which the first word is the program's name.
///
/// # Errors
///
/// `Shown` where it asks for help or the version, `Refused` where the words are not those of the program, or lack something, and
/// `Memory`.
pub fn asked(alloc: Global, words: &[String]) -> Result<Asked, AskingFault> {
    match matches_in(alloc, words) {
        Ok(matches) => {
            let asked = whole(alloc, &matches);
            drop(matches);
            asked
        }
        Err(error) => {
            let fault = fault_of(alloc, &error);
            drop(error);
            Err(fault)
        }
    }
}
