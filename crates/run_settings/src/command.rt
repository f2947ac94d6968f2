//! The command line: what it takes, and what was asked.

use crate::settings::Settings;
use crate::values::{INDENTS, LINE_ENDS, TARGETS};
use clap::{Arg, ArgAction, Command, value_parser};
use run_command::Goal;
use std::alloc::{AllocError, Global};

/// The version of the program.
pub const VERSION: &str = "0.6.0";

/// What is done with each file.
#[derive(Clone, Copy, PartialEq, Eq)]
pub enum Task {
    Format,
    Minify,
    Read,
}

/// What becomes of a text that is laid out.
#[derive(Clone, Copy, PartialEq, Eq)]
pub enum Doing {
    /// It is written where it is asked for, else to standard output.
    Print,
    /// It takes the place of the file's.
    Write,
    /// The names of files that would change are written, and there is to be none.
    Check,
    /// The names of files that would change are written.
    List,
    /// How the files would change is written.
    Diff,
}

/// Where a source map is written.
#[derive(Clone, Copy, PartialEq, Eq)]
pub enum MapTo {
    /// To a file beside what is written.
    File,
    /// To the end of what is written.
    Inline,
}

/// When messages have colours.
#[derive(Clone, Copy, PartialEq, Eq)]
pub enum Color {
    Auto,
    Always,
    Never,
}

/// As what a text is read.
#[derive(Clone, Copy, PartialEq, Eq)]
pub enum Goals {
    /// As this.
    One(Goal),
    /// As a module, and as a script where it is none.
    Either,
}

/// What a command line asks for.
#[derive(Drop)]
pub struct Asked {
    pub task: Task,
    pub doing: Doing,
    pub paths: Vec<String>,
    pub stdin_path: Option<String>,
    pub out_file: Option<String>,
    pub out_folder: Option<String>,
    pub suffix: Option<String>,
    pub source_map: Option<MapTo>,
    pub settings: Settings,
    /// Whether comments may be lost.
    pub loses_comments: bool,
    pub color: Color,
    /// Whether messages are JSON, for editors.
    pub is_json: bool,
    pub is_quiet: bool,
    pub prints_config: bool,
}

/// Why a command line asks for nothing.
#[derive(Drop)]
pub enum AskingFault {
    /// It asks for a text: help, or the version.
    Shown(String),
    /// It is refused, by this text.
    Refused(String),
    /// A growth was refused.
    Memory,
}

static COMMENTS: [&str; 1] = ["none"];

static WIDTHS: [&str; 1] = ["0"];

static MAPS: [&str; 2] = ["file", "inline"];

static COLORS: [&str; 3] = ["auto", "always", "never"];

static MESSAGES: [&str; 2] = ["text", "json"];

const FORMAT_EXAMPLES: &str = "Examples:
  delvaram format --check .
  delvaram format --write src
  delvaram format --diff a.js
  delvaram format --stdin-path a.mjs - < a.mjs";

const MINIFY_EXAMPLES: &str = "Examples:
  delvaram minify --suffix .min.js src
  delvaram minify --out-file b.js a.js
  delvaram minify --out-dir out --source-map file src";

const READ_EXAMPLES: &str = "Examples:
  delvaram read .
  delvaram read --message-format json src";

/// An option without a value, off unless it is given.
fn flag<'a>(alloc: Global, name: &'a str, help: &'a str) -> Arg<'a> {
    Arg::new(alloc, name)
        .long(name)
        .help(help)
        .action(ArgAction::SetTrue)
}

/// An option with any value, which `value` names in the help.
fn valued<'a>(alloc: Global, name: &'a str, value: &'a str, help: &'a str) -> Arg<'a> {
    Arg::new(alloc, name)
        .long(name)
        .value_name(value)
        .help(help)
}

/// An option with one of some values.
fn chosen<'a>(
    alloc: Global,
    name: &'a str,
    value: &'a str,
    values: &'a [&'a str],
    help: &'a str,
) -> Arg<'a> {
    valued(alloc, name, value, help).value_parser(values)
}

/// Adds an option that leaves out others, where there is memory for that.
fn with_arg<'a>(
    command: Command<'a>,
    arg: Result<Arg<'a>, AllocError>,
) -> Result<Command<'a>, AllocError> {
    match arg {
        Ok(arg) => command.arg(arg),
        Err(error) => {
            drop(command);
            Err(error)
        }
    }
}

/// Adds as what texts are read.
fn with_goals(alloc: Global, command: Command<'_>) -> Result<Command<'_>, AllocError> {
    let script = flag(alloc, "script", "Read scripts").conflicts_with("module");
    let command = with_arg(command, script)?;
    let command = command.arg(flag(alloc, "module", "Read modules"))?;
    let nesting = valued(
        alloc,
        "nesting",
        "N",
        "How deep a program may nest: 1 to 4096 [default: 256]",
    );
    command.arg(nesting.value_parser(value_parser!(u32).range(1..=4096)))
}

/// Adds how texts are written in either style.
fn with_writing(alloc: Global, command: Command<'_>) -> Result<Command<'_>, AllocError> {
    let command = command.arg(flag(
        alloc,
        "ascii-only",
        "Write escapes for characters past ASCII",
    ))?;
    let command = command.arg(flag(
        alloc,
        "inline-script",
        "Write what may stand in a script element",
    ))?;
    let command = command.arg(chosen(
        alloc,
        "target",
        "EDITION",
        &TARGETS,
        "The edition to write for [default: esnext]",
    ))?;
    command.arg(chosen(
        alloc,
        "comments",
        "WHICH",
        &COMMENTS,
        "none: comments may be lost; they are not kept yet",
    ))
}

/// Adds how messages are written.
fn with_messages(alloc: Global, command: Command<'_>) -> Result<Command<'_>, AllocError> {
    let format = chosen(
        alloc,
        "message-format",
        "FORMAT",
        &MESSAGES,
        "How messages are written [default: text]",
    );
    let command = with_arg(command, format.alias("format"))?;
    let command = command.arg(chosen(
        alloc,
        "color",
        "WHEN",
        &COLORS,
        "When messages have colours [default: auto]",
    ))?;
    command.arg(flag(alloc, "quiet", "Write no summary").short('q'))
}

/// Adds what says which files are meant, and how messages are written.
fn with_common(alloc: Global, command: Command<'_>) -> Result<Command<'_>, AllocError> {
    let command = command.arg(valued(
        alloc,
        "stdin-path",
        "NAME",
        "The name of standard input, by which its settings are found",
    ))?;
    let command = with_messages(alloc, command)?;
    let command = command.arg(flag(
        alloc,
        "print-config",
        "Write the settings that hold for each file, and nothing else",
    ))?;
    let paths = Arg::new(alloc, "PATH").help(
        "Files, folders, names with * and ?, or - for standard input",
    );
    command.arg(paths.num_args(0..).action(ArgAction::Append))
}

/// Adds how formatted texts are laid out.
fn with_layout(alloc: Global, command: Command<'_>) -> Result<Command<'_>, AllocError> {
    let command = command.arg(chosen(
        alloc,
        "indent",
        "STEP",
        &INDENTS,
        "A step of indentation: so many blanks, or a tab [default: 4]",
    ))?;
    let command = command.arg(chosen(
        alloc,
        "line-end",
        "END",
        &LINE_ENDS,
        "What ends a line [default: lf]",
    ))?;
    command.arg(chosen(
        alloc,
        "width",
        "COLUMNS",
        &WIDTHS,
        "0: lines are not broken at a width; no other is there yet",
    ))
}

/// One of the ways to say which texts change, which leaves out the others.
fn way<'a>(
    arg: Arg<'a>,
    one: &'a str,
    other: &'a str,
    third: &'a str,
) -> Result<Arg<'a>, AllocError> {
    arg.conflicts_with(one)?
        .conflicts_with(other)?
        .conflicts_with(third)
}

/// Adds what becomes of formatted texts.
fn with_ways(alloc: Global, command: Command<'_>) -> Result<Command<'_>, AllocError> {
    let write = flag(
        alloc,
        "write",
        "Write each file in its place, where it changes",
    );
    let command = with_arg(command, way(write.short('w'), "check", "list", "diff"))?;
    let check = flag(
        alloc,
        "check",
        "Name the files that would change; the status is 1 where there are any",
    );
    let command = with_arg(command, way(check, "write", "list", "diff"))?;
    let list = flag(alloc, "list", "Name the files that would change").short('l');
    let command = with_arg(command, way(list, "write", "check", "diff"))?;
    let diff = flag(alloc, "diff", "Write how the files would change");
    with_arg(command, way(diff, "write", "check", "list"))
}

/// What leaves out the options that say where each of several files goes.
fn alone(arg: Arg<'_>) -> Result<Arg<'_>, AllocError> {
    arg.conflicts_with("out-dir")?.conflicts_with("suffix")
}

/// Adds where minified texts are written.
fn with_places(alloc: Global, command: Command<'_>) -> Result<Command<'_>, AllocError> {
    let file = valued(alloc, "out-file", "FILE", "Write the one file there").short('o');
    let command = with_arg(command, alone(file))?;
    let command = command.arg(valued(
        alloc,
        "out-dir",
        "FOLDER",
        "Write each file there, under its own path",
    ))?;
    let command = command.arg(valued(
        alloc,
        "suffix",
        "ENDING",
        "Write each file with this ending in place of its own, as .min.js",
    ))?;
    command.arg(chosen(
        alloc,
        "source-map",
        "WHERE",
        &MAPS,
        "Write a source map: to a file beside each, or into it",
    ))
}

/// The command that formats.
fn format<'a>(alloc: Global) -> Result<Command<'a>, AllocError> {
    let command = Command::new(alloc, "format")
        .about("Lays programs out for people")
        .after_help(FORMAT_EXAMPLES);
    let command = with_layout(alloc, with_ways(alloc, command)?)?;
    with_common(alloc, with_goals(alloc, with_writing(alloc, command)?)?)
}

/// The command that minifies.
fn minify<'a>(alloc: Global) -> Result<Command<'a>, AllocError> {
    let command = Command::new(alloc, "minify")
        .about("Writes programs as short as their tokens allow")
        .after_help(MINIFY_EXAMPLES);
    let command = with_places(alloc, command)?;
    with_common(alloc, with_goals(alloc, with_writing(alloc, command)?)?)
}

/// The command that reads.
fn read<'a>(alloc: Global) -> Result<Command<'a>, AllocError> {
    let command = Command::new(alloc, "read")
        .about("Says of each file whether it is a program, and why not")
        .after_help(READ_EXAMPLES);
    with_common(alloc, with_goals(alloc, command)?)
}

/// A command with another below it.
fn with_inner<'a>(
    command: Command<'a>,
    inner: Result<Command<'a>, AllocError>,
) -> Result<Command<'a>, AllocError> {
    match inner {
        Ok(inner) => command.subcommand(inner),
        Err(error) => {
            drop(command);
            Err(error)
        }
    }
}

/// What the program is, but for its commands.
fn program<'a>(alloc: Global) -> Result<Command<'a>, AllocError> {
    let command = Command::new(alloc, "delvaram")
        .version(VERSION)
        .about("Formats, minifies and reads ECMAScript programs")
        .subcommand_required(true);
    command.bin_name("delvaram")
}

/// What the program takes.
pub(crate) fn command<'a>(alloc: Global) -> Result<Command<'a>, AllocError> {
    let command = with_inner(program(alloc)?, format(alloc))?;
    with_inner(with_inner(command, minify(alloc))?, read(alloc))
}
