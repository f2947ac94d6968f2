//! The program's command line.
ghost use Rattle.std.specs.Prelude.{◌≡◌, [], true, false, map, option_map, IfErr, IfOk, OnOk, codes, string_bytes};
ghost use Rattle.clap.specs.Words.{app_of, first_of, found_of, kind_of, new_rule, one_of, rows_of, rule_of};
ghost use Rattle.run_command.specs.Command.{Asks, SetsFlag, SetsGoal, SetsIndent, SetsLineEnd, SetsNesting, SetsStyle, SetsTarget};
ghost use Rattle.run_command.specs.Command.{are_listed, are_taken, faults_in, flag, found_in, program, program_syntax, valued};

use crate::options::{Goal, LineEnd, Options, Style};
use crate::request::{CliFault, Invocation};
use crate::values::{indent, nesting, target};
use base_token::{EsSyntax, Syntax};
use clap::error::ErrorKind;
use clap::{Arg, ArgAction, ArgMatches, Command, Error};
use std::alloc::{AllocError, Global};

/// The words of a command line that has none: the program's name alone.
static NAME_ALONE: [&str; 1] = ["ecma-front"];

/// An option without a value, off unless it is given.
fn flag<'a>(alloc: Global, name: &'a str, help: &'a str) -> Arg<'a>
    ensures rule { rule_of result ≡ flag name.entry.now }
    ensures local { result.global ≡ false }
{
    Arg::new(alloc, name)
        .long(name)
        .help(help)
        .action(ArgAction::SetTrue)
}

/// An option with a value, which `value` names in the help.
fn valued<'a>(alloc: Global, name: &'a str, value: &'a str, help: &'a str) -> Arg<'a>
    ensures rule { rule_of result ≡ valued name.entry.now }
    ensures local { result.global ≡ false }
{
    Arg::new(alloc, name)
        .long(name)
        .value_name(value)
        .help(help)
}

/// The file to read.
fn path<'a>(alloc: Global) -> Arg<'a>
    ensures rule { rule_of result ≡ new_rule (codes "PATH") }
    ensures local { result.global ≡ false }
{
    Arg::new(alloc, "PATH").help("The file to read; without it, standard input")
}

/// The edition that the output is written for.
fn target_option<'a>(alloc: Global) -> Arg<'a>
    ensures rule { rule_of result ≡ valued (codes "target") }
    ensures local { result.global ≡ false }
{
    let help = "The edition to write for: es2015 to es2022, or esnext [default: esnext]";
    valued(alloc, "target", "TARGET", help)
}

/// The step of indentation.
fn indent_option<'a>(alloc: Global) -> Arg<'a>
    ensures rule { rule_of result ≡ valued (codes "indent") }
    ensures local { result.global ≡ false }
{
    let help = "A step of indentation: 0 to 8 blanks, or tab [default: 4]";
    valued(alloc, "indent", "INDENT", help)
}

/// How deep the tree may nest.
fn nesting_option<'a>(alloc: Global) -> Arg<'a>
    ensures rule { rule_of result ≡ valued (codes "nesting") }
    ensures local { result.global ≡ false }
{
    let help = "How deep the program may nest: 1 to 4096 [default: 256]";
    valued(alloc, "nesting", "N", help)
}

/// What the program takes.
fn command<'a>(alloc: Global) -> Result<Command<'a>, AllocError>
    ensures { IfOk result (λ command. app_of command ≡ program) }
{
    let script = flag(alloc, "script", "Read a script; without it, a module");
    let minify = flag(alloc, "minify", "Write as little as the program needs");
    let ascii = flag(
        alloc,
        "ascii-only",
        "Write escapes for characters past ASCII",
    );
    let inline = flag(
        alloc,
        "inline-script",
        "Write what may stand in a script element",
    );
    let crlf = flag(alloc, "crlf", "End lines by CR and LF; without it, by LF");
    Command::new(alloc, "ecma-front")
        .bin_name("ecma-front")?
        .about("Formats or minifies an ECMAScript program")
        .arg(script)?
        .arg(minify)?
        .arg(target_option(alloc))?
        .arg(ascii)?
        .arg(inline)?
        .arg(crlf)?
        .arg(indent_option(alloc))?
        .arg(nesting_option(alloc))?
        .arg(path(alloc))
}

/// Whether a flag is given.
fn is_on(matches: &ArgMatches<'_>, name: &str) -> bool
    ensures { SetsFlag (one_of name.now (rows_of (found_of matches.now))) result }
{
    matches.get_flag(name)
}

/// The value of an option or of the path, where it is given.
fn value<'a>(matches: &ArgMatches<'a>, name: &str) -> Option<&'a str>
    ensures { option_map (λ s. s.now) result ≡ first_of name.now (rows_of (found_of matches.now)) }
{
    matches.get_str(name)
}

/// What the text is read as.
fn goal(matches: &ArgMatches<'_>) -> Goal
    ensures { SetsGoal (one_of (codes "script") (rows_of (found_of matches.now))) result }
{
    if is_on(matches, "script") {
        Goal::Script
    } else {
        Goal::Module
    }
}

/// How the program is laid out.
fn style(matches: &ArgMatches<'_>) -> Style
    ensures { SetsStyle (one_of (codes "minify") (rows_of (found_of matches.now))) result }
{
    if is_on(matches, "minify") {
        Style::Minify
    } else {
        Style::Format
    }
}

/// What ends a line.
fn line_end(matches: &ArgMatches<'_>) -> LineEnd
    ensures { SetsLineEnd (one_of (codes "crlf") (rows_of (found_of matches.now))) result }
{
    if is_on(matches, "crlf") {
        LineEnd::CrLf
    } else {
        LineEnd::Lf
    }
}

/// The settings that the words ask for. Import attributes and `using` are read.
fn options_of(alloc: Global, matches: &ArgMatches<'_>) -> Result<Options, CliFault>
    ensures asked { IfOk result (Asks (rows_of (found_of matches.now))) }
    ensures refused { IfErr result (λ fault. are_listed (rows_of (found_of matches.now)) ≡ true → fault ≡ CliFault.Memory) }
{
    let syntax = EsSyntax {
        import_attributes: true,
        explicit_resource_management: true,
        ..EsSyntax::default()
    };
    Ok(Options {
        goal: goal(matches),
        style: style(matches),
        target: target(alloc, value(matches, "target"))?,
        ascii_only: is_on(matches, "ascii-only"),
        inline_script: is_on(matches, "inline-script"),
        line_end: line_end(matches),
        indent: indent(alloc, value(matches, "indent"))?,
        nesting: nesting(alloc, value(matches, "nesting"))?,
        syntax: Syntax::Es(syntax),
        positions: false,
    })
}

/// What the words ask for, where clap takes them.
fn asked(alloc: Global, matches: &ArgMatches<'_>) -> Result<Invocation, CliFault>
    ensures asked { IfOk result (λ asked. Asks (rows_of (found_of matches.now)) asked.options) }
    ensures path { IfOk result (λ asked. option_map string_bytes asked.path ≡ first_of (codes "PATH") (rows_of (found_of matches.now))) }
    ensures refused { IfErr result (λ fault. are_listed (rows_of (found_of matches.now)) ≡ true → fault ≡ CliFault.Memory) }
{
    let options = options_of(alloc, matches)?;
    let path = match value(matches, "PATH") {
        Some(path) => Some(String::from_str(alloc, path)?),
        None => None,
    };
    Ok(Invocation { options, path })
}

/// What clap finds in the words of a command line.
fn matches_in<'a>(alloc: Global, words: &'a [String]) -> Result<ArgMatches<'a>, Error>
    ensures found { IfOk result (λ matches. rows_of (found_of matches) ≡ found_in (map string_bytes words.now)) }
    ensures taken { OnOk result (faults_in (map string_bytes words.now) ≡ []) }
    ensures passes { IfErr result (λ error. are_taken (map string_bytes words.now) ≡ true → kind_of error ≡ ErrorKind.OutOfMemory) }
{
    let command = command(alloc)?;
    if words.is_empty() {
        command.try_get_matches_from(NAME_ALONE.as_slice())
    } else {
        command.try_get_matches_from(words)
    }
}

/// Reads a command line, of which the first word is the program's name. One without words is read as
/// the name alone.
///
/// # Errors
///
/// `Refused` with the text to show, where the words are not those of the program or ask for help, or
/// where the value of an option is none of those that it takes; `Memory` where a growth was refused.
pub fn invocation(alloc: Global, words: Vec<String>) -> Result<Invocation, CliFault>
    ensures goal { IfOk result (λ asked. SetsGoal (one_of (codes "script") (found_in (map string_bytes words.items))) asked.options.goal) }
    ensures style { IfOk result (λ asked. SetsStyle (one_of (codes "minify") (found_in (map string_bytes words.items))) asked.options.style) }
    ensures target { IfOk result (λ asked. SetsTarget (first_of (codes "target") (found_in (map string_bytes words.items))) asked.options.target) }
    ensures ascii_only { IfOk result (λ asked. SetsFlag (one_of (codes "ascii-only") (found_in (map string_bytes words.items))) asked.options.ascii_only) }
    ensures inline_script { IfOk result (λ asked. SetsFlag (one_of (codes "inline-script") (found_in (map string_bytes words.items))) asked.options.inline_script) }
    ensures line_end { IfOk result (λ asked. SetsLineEnd (one_of (codes "crlf") (found_in (map string_bytes words.items))) asked.options.line_end) }
    ensures indent { IfOk result (λ asked. SetsIndent (first_of (codes "indent") (found_in (map string_bytes words.items))) asked.options.indent) }
    ensures nesting { IfOk result (λ asked. SetsNesting (first_of (codes "nesting") (found_in (map string_bytes words.items))) asked.options.nesting) }
    ensures syntax { IfOk result (λ asked. asked.options.syntax ≡ program_syntax) }
    ensures positions { IfOk result (λ asked. asked.options.positions ≡ false) }
    ensures path { IfOk result (λ asked. option_map string_bytes asked.path ≡ first_of (codes "PATH") (found_in (map string_bytes words.items))) }
    ensures taken { OnOk result (faults_in (map string_bytes words.items) ≡ []) }
    ensures refused { IfErr result (λ fault. are_taken (map string_bytes words.items) ≡ true → are_listed (found_in (map string_bytes words.items)) ≡ true → fault ≡ CliFault.Memory) }
{
    match matches_in(alloc, words.as_slice()) {
        Ok(matches) => asked(alloc, &matches),
        Err(error) if error.kind() == ErrorKind::OutOfMemory => Err(CliFault::Memory),
        Err(error) => Err(CliFault::Refused(error.to_string(alloc)?)),
    }
}
