//! What the words of a command line ask for.

use base_token::{EsSyntax, Syntax};
use run_command::{CliFault, Goal, Invocation, Options, Style, invocation};
use std::alloc::{AllocError, Global};
use std::fmt::Write;
use test_answers::Answer;

/// The words of a command line, the program's name first.
fn command_line(alloc: Global, words: &str) -> Result<Vec<String>, AllocError> {
    let mut line = Vec::new(alloc);
    line.push(String::from_str(alloc, "ecma-front")?)?;
    for word in words.split(' ') {
        if !word.is_empty() {
            line.push(String::from_str(alloc, word)?)?;
        }
    }
    Ok(line)
}

/// The goal and the style that words ask for.
fn goal_and_style(options: Options) -> &'static str {
    match (options.goal, options.style) {
        (Goal::Module, Style::Format) => "module, format",
        (Goal::Script, Style::Format) => "script, format",
        (Goal::Module, Style::Minify) => "module, minify",
        (Goal::Script, Style::Minify) => "script, minify",
    }
}

/// What else they ask for: the settings that aren't those of a program that is asked for nothing.
fn others(alloc: Global, options: Options) -> anyhow::Result<String> {
    let usual = Options::default();
    let mut told = String::new(alloc);
    if options.target != usual.target {
        write!(told, "{:?} ", options.target)?;
    }
    if options.ascii_only {
        told.push_str("ascii ")?;
    }
    if options.inline_script {
        told.push_str("inline ")?;
    }
    if options.line_end != usual.line_end {
        write!(told, "{:?} ", options.line_end)?;
    }
    if options.indent != usual.indent {
        write!(told, "{:?} ", options.indent)?;
    }
    if options.nesting != usual.nesting {
        write!(told, "{} deep ", options.nesting)?;
    }
    Ok(told)
}

/// Whether import attributes and `using` are on, and nothing else of the syntax.
fn is_usual(options: Options) -> bool {
    let syntax = EsSyntax {
        import_attributes: true,
        explicit_resource_management: true,
        ..EsSyntax::default()
    };
    options.syntax == Syntax::Es(syntax)
}

/// Tells of settings and path.
fn tell(asked: &Invocation, answer: &mut Answer) -> anyhow::Result<()> {
    if !is_usual(asked.options) || asked.options.positions {
        return Err(anyhow::Error::msg("another syntax, or positions"));
    }
    answer.say(goal_and_style(asked.options))?;
    let others = others(answer.alloc(), asked.options)?;
    if !others.is_empty() {
        answer.say(others.trim_end())?;
    }
    match &asked.path {
        Some(path) => Ok(answer.say(format_args!("<{path}>"))?),
        None => Ok(()),
    }
}

/// What words ask for: goal and style, other settings, and path; or that they are refused.
pub fn words(words: &str, answer: &mut Answer) -> anyhow::Result<()> {
    let alloc = answer.alloc();
    match invocation(alloc, command_line(alloc, words)?) {
        Ok(asked) => tell(&asked, answer),
        Err(CliFault::Refused(_)) => Ok(answer.say("refused")?),
        Err(CliFault::Memory) => Err(anyhow::Error::msg("out of memory")),
    }
}
