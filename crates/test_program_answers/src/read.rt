//! Texts as the parser reads them: their trees and early errors, where they are refused, and whether two are the same program.

use crate::places::give_places;
use base_token::{Error, EsSyntax, Syntax};
use ecma_front::{PResult, Parser};
use ecma_lexer::Lexer;
use std::alloc::Global;
use test_answers::{Answer, Question};
use tree_nodes::{Program, ProgramKind};
use tree_outline::outline;
use tree_same::same_program;

/// As what a text is read.
#[derive(Clone, Copy, Debug)]
pub struct Reading {
    /// Whether it is a script, and no module.
    pub script: bool,
    /// The optional parts of the language.
    pub syntax: Syntax,
    /// How deep it may nest.
    pub nesting: u32,
}

/// As what a question's text is read: a script where it doesn't say `module`, nested 1,024 deep at most where it has no limit.
pub fn reading_of(question: &Question<'_>) -> Reading {
    Reading {
        script: !question.has("module"),
        syntax: Syntax::Es(EsSyntax {
            import_attributes: question.has("attributes"),
            explicit_resource_management: question.has("using"),
            auto_accessors: question.has("accessors"),
            decorators: question.has("decorators"),
            ..EsSyntax::default()
        }),
        nesting: question.number("nesting").unwrap_or(1024),
    }
}

/// The program in front of a parser.
pub fn program<'a>(parser: &mut Parser<'a, Lexer<'a>>, script: bool) -> PResult<Program> {
    let kind = if script {
        ProgramKind::Script(parser.parse_script()?)
    } else {
        ProgramKind::Module(parser.parse_module()?)
    };
    Ok(Program { kind })
}

/// A parser at the start of a text.
pub fn parser<'a>(
    alloc: Global,
    text: &'a str,
    reading: Reading,
) -> anyhow::Result<Parser<'a, Lexer<'a>>> {
    if text.len() > 20_000_000 {
        return Err(anyhow::Error::msg("too long"));
    }
    let mut parser: Parser<'_, Lexer<'_>> = Parser::new(alloc, reading.syntax, text);
    parser.set_nesting(reading.nesting);
    Ok(parser)
}

/// What is read: a tree and its early errors, or the fault that ended the reading.
pub fn read(
    alloc: Global,
    text: &str,
    reading: Reading,
) -> anyhow::Result<Result<(Program, Vec<Error>), Error>> {
    let mut parser = parser(alloc, text, reading)?;
    match program(&mut parser, reading.script) {
        Ok(program) => Ok(Ok((program, parser.take_errors()))),
        Err(error) => Ok(Err(error)),
    }
}

/// Tells that a text is refused: the kind of the fault, and its place.
pub fn refuse(error: &Error, answer: &mut Answer) -> anyhow::Result<()> {
    answer.say("refused")?;
    answer.say(format_args!("{:?}", error.kind))?;
    answer.say(error.span.lo.0)?;
    Ok(answer.say(error.span.hi.0)?)
}

/// Tells early errors with their places.
pub fn tell_faults(faults: &[Error], answer: &mut Answer) -> anyhow::Result<()> {
    for fault in faults {
        answer.say(format_args!("{:?} {}..{}", fault.kind, fault.span.lo.0, fault.span.hi.0))?;
    }
    Ok(())
}

/// The tree of a text where that is asked for, with `placed` as the walk that changes a tree gives places, and its early errors; or why it is
/// refused.
pub fn tell(question: &Question<'_>, answer: &mut Answer) -> anyhow::Result<()> {
    let alloc = answer.alloc();
    match read(alloc, question.text(0), reading_of(question))? {
        Ok((mut program, faults)) => {
            answer.say("read")?;
            if question.has("placed") {
                give_places(&mut program);
            }
            if question.has("tree") {
                answer.say(outline(alloc, &program)?.as_str())?;
            } else {
                answer.say("")?;
            }
            tell_faults(faults.as_slice(), answer)
        }
        Err(error) => refuse(&error, answer),
    }
}

/// The program that a text is. Its early errors don't matter.
pub fn program_of(alloc: Global, text: &str, reading: Reading) -> anyhow::Result<Program> {
    match read(alloc, text, reading)? {
        Ok((program, _)) => Ok(program),
        Err(_) => Err(anyhow::Error::msg("a text is no program")),
    }
}

/// Whether two texts are the same program.
pub fn tell_same(question: &Question<'_>, answer: &mut Answer) -> anyhow::Result<()> {
    let (alloc, reading) = (answer.alloc(), reading_of(question));
    let left = program_of(alloc, question.text(0), reading)?;
    let right = program_of(alloc, question.text(1), reading)?;
    let is_same = same_program(&left, &right);
    Ok(answer.say(if is_same { "same" } else { "other" })?)
}
