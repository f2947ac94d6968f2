//! Parts of programs: expressions, patterns, parameters, keys, statements and items.

use crate::read::{parser, reading_of, refuse, tell_faults};
use base_token::Error;
use ecma_front::{PResult, Parser};
use ecma_lexer::Lexer;
use std::alloc::Global;
use test_answers::{Answer, Question};
use tree_nodes::{Program, ProgramKind};
use tree_outline::{outline, outline_part};
use tree_visit::Walk;

/// The outline of what an entry answered.
fn shown<T: Walk + Drop>(alloc: Global, part: PResult<T>) -> anyhow::Result<Result<String, Error>> {
    match part {
        Ok(part) => Ok(Ok(outline_part(alloc, &part)?)),
        Err(error) => Ok(Err(error)),
    }
}

/// The outline of a part of the kind that a question says.
fn part<'a>(
    question: &Question<'_>,
    alloc: Global,
    parser: &mut Parser<'a, Lexer<'a>>,
) -> anyhow::Result<Result<String, Error>> {
    let top_level = question.has("top");
    match question.setting.split(' ').nth(1).unwrap_or_default() {
        "expr" => shown(alloc, parser.parse_expr()),
        "assignment" => shown(alloc, parser.parse_assignment_expr()),
        "pat" => shown(alloc, parser.parse_pat()),
        "binding" => shown(alloc, parser.parse_binding_pat_or_ident()),
        "params" => shown(alloc, parser.parse_formal_params()),
        "key" => shown(alloc, parser.parse_prop_name()),
        "stmt" => shown(alloc, parser.parse_stmt(top_level)),
        "item" => shown(alloc, parser.parse_stmt_list_item(top_level)),
        "module_item" => shown(alloc, parser.parse_module_item()),
        _ => Err(anyhow::Error::msg("no such part")),
    }
}

/// Tells the outline of the program that stands behind a part.
fn tell_program(alloc: Global, program: &Program, answer: &mut Answer) -> anyhow::Result<()> {
    Ok(answer.say(outline(alloc, program)?.as_str())?)
}

/// Tells the outline of what stands behind a part, as a script: nothing at the end, and `none` where it is no script.
fn tell_rest<'a>(
    alloc: Global,
    parser: &mut Parser<'a, Lexer<'a>>,
    answer: &mut Answer,
) -> anyhow::Result<()> {
    match parser.parse_script() {
        Ok(script) if script.body.is_empty() => Ok(answer.say("")?),
        Ok(script) => {
            let kind = ProgramKind::Script(script);
            tell_program(alloc, &Program { kind }, answer)
        }
        Err(_) => Ok(answer.say("none")?),
    }
}

/// The same as a module, with the kind and the place of the fault where it is none.
fn tell_module<'a>(
    alloc: Global,
    parser: &mut Parser<'a, Lexer<'a>>,
    answer: &mut Answer,
) -> anyhow::Result<()> {
    match parser.parse_module() {
        Ok(module) if module.body.is_empty() => Ok(answer.say("")?),
        Ok(module) => {
            let kind = ProgramKind::Module(module);
            tell_program(alloc, &Program { kind }, answer)
        }
        Err(error) => Ok(answer.say(format_args!("refused {:?} {}", error.kind, error.span.lo.0))?),
    }
}

/// The outline of the part at the front of a text, that of what stands behind it, read by the same parser, and the part's early errors; or why it is refused.
pub fn tell(question: &Question<'_>, answer: &mut Answer) -> anyhow::Result<()> {
    let alloc = answer.alloc();
    let mut parser = parser(alloc, question.text(0), reading_of(question))?;
    match part(question, alloc, &mut parser)? {
        Ok(outline) => {
            let faults = parser.take_errors();
            answer.say("read")?;
            answer.say(outline.as_str())?;
            if question.has("module") {
                tell_module(alloc, &mut parser, answer)?;
            } else {
                tell_rest(alloc, &mut parser, answer)?;
            }
            tell_faults(faults.as_slice(), answer)
        }
        Err(error) => refuse(&error, answer),
    }
}
