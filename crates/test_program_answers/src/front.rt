//! What `ecma_front` answers that no command line says.

use crate::print::tell_marks;
use ecma_front::memory::{Interrupts, MemReader, MemWriter, Zeros};
use ecma_front::{
    CountedRead, CountedWrite, EsSyntax, EsVersion, Failing, Fault, Goal, Indent, Options,
    Positions, Style, Syntax, place, read, run_kept,
};
use std::alloc::Global;
use std::io::ErrorKind;
use test_answers::{Answer, Question};
use tree_nodes::ProgramKind;

/// How a run ended.
type Ended = Result<Option<Positions>, Fault>;

/// The optional parts of the language that a question's text may have.
fn syntax(question: &Question<'_>) -> EsSyntax {
    let has_all = question.has("all");
    EsSyntax {
        jsx: question.has("jsx"),
        fn_bind: has_all,
        decorators: has_all,
        decorators_before_export: has_all,
        export_default_from: has_all,
        import_attributes: has_all || question.has("attributes"),
        allow_super_outside_method: has_all,
        allow_return_outside_function: has_all,
        auto_accessors: has_all,
        explicit_resource_management: has_all || question.has("using"),
    }
}

/// One step of the indentation, by a number of blanks or of tabs.
fn indent(question: &Question<'_>) -> Indent {
    let width = question.number("blanks").or(question.number("tabs"));
    let width = width.unwrap_or(4).min(255) as u8;
    if question.number("tabs").is_some() {
        Indent::Tabs(width)
    } else {
        Indent::Blanks(width)
    }
}

/// The settings that a question asks for: those for minifying a script, 256 deep, where it doesn't say otherwise.
fn options(question: &Question<'_>) -> Options {
    Options {
        goal: if question.has("module") {
            Goal::Module
        } else {
            Goal::Script
        },
        style: if question.has("format") {
            Style::Format
        } else {
            Style::Minify
        },
        target: if question.has("es3") {
            EsVersion::Es3
        } else {
            EsVersion::EsNext
        },
        indent: indent(question),
        syntax: Syntax::Es(syntax(question)),
        nesting: question.number("nesting").unwrap_or(256),
        positions: question.has("positions"),
        ..Options::default()
    }
}

/// The program that a text is read as, by its goal and how many parts stand in its body; or why it has none.
pub fn tell(question: &Question<'_>, answer: &mut Answer) -> anyhow::Result<()> {
    match read(answer.alloc(), question.text(0), options(question)) {
        Ok(program) => {
            answer.say("read")?;
            match &program.kind {
                ProgramKind::Script(script) => {
                    Ok(answer.say(format_args!("script of {}", script.body.len()))?)
                }
                ProgramKind::Module(module) => {
                    Ok(answer.say(format_args!("module of {}", module.body.len()))?)
                }
            }
        }
        Err(Fault::Syntax(error)) => crate::read::refuse(&error, answer),
        Err(fault) => {
            answer.say("fault")?;
            Ok(answer.say(fault)?)
        }
    }
}

/// What a run leaves: the output, what was kept of the input, and how it ended.
#[derive(Drop)]
struct Left {
    writer: MemWriter,
    kept: Vec<u8>,
    ended: Ended,
}

/// A run: what it kept of the input, and how it ended.
fn kept_of<R: CountedRead, W: CountedWrite>(
    alloc: Global,
    reader: &mut R,
    writer: &mut W,
    options: Options,
) -> (Vec<u8>, Ended) {
    let mut kept = Vec::new(alloc);
    let ended = run_kept(alloc, reader, writer, options, &mut kept);
    (kept, ended)
}

/// A run to a writer that fails where the question says, with `zeros` by taking nothing.
fn run_to<R: CountedRead>(
    question: &Question<'_>,
    alloc: Global,
    reader: &mut R,
) -> anyhow::Result<Left> {
    let piece = question.number("written").unwrap_or(64).max(1) as usize;
    let room = question.number("room").unwrap_or(65_536) as usize;
    let mut writer = MemWriter::new(alloc, room, piece, question.number("write_fails"))?;
    if question.has("zeros") {
        let mut zeros = Zeros::new(writer);
        let (kept, ended) = kept_of(alloc, reader, &mut zeros, options(question));
        return Ok(Left {
            writer: zeros.into_inner(),
            kept,
            ended,
        });
    }
    let (kept, ended) = kept_of(alloc, reader, &mut writer, options(question));
    Ok(Left {
        writer,
        kept,
        ended,
    })
}

/// Tells what a run left, the calls and failures of its reader and its writer, and the positions where they are asked for.
fn tell_left(left: Left, reader: &MemReader, answer: &mut Answer) -> anyhow::Result<()> {
    let Left {
        writer,
        kept,
        ended,
    } = left;
    match &ended {
        Ok(_) => answer.say("written")?,
        Err(fault) => answer.say(fault)?,
    }
    answer.push(writer.bytes())?;
    answer.push(kept.as_slice())?;
    answer.say(format_args!("{} reads, {} failed", reader.calls(), reader.failures()))?;
    answer.say(format_args!("{} writes, {} failed", writer.calls(), writer.failures()))?;
    match ended {
        Ok(Some(positions)) => tell_marks(positions.as_slice(), answer),
        _ => Ok(()),
    }
}

/// A run from a reader and to a writer that take pieces and fail where the question says, the reader with `interrupted` by being
/// interrupted: the fault, the output, what was kept of the input, the calls and failures of both, and the positions where they are asked
/// for.
pub fn tell_run(question: &Question<'_>, answer: &mut Answer) -> anyhow::Result<()> {
    let alloc = answer.alloc();
    let piece = question.number("read").unwrap_or(64).max(1) as usize;
    let text = question.text(0).as_bytes();
    let mut reader = MemReader::new(alloc, text, piece, question.number("read_fails"))?;
    if question.has("interrupted") {
        let mut interrupts = Interrupts::new(reader);
        let left = run_to(question, alloc, &mut interrupts)?;
        return tell_left(left, &interrupts.into_inner(), answer);
    }
    let left = run_to(question, alloc, &mut reader)?;
    tell_left(left, &reader, answer)
}

/// The messages of all faults but those of the syntax.
pub fn tell_messages(answer: &mut Answer) -> anyhow::Result<()> {
    for fault in [
        Fault::Read(ErrorKind::Interrupted),
        Fault::NotUtf8 { valid_up_to: 7 },
        Fault::TooLong,
        Fault::TooDeep,
        Fault::Memory,
        Fault::Write(ErrorKind::Other),
        Fault::Position,
        Fault::Node,
        Fault::Options,
    ] {
        answer.say(fault)?;
    }
    Ok(())
}

/// The line and the column of an offset of a text, both from 0.
pub fn tell_place(question: &Question<'_>, answer: &mut Answer) -> anyhow::Result<()> {
    let found = place(question.text(0), question.text(1).parse::<u32>()?);
    Ok(answer.say(format_args!("{}:{}", found.line, found.col))?)
}
