//! What the printer writes for a text.

use crate::read::{parser, program, reading_of, refuse};
use base_token::{BytePos, CountedWrite, Error, EsVersion, LineCol};
use ecma_codegen::{Config, Emitter, Gather, JsWriter, NoPlaces, WriteJs, omit_trailing_semi};
use ecma_front::Parser;
use ecma_lexer::Lexer;
use lex_comments::Comments;
use print_writers::EmitError;
use run_memory::MemWriter;
use std::alloc::Global;
use test_answers::{Answer, Question};
use tree_nodes::Program;

/// How a text is written.
#[derive(Clone, Copy, Debug)]
pub struct Style {
    cfg: Config,
    /// What ends a line.
    line_end: &'static str,
    /// One step of the indentation.
    indent: &'static str,
}

/// The edition that a question's text is written for.
fn target(question: &Question<'_>) -> EsVersion {
    match question.value("target") {
        Some("es3") => EsVersion::Es3,
        Some("es5") => EsVersion::Es5,
        Some("es2015") => EsVersion::Es2015,
        Some("es2016") => EsVersion::Es2016,
        Some("es2017") => EsVersion::Es2017,
        Some("es2018") => EsVersion::Es2018,
        Some("es2019") => EsVersion::Es2019,
        Some("es2020") => EsVersion::Es2020,
        Some("es2021") => EsVersion::Es2021,
        Some("es2022") => EsVersion::Es2022,
        _ => EsVersion::EsNext,
    }
}

/// One step of the indentation.
fn indent(question: &Question<'_>) -> &'static str {
    match question.value("indent") {
        Some("tab") => "\t",
        Some("0") => "",
        Some("1") => " ",
        Some("2") => "  ",
        Some("3") => "   ",
        Some("8") => "        ",
        _ => "    ",
    }
}

/// How a question's text is written.
pub fn style_of(question: &Question<'_>) -> Style {
    let minify = question.has("minify");
    Style {
        cfg: Config {
            target: target(question),
            ascii_only: question.has("ascii"),
            inline_script: question.has("page"),
            emit_assert_for_import_attributes: question.has("assert"),
            minify,
            omit_last_semi: minify && !question.has("kept"),
            ..Config::default()
        },
        line_end: if question.has("crlf") { "\r\n" } else { "\n" },
        indent: indent(question),
    }
}

/// The program that a text is, and its comments where they are asked for; its first early error refuses it.
fn read(
    question: &Question<'_>,
    alloc: Global,
) -> anyhow::Result<Result<(Program, Option<Comments>), Error>> {
    let (text, reading) = (question.text(0), reading_of(question));
    let with_comments = question.has("comments");
    let mut parser = if with_comments && text.len() < 1_000_000 {
        let latest = EsVersion::latest();
        let lexer = Lexer::new(alloc, reading.syntax, latest, text, BytePos(1), true);
        let mut parser: Parser<'_, Lexer<'_>> = Parser::new_from(alloc, lexer);
        parser.set_nesting(reading.nesting);
        parser
    } else {
        parser(alloc, text, reading)?
    };
    let program = match program(&mut parser, reading.script) {
        Ok(program) => program,
        Err(error) => return Ok(Err(error)),
    };
    if let Some(error) = parser.take_errors().first() {
        return Ok(Err(*error));
    }
    if !with_comments {
        return Ok(Ok((program, None)));
    }
    match parser.input().try_clone() {
        Ok(mut lexer) => Ok(Ok((program, Some(lexer.take_comments())))),
        Err(error) => Ok(Err(error)),
    }
}

/// Prints a program to a writer of words and lines.
fn emit<W: WriteJs + Drop>(
    alloc: Global,
    program: &Program,
    cfg: Config,
    comments: Option<&mut Comments>,
    wr: W,
) -> Result<(), EmitError> {
    let mut emitter = Emitter {
        alloc,
        cfg,
        cm: NoPlaces,
        comments,
        wr,
    };
    emitter.emit_program(program)
}

/// Prints a program to a writer of bytes, and hands the writer back. Only where it is minified may a semicolon before `}`
/// and at the end go.
fn emit_to<W: CountedWrite + Drop>(
    alloc: Global,
    program: &Program,
    style: Style,
    marks: Option<&mut Vec<(BytePos, LineCol)>>,
    comments: Option<&mut Comments>,
    out: W,
) -> (W, Result<(), EmitError>) {
    let mut wr = JsWriter::new(alloc, style.line_end, out, marks);
    wr.set_indent_str(style.indent);
    if style.cfg.minify {
        let mut wr = omit_trailing_semi(wr);
        let ended = emit(alloc, program, style.cfg, comments, &mut wr);
        (wr.into_inner().into_inner(), ended)
    } else {
        let ended = emit(alloc, program, style.cfg, comments, &mut wr);
        (wr.into_inner(), ended)
    }
}

/// Prints a program through one block. Where it fails in between, what waits in the block is not written.
pub fn print_to<W: CountedWrite>(
    alloc: Global,
    program: &Program,
    style: Style,
    marks: Option<&mut Vec<(BytePos, LineCol)>>,
    comments: Option<&mut Comments>,
    out: &mut W,
) -> Result<(), EmitError> {
    let (mut block, ended) = emit_to(alloc, program, style, marks, comments, Gather::new(out));
    ended?;
    match block.finish() {
        Ok(()) => Ok(()),
        Err(error) => Err(EmitError::Write(error.kind())),
    }
}

/// What a fault says, in one line.
fn message(fault: EmitError) -> &'static str {
    match fault {
        EmitError::Write(_) => "write failed",
        EmitError::Memory => "out of memory",
        EmitError::Node => "node cannot be printed",
        EmitError::Position => "position too large",
    }
}

/// Tells each place of the source with the line and the column at which it stands in what is written.
pub fn tell_marks(marks: &[(BytePos, LineCol)], answer: &mut Answer) -> anyhow::Result<()> {
    let alloc = answer.alloc();
    let mut places = String::new(alloc);
    for (pos, place) in marks {
        let gap = if places.is_empty() { "" } else { " " };
        let pair = format!(in alloc; "{gap}{}@{}:{}", pos.0, place.line, place.col)?;
        places.push_str(&pair)?;
    }
    Ok(answer.say(places.as_str())?)
}

/// Whether a comment is left at one of so many places.
fn is_left(comments: &Comments, places: u32) -> bool {
    'places: for before in 0..places {
        let pos = BytePos(before + 1);
        if comments.has_leading(pos) || comments.has_trailing(pos) {
            return true;
        }
    }
    false
}

/// Prints a program, and tells what is written, the calls of the writer, and the places or the fault.
fn write(
    question: &Question<'_>,
    program: &Program,
    comments: Option<&mut Comments>,
    answer: &mut Answer,
) -> anyhow::Result<()> {
    let alloc = answer.alloc();
    let piece = question.number("piece").unwrap_or(4096).max(1) as usize;
    let room = question.number("room").unwrap_or(100_000_000) as usize;
    let mut out = MemWriter::new(alloc, room, piece, question.number("fail"))?;
    let mut marks: Vec<(BytePos, LineCol)> = Vec::new(alloc);
    let list = if question.has("marks") {
        Some(&mut marks)
    } else {
        None
    };
    let ended = print_to(alloc, program, style_of(question), list, comments, &mut out);
    answer.say("written")?;
    answer.push(out.bytes())?;
    answer.say(out.calls())?;
    match ended {
        Ok(()) => tell_marks(marks.as_slice(), answer),
        Err(fault) => Ok(answer.say(message(fault))?),
    }
}

/// What is written for the text of a question: with `marks` also the places of the source in it, with `comments` with its comments,
/// of which none may be left, and with `piece`, `room` or `fail` what a writer takes that has so much room or fails; or why the
/// text is refused.
pub fn tell(question: &Question<'_>, answer: &mut Answer) -> anyhow::Result<()> {
    match read(question, answer.alloc())? {
        Err(error) => refuse(&error, answer),
        Ok((program, comments)) => match comments {
            None => write(question, &program, None, answer),
            Some(mut comments) => {
                write(question, &program, Some(&mut comments), answer)?;
                if is_left(&comments, question.text(0).len().min(1_000_000) as u32 + 1) {
                    return Err(anyhow::Error::msg("a comment is not written"));
                }
                Ok(())
            }
        },
    }
}
