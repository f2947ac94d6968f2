//! What a writer writes and marks.

use crate::write::calls::perform;
use base_token::{BytePos, CountedWrite, LineCol};
use print_writers::{EmitError, JsWriter, WriteJs, omit_trailing_semi};
use run_memory::MemWriter;
use std::alloc::Global;
use std::io::ErrorKind;
use test_answers::{Answer, Question};

/// The writer to memory that a question asks for.
pub(crate) fn memory(alloc: Global, question: &Question<'_>) -> anyhow::Result<MemWriter> {
    let piece = question.number("piece").unwrap_or(4096).max(1) as usize;
    let room = question.number("room").unwrap_or(30_000) as usize;
    Ok(MemWriter::new(alloc, room, piece, question.number("fail"))?)
}

fn fault_name(fault: EmitError) -> &'static str {
    match fault {
        EmitError::Write(ErrorKind::WriteZero) => "Write zero",
        EmitError::Write(_) => "Write",
        EmitError::Memory => "Memory",
        EmitError::Node => "Node",
        EmitError::Position => "Position",
    }
}

/// Makes the calls over the kind of writer that the setting names.
fn over<W: WriteJs>(
    alloc: Global,
    question: &Question<'_>,
    writer: &mut W,
    calls: &str,
) -> anyhow::Result<Option<EmitError>> {
    match question.subject() {
        "js" => perform(&mut *writer, calls),
        "lent" => perform(&mut &mut *writer, calls),
        "omit" => perform(&mut omit_trailing_semi(&mut *writer), calls),
        "twice" => perform(
            &mut omit_trailing_semi(omit_trailing_semi(&mut *writer)),
            calls,
        ),
        "boxed" => match Box::new(alloc, &mut *writer) {
            Ok(boxed) => {
                let mut boxed = boxed;
                perform(&mut boxed, calls)
            }
            Err(_) => Err(anyhow::Error::msg("out of memory")),
        },
        _ => Err(anyhow::Error::msg("no such writer")),
    }
}

/// Sets the question's indentation, writes its preamble, and makes its calls.
fn called<W: CountedWrite>(
    alloc: Global,
    question: &Question<'_>,
    writer: &mut JsWriter<'_, W>,
) -> anyhow::Result<Option<EmitError>> {
    let calls = question.text(0);
    if question.has("tab") {
        writer.set_indent_str("\t");
    }
    if question.has("preamble") {
        writer.preamble("#!x\n")?;
    }
    over(alloc, question, &mut *writer, calls)
}

/// The end of a line that a question asks for.
fn new_line(question: &Question<'_>) -> &'static str {
    if question.has("crlf") { "\r\n" } else { "\n" }
}

/// The bytes and the marks of the calls, and the fault that ended them.
pub(crate) fn written(question: &Question<'_>, answer: &mut Answer) -> anyhow::Result<()> {
    let alloc = answer.alloc();
    let mut memory = memory(alloc, question)?;
    let mut marks: Vec<(BytePos, LineCol)> = Vec::new(alloc);
    let new_line = new_line(question);
    let fault = if question.has("positions") {
        let mut writer = JsWriter::new(alloc, new_line, &mut memory, Some(&mut marks));
        called(alloc, question, &mut writer)?
    } else {
        let mut writer = JsWriter::new(alloc, new_line, &mut memory, None);
        called(alloc, question, &mut writer)?
    };
    answer.push(memory.bytes())?;
    let mut places = String::new(alloc);
    for (pos, place) in &marks {
        let gap = if places.is_empty() { "" } else { " " };
        let pair = format!(in alloc; "{gap}{}@{}:{}", pos.0, place.line, place.col)?;
        places.push_str(&pair)?;
    }
    answer.push(places.as_bytes())?;
    answer.push(fault.map_or("", fault_name).as_bytes())?;
    Ok(())
}
