//! What is written with comments, by calls of a writer that is told what a printer would tell it.

use crate::write::calls::{number, perform, span};
use crate::write::written::memory;
use base_token::{Atom, BytePos};
use lex_comments::{Comment, CommentKind, Comments};
use print_comments::WithComments;
use print_writers::{EmitError, JsWriter, WriteJs};
use std::alloc::Global;
use test_answers::{Answer, Question};

/// The comment of a line `leads 8 block 1-8 text`, which is added to the others.
fn add(alloc: Global, line: &str, comments: &mut Comments) -> anyhow::Result<()> {
    let mut words = line.splitn(5, ' ');
    let (side, at, kind) = (words.next(), words.next(), words.next());
    let place = words.next();
    let (Some(at), Some(span)) = (at.and_then(number), place.and_then(span)) else {
        return Err(anyhow::Error::msg("no comment"));
    };
    let comment = Comment {
        kind: if kind == Some("block") {
            CommentKind::Block
        } else {
            CommentKind::Line
        },
        span,
        text: Atom::new(alloc, words.next().unwrap_or_default())?,
    };
    if side == Some("leads") {
        Ok(comments.add_leading(BytePos(at), comment)?)
    } else {
        Ok(comments.add_trailing(BytePos(at), comment)?)
    }
}

/// Makes the calls of a question over a writer that writes comments, and writes the comments up to its end.
fn write<W: WriteJs + Drop>(
    question: &Question<'_>,
    wr: W,
    comments: &mut Comments,
) -> anyhow::Result<Option<EmitError>> {
    let mut wr = WithComments::new(wr, comments, question.has("minify"));
    if let Some(fault) = perform(&mut wr, question.text(0))? {
        return Ok(Some(fault));
    }
    match question.number("end") {
        Some(end) => Ok(wr.finish(BytePos(end)).err()),
        None => Ok(None),
    }
}

/// What the calls of the first field write between the comments of the second, one a line, of a text that ends at the place of the
/// setting.
pub(crate) fn tell(question: &Question<'_>, answer: &mut Answer) -> anyhow::Result<()> {
    let alloc = answer.alloc();
    let mut comments = Comments::new(alloc);
    for line in question.text(1).lines() {
        add(alloc, line, &mut comments)?;
    }
    let mut memory = memory(alloc, question)?;
    let js = JsWriter::new(alloc, "\n", &mut memory, None);
    match write(question, js, &mut comments)? {
        None => Ok(answer.push(memory.bytes())?),
        Some(_) => Err(anyhow::Error::msg("it is not written whole")),
    }
}
