//! A node as a text.
ghost use Rattle.std.specs.Prelude.{◌≡◌, None};
ghost use Rattle.ecma_codegen.specs.Codes.{Codes, Noted};
ghost use Rattle.ecma_codegen.specs.Settings as settings;

use crate::alone::PrintAlone;
use crate::emit::{emit, emit_noting, look_of};
use base_token::{Counted, Spanned};
use lex_comments::Comments;
use print_config::{Config, SourceMapper};
use print_layout_spec::Look;
use print_writers::{EmitError, JsWriter};
use std::alloc::Global;
use std::io::ErrorKind;

/// How a text looks by the default settings.
fn default_look() -> Look
    ensures { result ≡ settings.default_look }
{
    look_of(Config::default())
}

/// The text of a node, by the default settings. A refused growth of the text is want of memory.
///
/// # Errors
///
/// `EmitError::Memory` where there is no memory for the text, and `EmitError::Node` for what can't be printed.
#[tactic(auto, using(print_pages_spec::proofs::Resolving::calls_resolve))]
pub fn to_code<N: PrintAlone>(alloc: Global, node: &N) -> Result<String, EmitError>
    ensures { Codes (N.alone settings.default_look node.now) result }
{
    let out: Counted<Vec<u8>> = Counted::new(Vec::new(alloc));
    let mut wr = JsWriter::new(alloc, "\n", out, None);
    let ended = emit(node, &mut wr, default_look());
    let bytes = wr.into_inner().into_inner();
    match ended {
        Ok(()) => {}
        Err(EmitError::Write(_)) => return Err(EmitError::Memory),
        Err(fault) => return Err(fault),
    }
    match String::from_utf8(bytes) {
        Ok(text) => Ok(text),
        Err(_) => unreachable!(),
    }
}

/// The text of a node with the comments of its source between its parts, by the default settings. A comment is taken from its store as it
/// is written. A refused growth of the text is want of memory.
///
/// # Errors
///
/// Those of `to_code`, and `EmitError::Write` were the bytes with the comments no UTF-8.
pub fn to_code_with_comments<N: PrintAlone + Spanned>(
    alloc: Global,
    comments: Option<&mut Comments>,
    node: &N,
) -> Result<String, EmitError>
    ensures bare { comments.entry ≡ None → Codes (N.alone settings.default_look node.now) result }
    ensures noted { Noted (N.alone settings.default_look node.now) result }
{
    match comments {
        None => to_code(alloc, node),
        Some(comments) => code_noting(alloc, comments, node),
    }
}

/// The text of a node with the comments of its source between its parts, by the default settings. Who knows the lines of the source is
/// not asked.
///
/// # Errors
///
/// Those of `to_code_with_comments`.
pub fn to_code_default<S: SourceMapper + Drop, N: PrintAlone + Spanned>(
    alloc: Global,
    _cm: S,
    comments: Option<&mut Comments>,
    node: &N,
) -> Result<String, EmitError>
    ensures bare { comments.entry ≡ None → Codes (N.alone settings.default_look node.now) result }
    ensures noted { Noted (N.alone settings.default_look node.now) result }
{
    to_code_with_comments(alloc, comments, node)
}

/// The text of a node with these comments between its parts.
fn code_noting<N: PrintAlone + Spanned>(
    alloc: Global,
    comments: &mut Comments,
    node: &N,
) -> Result<String, EmitError>
    ensures { Noted (N.alone settings.default_look node.now) result }
{
    let out: Counted<Vec<u8>> = Counted::new(Vec::new(alloc));
    let mut wr = JsWriter::new(alloc, "\n", out, None);
    let ended = emit_noting(node, &mut wr, comments, default_look());
    let bytes = wr.into_inner().into_inner();
    match ended {
        Ok(()) => {}
        Err(EmitError::Write(_)) => return Err(EmitError::Memory),
        Err(fault) => return Err(fault),
    }
    match String::from_utf8(bytes) {
        Ok(text) => Ok(text),
        Err(_) => Err(EmitError::Write(ErrorKind::InvalidData)),
    }
}
