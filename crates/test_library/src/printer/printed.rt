//! What a printer writes with comments.
use crate::made::ok;
use base_token::Counted;
use ecma_codegen::{Config, EmitError, Emitter, JsWriter, NoPlaces, Node, WriteJs};
use lex_comments::Comments;
use std::alloc::Global;
use std::process::Abort;

/// Prints any node.
fn print<N: Node, W: WriteJs + Drop>(
    alloc: Global,
    comments: Option<&mut Comments>,
    wr: W,
    node: &N,
) -> Result<(), EmitError> {
    let mut emitter = Emitter {
        alloc,
        cfg: Config::default(),
        cm: NoPlaces,
        comments,
        wr,
    };
    node.emit_with(&mut emitter)
}

/// The text of any node, formatted.
pub fn formatted<N: Node>(
    rt: &impl Abort,
    alloc: Global,
    comments: Option<&mut Comments>,
    node: &N,
) -> String {
    let mut out = Counted::new(Vec::new(alloc));
    let js = JsWriter::new(alloc, "\n", &mut out, None);
    ok(rt, print(alloc, comments, js, node));
    ok(rt, String::from_utf8(out.into_inner()))
}
