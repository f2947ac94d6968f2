//! Trees and comments in their places, built by hand. The first byte of a source has the place 1.
ghost use Rattle.tree_nodes.specs.Placed.{holds_stmt};

use crate::made::ok;
use base_token::{Atom, BytePos, Span};
use ecma_ast::Build;
use lex_comments::{Comment, CommentKind, Comments};
use std::alloc::Global;
use std::process::Abort;
use tree_nodes::{ExprKind, ExprStmt, Ident, Program, ProgramKind, Script, StmtBox, StmtKind};

/// A part of the source.
pub fn span(lo: u32, hi: u32) -> Span {
    Span {
        lo: BytePos(lo),
        hi: BytePos(hi),
    }
}

/// `/*text*/` or `//text`.
pub fn comment(
    rt: &impl Abort,
    alloc: Global,
    kind: CommentKind,
    lo: u32,
    hi: u32,
    text: &str,
) -> Comment {
    Comment {
        kind,
        span: span(lo, hi),
        text: ok(rt, Atom::new(alloc, text)),
    }
}

/// A name of one letter, as it stands in a declaration.
pub fn ident(rt: &impl Abort, b: &Build, at: u32, text: &str) -> Ident {
    Ident {
        span: span(at, at.saturating_add(1)),
        sym: ok(rt, Atom::new(b.alloc, text)),
    }
}

/// A name of one letter as a statement that ends at `hi`.
pub fn name_stmt(rt: &impl Abort, b: &Build, at: u32, hi: u32, text: &str) -> StmtBox
    ensures { holds_stmt result.part.value }
{
    let name = ident(rt, b, at, text);
    let node = ExprStmt {
        span: span(at, hi),
        expr: ok(rt, b.expr(ExprKind::Ident(name))),
    };
    ok(rt, b.stmt(StmtKind::Expr(node)))
}

/// `/** foo */ a; /* t */`, as a script.
pub fn script(rt: &impl Abort, alloc: Global) -> Program {
    let b = Build { alloc };
    let stmt = name_stmt(rt, &b, 12, 14, "a");
    Program {
        kind: ProgramKind::Script(Script {
            span: span(1, 22),
            body: ok(rt, vec![in alloc; stmt]),
            shebang: None,
        }),
    }
}

/// The comments of that script.
pub fn comments(rt: &impl Abort, alloc: Global) -> Comments {
    let mut comments = Comments::new(alloc);
    let before = comment(rt, alloc, CommentKind::Block, 1, 11, "* foo ");
    ok(rt, comments.add_leading(BytePos(12), before));
    let behind = comment(rt, alloc, CommentKind::Block, 15, 22, " t ");
    ok(rt, comments.add_trailing(BytePos(14), behind));
    comments
}
