//! What the trees are made of.
ghost use Rattle.std.specs.Prelude.{◌≡◌, Ok};
ghost use Rattle.tree_nodes.specs.Placed.{holds_expr, holds_pat, holds_stmt};
ghost use Rattle.tree_nodes.specs.Fits.{fits_block_stmt};

use base_token::{Atom, DUMMY_SP, StrValue};
use ecma_ast::Build;
use std::process::Abort;
use tree_nodes::{BlockStmt, ExprBox, Ident, IdentName, PatBox, PrivateName, StmtBox, Str};

/// What was made, as memory never wants here.
pub fn ok<T, E: Drop>(rt: &impl Abort, made: Result<T, E>) -> T
    ensures { made ≡ Ok result }
{
    match made {
        Ok(x) => x,
        Err(_) => panic!(rt; "no memory"),
    }
}

/// `a`.
pub fn var(rt: &impl Abort, b: &Build) -> ExprBox
    ensures { holds_expr result.part.value }
{
    ok(rt, b.var("a"))
}

/// `(a)`.
pub fn deep(rt: &impl Abort, b: &Build) -> ExprBox
    ensures { holds_expr result.part.value }
{
    ok(rt, b.paren_expr(var(rt, b)))
}

/// `((a))`.
pub fn deeper(rt: &impl Abort, b: &Build) -> ExprBox
    ensures { holds_expr result.part.value }
{
    ok(rt, b.paren_expr(deep(rt, b)))
}

/// `;`.
pub fn empty(rt: &impl Abort, b: &Build) -> StmtBox
    ensures { holds_stmt result.part.value }
{
    ok(rt, b.empty_stmt())
}

/// `(a);`.
pub fn deep_stmt(rt: &impl Abort, b: &Build) -> StmtBox
    ensures { holds_stmt result.part.value }
{
    ok(rt, b.expr_stmt(deep(rt, b)))
}

/// `{ (a); }`.
pub fn block(rt: &impl Abort, b: &Build) -> BlockStmt
    ensures { fits_block_stmt (λ p. p) result }
{
    let stmts = ok(rt, vec![in b.alloc; deep_stmt(rt, b)]);
    BlockStmt {
        span: DUMMY_SP,
        stmts,
    }
}

/// The name `a` as a pattern.
pub fn bound(rt: &impl Abort, b: &Build) -> PatBox
    ensures { holds_pat result.part.value }
{
    ok(rt, b.binding_ident(name(rt, b)))
}

/// The name `a`.
pub fn name(rt: &impl Abort, b: &Build) -> Ident {
    ok(rt, b.name("a"))
}

/// The text `a`.
pub fn atom(rt: &impl Abort, b: &Build) -> Atom {
    ok(rt, Atom::new(b.alloc, "a"))
}

/// `"a"`.
pub fn str(rt: &impl Abort, b: &Build) -> Str {
    let units = ok(rt, StrValue::from_text(b.alloc, "a"));
    Str {
        span: DUMMY_SP,
        units,
        raw: None,
    }
}

/// `a` as a key or after a dot.
pub fn word(rt: &impl Abort, b: &Build) -> IdentName {
    let sym = atom(rt, b);
    IdentName {
        span: DUMMY_SP,
        sym,
    }
}

/// `#a`.
pub fn private(rt: &impl Abort, b: &Build) -> PrivateName {
    let name = atom(rt, b);
    PrivateName {
        span: DUMMY_SP,
        name,
    }
}
