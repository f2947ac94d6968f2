//! Expressions, statements, patterns and programs. What chains go on from (left operands, objects of members, callees and
//! tags) and `else if` go in loops, so that no chain of them is too long.
ghost use Rattle.std.specs.Prelude.{◌≡◌};
ghost use Rattle.tree_nodes.specs.Placed.{inner};
ghost use Rattle.tree_nesting.specs.Nesting.{is_if};

use crate::counts::{Held, Nesting, above};
use tree_nodes::{
    CallExpr, Callee, Expr, ExprKind, OptChainBase, OptChainExpr, Part, PartKind, Pat, Program,
    Stmt, StmtKind,
};

impl Nesting for Part {
    ghost tree = { inner };

    #[cycle(nesting)]
    fn nesting(&self) -> u32 {
        match &self.sort {
            PartKind::Expr(x) => x.nesting(),
            PartKind::Stmt(x) => x.nesting(),
            PartKind::Pat(x) => x.nesting(),
        }
    }
}

impl Held for Part {
    fn is_if(&self) -> bool {
        match &self.sort {
            PartKind::Expr(x) => expr_is_if(x),
            PartKind::Stmt(x) => stmt_is_if(x),
            PartKind::Pat(x) => pat_is_if(x),
        }
    }
}

/// Whether an expression is an `if` statement, which none is.
#[tactic(auto, using(crate::proofs::IfLemmas::expr_no_if))]
fn expr_is_if(expr: &Expr) -> bool
    ensures { result ≡ is_if expr.now }
{
    // For the proof: the read shows the kind, and by it no expression is an `if` statement.
    let _ = &expr.kind;
    false
}

/// Whether a statement is an `if`.
#[tactic(auto, using(crate::proofs::IfLemmas::decl_no_if))]
fn stmt_is_if(stmt: &Stmt) -> bool
    ensures { result ≡ is_if stmt.now }
{
    matches!(&stmt.kind, StmtKind::If(_))
}

/// Whether a pattern is an `if` statement, which none is.
#[tactic(auto, using(crate::proofs::IfLemmas::pat_no_if))]
fn pat_is_if(pat: &Pat) -> bool
    ensures { result ≡ is_if pat.now }
{
    // For the proof: the read shows the kind, and by it no pattern is an `if` statement.
    let _ = &pat.kind;
    false
}

impl Nesting for Expr {
    ghost tree = { λ t. t };

    #[cycle(nesting)]
    fn nesting(&self) -> u32 {
        let mut deepest = 0;
        let mut expr = self;
        'chain: loop {
            match &expr.kind {
                ExprKind::Bin(x) => {
                    deepest = above(x.right.nesting()).max(deepest);
                    expr = x.left.get();
                }
                ExprKind::Member(x) => {
                    deepest = above(x.prop.nesting()).max(deepest);
                    expr = x.obj.get();
                }
                ExprKind::Call(
                    CallExpr {
                        callee: Callee::Expr(callee),
                        args,
                        ..
                    },
                ) => {
                    deepest = above(args.nesting()).max(deepest);
                    expr = callee.get();
                }
                ExprKind::TaggedTpl(x) => {
                    deepest = above(x.tpl.nesting()).max(deepest);
                    expr = x.tag.get();
                }
                ExprKind::OptChain(
                    OptChainExpr {
                        base: OptChainBase::Member(x),
                        ..
                    },
                ) => {
                    deepest = above(x.prop.nesting()).max(deepest);
                    expr = x.obj.get();
                }
                ExprKind::OptChain(
                    OptChainExpr {
                        base: OptChainBase::Call(x),
                        ..
                    },
                ) => {
                    deepest = above(x.args.nesting()).max(deepest);
                    expr = x.callee.get();
                }
                _ => return expr.kind.nesting().max(deepest),
            }
        }
    }
}

impl Nesting for Stmt {
    ghost tree = { λ t. t };

    #[cycle(nesting)]
    fn nesting(&self) -> u32 {
        let mut deepest = 0;
        let mut stmt = self;
        loop {
            let StmtKind::If(branch) = &stmt.kind else {
                return stmt.kind.nesting().max(deepest);
            };
            let head = branch.test.nesting().max(branch.cons.nesting());
            deepest = above(head).max(deepest);
            match &branch.alt {
                Some(alt) if alt.part.is_if() => stmt = alt.get(),
                Some(alt) => return above(alt.nesting()).max(deepest),
                None => return deepest,
            }
        }
    }
}

impl Nesting for Pat {
    ghost tree = { λ t. t };

    #[cycle(nesting)]
    fn nesting(&self) -> u32 {
        self.kind.nesting()
    }
}

impl Nesting for Program {
    ghost tree = { λ t. t };

    fn nesting(&self) -> u32 {
        self.kind.nesting()
    }
}
