//! Expressions, statements and patterns. Left operands, what stands before a point, a bracket, arguments or a template,
//! and `else if` go in loops, so that no chain of them is too long.
ghost use Rattle.tree_nodes.specs.Placed.{inner};

use crate::parts::Tells;
use tree_nodes::{
    CallExpr, Callee, Expr, ExprKind, OptChainBase, OptChainExpr, Part, PartKind, Pat, Stmt,
    StmtKind,
};

impl Tells for Part {
    ghost tree = { inner };

    #[cycle(tells)]
    fn tells(&self) -> bool {
        match &self.sort {
            PartKind::Expr(x) => x.tells(),
            PartKind::Stmt(x) => x.tells(),
            PartKind::Pat(x) => x.tells(),
        }
    }
}

impl Tells for Expr {
    ghost tree = { λ t. t };

    #[cycle(tells)]
    fn tells(&self) -> bool {
        let mut expr = self;
        'chain: loop {
            let (found, before) = match &expr.kind {
                ExprKind::Bin(x) => (x.right.tells(), x.left.get()),
                ExprKind::Member(x) => (x.prop.tells(), x.obj.get()),
                ExprKind::Call(
                    CallExpr {
                        callee: Callee::Expr(callee),
                        args,
                        ..
                    },
                ) => (args.tells(), callee.get()),
                ExprKind::TaggedTpl(x) => (x.tpl.tells(), x.tag.get()),
                ExprKind::OptChain(
                    OptChainExpr {
                        base: OptChainBase::Member(x),
                        ..
                    },
                ) => (x.prop.tells(), x.obj.get()),
                ExprKind::OptChain(
                    OptChainExpr {
                        base: OptChainBase::Call(x),
                        ..
                    },
                ) => (x.args.tells(), x.callee.get()),
                _ => return expr.kind.tells(),
            };
            if found {
                return true;
            }
            expr = before;
        }
    }
}

impl Tells for Stmt {
    ghost tree = { λ t. t };

    #[cycle(tells)]
    fn tells(&self) -> bool {
        let mut stmt = self;
        'chain: loop {
            let StmtKind::If(branch) = &stmt.kind else {
                return stmt.kind.tells();
            };
            if branch.test.tells() || branch.cons.tells() {
                return true;
            }
            let Some(alt) = &branch.alt else {
                return false;
            };
            stmt = alt.get();
        }
    }
}

impl Tells for Pat {
    ghost tree = { λ t. t };

    #[cycle(tells)]
    fn tells(&self) -> bool {
        self.kind.tells()
    }
}
