//! Expressions, statements, patterns and programs. What chains go on from (left operands, objects of members, callees and tags)
//! and `else if` go in loops, so that no chain of them is too long.
ghost use Rattle.std.specs.Prelude.{◌≡◌, ◌<◌, ◌&&◌, true, false, IfSome};
ghost use Rattle.std.specs.Bool.{Decides};
ghost use Rattle.tree_spec.specs.Codes.{tree_size};
ghost use Rattle.tree_program_spec.specs.Same.{same};
ghost use Rattle.tree_nodes.specs.Placed.{inner};
ghost use Rattle.tree_program_spec.specs.Program.{IsSameProgram};
ghost use Rattle.tree_same.specs.Sorts.{is_statement, is_pattern, is_node};
ghost use Rattle.tree_same.specs.Compared.{is_use_strict};
ghost use Rattle.tree_same.specs.Seen.{is_in_stmt, is_in_pat};

use crate::expressions::same_template;
use crate::parts::{Held, Present, Same};
use crate::texts::str_is_use_strict;
use crate::words::same_binary_op;
use tree_nodes::{
    Callee, Expr, ExprKind, Lit, OptChainBase, Part, PartKind, Pat, Program, Stmt, StmtKind,
};

/// Whether two programs are the same: what they say without places and spellings is equal. It takes no memory.
#[tactic(auto, using(crate::proofs::Knots::program_decides))]
pub fn same_program(program: &Program, other: &Program) -> bool
    ensures { Decides result (IsSameProgram program.now other.now) }
{
    program.same(other)
}

impl Same for Part {
    ghost tree = { inner };

    #[cycle(same)]
    #[tactic(auto, using(crate::proofs::Mixed::sorts_apart))]
    fn same(&self, other: &Part) -> bool {
        match (&self.sort, &other.sort) {
            (PartKind::Expr(x), PartKind::Expr(y)) => x.same(y),
            (PartKind::Stmt(x), PartKind::Stmt(y)) => x.same(y),
            (PartKind::Pat(x), PartKind::Pat(y)) => x.same(y),
            _ => {
                // For the proof: `show_sort` is a law of parts; the calls bring what it says.
                show_sort(self);
                show_sort(other);
                false
            }
        }
    }
}

impl Held for Part {
    ghost in_stmt = { is_in_stmt };

    fn is_stmt(&self) -> bool {
        // For the proof: `show_sort` is a law of parts; the call brings what it says.
        show_sort(self);
        matches!(&self.sort, PartKind::Stmt(_))
    }

    fn is_node(&self) -> bool {
        // For the proof: `show_sort` is a law of parts; the call brings what it says.
        show_sort(self);
        true
    }

    fn is_use_strict(&self) -> bool {
        match &self.sort {
            PartKind::Expr(x) => expr_is_use_strict(x),
            PartKind::Stmt(x) => stmt_is_use_strict(x),
            PartKind::Pat(x) => pat_is_use_strict(x),
        }
    }
}

/// A part is an expression, a statement or a pattern, as its sort says.
fn show_sort(part: &Part)
    ensures statement { is_statement (inner part.now) ≡ is_in_stmt part.now }
    ensures pattern { is_pattern (inner part.now) ≡ is_in_pat part.now }
    ensures node { is_node (inner part.now) ≡ true }
{
    match &part.sort {
        PartKind::Expr(x) => show_expr(x),
        PartKind::Stmt(x) => show_stmt(x),
        PartKind::Pat(x) => show_pat(x),
    }
}

#[tactic(auto, using(crate::proofs::Opened::exprs))]
fn show_expr(expr: &Expr)
    ensures statement { is_statement expr.now ≡ false }
    ensures pattern { is_pattern expr.now ≡ false }
    ensures node { is_node expr.now ≡ true }
{
    // For the proof: the read shows the kind, and by it the sort.
    let _ = &expr.kind;
}

#[tactic(auto, using(crate::proofs::Opened::stmts))]
fn show_stmt(stmt: &Stmt)
    ensures statement { is_statement stmt.now ≡ true }
    ensures pattern { is_pattern stmt.now ≡ false }
    ensures node { is_node stmt.now ≡ true }
{
    // For the proof: the read shows the kind, and by it the sort.
    let _ = &stmt.kind;
}

#[tactic(auto, using(crate::proofs::Opened::pats))]
fn show_pat(pat: &Pat)
    ensures statement { is_statement pat.now ≡ false }
    ensures pattern { is_pattern pat.now ≡ true }
    ensures node { is_node pat.now ≡ true }
{
    // For the proof: the read shows the kind, and by it the sort.
    let _ = &pat.kind;
}

/// Whether an expression is the string `use strict`, without an escape.
fn expr_is_use_strict(expr: &Expr) -> bool
    ensures { result ≡ is_use_strict expr.now }
{
    match &expr.kind {
        ExprKind::Lit(Lit::Str(x)) => str_is_use_strict(x),
        _ => false,
    }
}

/// No statement is a string.
#[tactic(auto, using(crate::proofs::Opened::stmt_not_strict))]
fn stmt_is_use_strict(stmt: &Stmt) -> bool
    ensures { result ≡ is_use_strict stmt.now }
{
    // For the proof: the read shows the kind, and by it no statement is a string.
    let _ = &stmt.kind;
    false
}

/// No pattern is a string.
#[tactic(auto, using(crate::proofs::Opened::pat_not_strict))]
fn pat_is_use_strict(pat: &Pat) -> bool
    ensures { result ≡ is_use_strict pat.now }
{
    // For the proof: the read shows the kind, and by it no pattern is a string.
    let _ = &pat.kind;
    false
}

impl Same for Expr {
    ghost tree = { λ t. t };

    #[cycle(same)]
    #[tactic(auto, using(crate::proofs::Chains::expr_chain))]
    fn same(&self, other: &Expr) -> bool {
        let mut expr = self;
        let mut other_expr = other;
        'chain: while let Some((rest, left, other_left)) = left_parts(expr, other_expr) {
            if !rest {
                return false;
            }
            expr = left;
            other_expr = other_left;
        }
        expr.kind.same(&other_expr.kind)
    }
}

/// The left parts of two links of a kind, which are left operands, objects of members, callees or tags, behind whether what stands
/// right of them is the same. Nothing of what is no link, or of links with other operators, and where only one is optional.
#[cycle(same)]
#[tactic(auto, using(crate::proofs::Chains::links))]
fn left_parts<'e>(expr: &'e Expr, other: &'e Expr) -> Option<(bool, &'e Expr, &'e Expr)>
    ensures same { IfSome result (λ r. same expr.now other.now ≡ (r.0 && same r.1.now r.2.now)) }
    ensures smaller { IfSome result (λ r. (tree_size r.1.now < tree_size expr.now) × (tree_size r.2.now < tree_size other.now)) }
{
    match (&expr.kind, &other.kind) {
        (ExprKind::Bin(x), ExprKind::Bin(y)) if same_binary_op(x.op, y.op) => {
            let rest = (*x.right.part).same(&*y.right.part);
            Some((rest, x.left.get(), y.left.get()))
        }
        (ExprKind::Member(x), ExprKind::Member(y)) => {
            Some((x.prop.same(&y.prop), x.obj.get(), y.obj.get()))
        }
        (ExprKind::TaggedTpl(x), ExprKind::TaggedTpl(y)) => {
            let rest = same_template(&x.tpl, &y.tpl);
            Some((rest, x.tag.get(), y.tag.get()))
        }
        (ExprKind::Call(x), ExprKind::Call(y)) => match (&x.callee, &y.callee) {
            (Callee::Expr(callee), Callee::Expr(other_callee)) => {
                Some((x.args.same(&y.args), callee.get(), other_callee.get()))
            }
            _ => None,
        },
        (ExprKind::OptChain(x), ExprKind::OptChain(y)) if x.optional == y.optional => {
            match (&x.base, &y.base) {
                (OptChainBase::Member(a), OptChainBase::Member(b)) => {
                    Some((a.prop.same(&b.prop), a.obj.get(), b.obj.get()))
                }
                (OptChainBase::Call(a), OptChainBase::Call(b)) => {
                    Some((a.args.same(&b.args), a.callee.get(), b.callee.get()))
                }
                _ => None,
            }
        }
        _ => None,
    }
}

impl Same for Stmt {
    ghost tree = { λ t. t };

    #[cycle(same)]
    #[tactic(auto, using(crate::proofs::Chains::if_chain))]
    fn same(&self, other: &Stmt) -> bool {
        let mut stmt = self;
        let mut other_stmt = other;
        'chain: loop {
            let (StmtKind::If(x), StmtKind::If(y)) = (&stmt.kind, &other_stmt.kind) else {
                return stmt.kind.same(&other_stmt.kind);
            };
            if !(*x.test.part).same(&*y.test.part) || !(*x.cons.part).same(&*y.cons.part) {
                return false;
            }
            match (&x.alt, &y.alt) {
                (Some(alt), Some(other_alt)) => {
                    stmt = alt.get();
                    other_stmt = other_alt.get();
                }
                // For the proof: what is there is never left out; the calls bring that fact.
                (Some(alt), None) => return alt.is_left_out(),
                (None, Some(other_alt)) => return other_alt.is_left_out(),
                (None, None) => return true,
            }
        }
    }
}

impl Same for Pat {
    ghost tree = { λ t. t };

    #[cycle(same)]
    fn same(&self, other: &Pat) -> bool {
        self.kind.same(&other.kind)
    }
}

impl Same for Program {
    ghost tree = { λ t. t };

    fn same(&self, other: &Program) -> bool {
        self.kind.same(&other.kind)
    }
}
