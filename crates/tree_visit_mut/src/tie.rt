//! The recursion, tied, and its entries. It counts levels down from the greatest number of 64 bits, more than memory
//! holds nodes.
ghost use Rattle.std.specs.Prelude.{ℕ};
ghost use Rattle.tree_visit_mut.specs.Runs.{Runs};
ghost use Rattle.tree_visit_mut.specs.Sorts.{SameSort};

use crate::hooks::VisitMut;
use crate::walk::{Change, WalkMut, Word};
use base_token::Span;
use std::marker::Model;
use tree_nodes::{
    Class, Expr, Function, Part, PartKind, Pat, Program, ProgramKindOf, Stmt, StmtBox,
};

/// What changes the part in a child's box. It is told the levels that are left.
trait Runner<V> {
    /// That it may be called with so many levels.
    ghost runs: { Self → ℕ → Type 0 };

    /// Changes a part. Its sort stays.
    fn run(&self, visitor: &mut V, part: &mut Part, depth: u64)
        requires { runs self.now depth }
        ensures { SameSort part.old part.new };
}

/// A function as what changes a part.
#[derive(Drop)]
struct Call<F> {
    change: F,
}

impl<V, F: Fn(&mut V, &mut Part, u64)> Runner<V> for Call<F> {
    ghost runs = { λ r depth. Runs depth (F.pre r.change) (F.post r.change) };

    fn run(&self, visitor: &mut V, part: &mut Part, depth: u64) {
        (self.change)(visitor, part, depth);
    }
}

/// A visitor, what changes the parts in children's boxes, and the levels that are left. That it may be called is true of
/// each of these, so no function of the walk has to say it.
#[derive(Drop)]
struct Levels<'a, V, R: Runner<V> + Drop> {
    visitor: &'a mut V,
    depth: u64,
    runner: R,
}

impl<'a, V, R: Runner<V> + Drop> Model for Levels<'a, V, R> {
    ghost Value = { Unit {0} };

    ghost view = { λ r. tt };

    ghost invariant = { λ r. R.runs r.runner r.depth };
}

impl<'a, V: VisitMut, R: Runner<V> + Drop> Change<Part> for Levels<'a, V, R> {
    ghost placed = { λ p. p };

    fn child(&mut self, child: &mut Part) {
        self.runner.run(self.visitor, child, self.depth);
    }

    fn enter_function(&mut self, node: &Function) {
        self.visitor.enter_function(node);
    }

    fn leave_function(&mut self, node: &mut Function) {
        self.visitor.leave_function(node);
    }

    fn enter_class(&mut self, node: &Class) {
        self.visitor.enter_class(node);
    }

    fn leave_class(&mut self, node: &mut Class) {
        self.visitor.leave_class(node);
    }

    fn leave_stmts(&mut self, stmts: &mut Vec<StmtBox>) {
        self.visitor.leave_stmts(stmts);
    }

    fn word(&mut self, word: Word<'_>) {
        match word {
            Word::Ident(x) => self.visitor.ident(x),
            Word::IdentName(x) => self.visitor.ident_name(x),
            Word::PrivateName(x) => self.visitor.private_name(x),
            Word::Str(x) => self.visitor.str(x),
            Word::Number(x) => self.visitor.number(x),
            Word::BigInt(x) => self.visitor.big_int(x),
            Word::TplElement(x) => self.visitor.tpl_element(x),
        }
    }

    fn span(&mut self, span: &mut Span) {
        self.visitor.span(span);
    }
}

/// Changes an expression and what is below it.
pub(crate) fn change_expr<V: VisitMut, R: Runner<V> + Drop>(
    visitor: &mut V,
    node: &mut Expr,
    depth: u64,
    runner: R,
)
    requires { R.runs runner depth }
{
    visitor.enter_expr(node);
    let mut levels = Levels {
        visitor: &mut *visitor,
        depth,
        runner,
    };
    node.kind.walk_mut(&mut levels);
    drop(levels);
    visitor.leave_expr(node);
}

/// Changes a statement and what is below it.
pub(crate) fn change_stmt<V: VisitMut, R: Runner<V> + Drop>(
    visitor: &mut V,
    node: &mut Stmt,
    depth: u64,
    runner: R,
)
    requires { R.runs runner depth }
{
    visitor.enter_stmt(node);
    let mut levels = Levels {
        visitor: &mut *visitor,
        depth,
        runner,
    };
    node.kind.walk_mut(&mut levels);
    drop(levels);
    visitor.leave_stmt(node);
}

/// Changes a pattern and what is below it.
pub(crate) fn change_pat<V: VisitMut, R: Runner<V> + Drop>(
    visitor: &mut V,
    node: &mut Pat,
    depth: u64,
    runner: R,
)
    requires { R.runs runner depth }
{
    visitor.enter_pat(node);
    let mut levels = Levels {
        visitor: &mut *visitor,
        depth,
        runner,
    };
    node.kind.walk_mut(&mut levels);
    drop(levels);
    visitor.leave_pat(node);
}

/// Changes a program and what is below it.
pub(crate) fn change_program<V: VisitMut, R: Runner<V> + Drop>(
    visitor: &mut V,
    node: &mut Program,
    depth: u64,
    runner: R,
)
    requires { R.runs runner depth }
{
    visitor.enter_program(node);
    let mut levels = Levels {
        visitor: &mut *visitor,
        depth,
        runner,
    };
    node.kind.walk_mut(&mut levels);
    drop(levels);
    // Only a program holds parts of a module, so the walk below it need not know of their hook.
    if let ProgramKindOf::Module(module) = &mut node.kind {
        visitor.leave_module_items(&mut module.body);
    }
    visitor.leave_program(node);
}

/// Changes the part in a child's box, and what is below it.
#[cycle(tie)]
fn change_part<V: VisitMut>(visitor: &mut V, part: &mut Part, depth: u64)
    ensures { SameSort part.old part.new }
{
    if depth == 0 {
        return;
    }
    let runner = Call {
        change: change_part::<V>,
    };
    match &mut part.sort {
        PartKind::Expr(x) => change_expr(visitor, x, depth - 1, runner),
        PartKind::Stmt(x) => change_stmt(visitor, x, depth - 1, runner),
        PartKind::Pat(x) => change_pat(visitor, x, depth - 1, runner),
    }
}

/// What a visitor can change.
pub trait VisitMutWith {
    /// Changes what is below it, and then itself, by the hooks of a visitor.
    fn visit_mut_with<V: VisitMut>(&mut self, visitor: &mut V);
}

impl VisitMutWith for Expr {
    fn visit_mut_with<V: VisitMut>(&mut self, visitor: &mut V) {
        let change = change_part::<V>;
        change_expr(visitor, self, u64::MAX, Call { change });
    }
}

impl VisitMutWith for Stmt {
    fn visit_mut_with<V: VisitMut>(&mut self, visitor: &mut V) {
        let change = change_part::<V>;
        change_stmt(visitor, self, u64::MAX, Call { change });
    }
}

impl VisitMutWith for Pat {
    fn visit_mut_with<V: VisitMut>(&mut self, visitor: &mut V) {
        let change = change_part::<V>;
        change_pat(visitor, self, u64::MAX, Call { change });
    }
}

impl VisitMutWith for Program {
    fn visit_mut_with<V: VisitMut>(&mut self, visitor: &mut V) {
        let change = change_part::<V>;
        change_program(visitor, self, u64::MAX, Call { change });
    }
}
