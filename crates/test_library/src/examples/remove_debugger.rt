//! A codemod that removes `debugger` statements.
ghost use Rattle.tree_nodes.specs.Placed.{holds_stmt};

use ecma_ast::{
    EmptyStmt, Program, Spanned, Stmt, StmtBox, StmtKind, StmtKindOf, VisitMut, VisitMutWith,
};

/// Removes `debugger`.
#[derive(Drop)]
struct NoDebugger;

impl VisitMut for NoDebugger {
    fn leave_stmts(&mut self, stmts: &mut Vec<StmtBox>) {
        stmts.retain(|stmt| !stmt.is_debugger());
    }

    fn leave_stmt(&mut self, stmt: &mut Stmt) {
        match &mut stmt.kind {
            StmtKindOf::While(x) => empty_if_debugger(&mut x.body),
            StmtKindOf::DoWhile(x) => empty_if_debugger(&mut x.body),
            StmtKindOf::For(x) => empty_if_debugger(&mut x.body),
            StmtKindOf::ForIn(x) => empty_if_debugger(&mut x.body),
            StmtKindOf::ForOf(x) => empty_if_debugger(&mut x.body),
            StmtKindOf::With(x) => empty_if_debugger(&mut x.body),
            StmtKindOf::Labeled(x) => empty_if_debugger(&mut x.body),
            StmtKindOf::If(x) => {
                empty_if_debugger(&mut x.cons);
                if let Some(alt) = &mut x.alt {
                    empty_if_debugger(alt);
                }
            }
            _ => {}
        }
    }
}

/// Puts `;` in the place of `debugger;`.
fn empty_if_debugger(stmt: &mut StmtBox)
    requires { holds_stmt stmt.old.part.value }
    ensures { holds_stmt stmt.new.part.value }
{
    if stmt.is_debugger() {
        let span = stmt.span();
        let kind = StmtKind::Empty(EmptyStmt { span });
        stmt.set(Stmt { kind });
    }
}

/// Removes each `debugger` statement; where a statement has to stand, as the body of a loop, `;` is written for it.
pub fn remove_debugger(program: &mut Program) {
    program.visit_mut_with(&mut NoDebugger);
}
