//! Trees built by hand.
ghost use Rattle.std.specs.Prelude.{IfOk};
ghost use Rattle.tree_nodes.specs.Placed.{holds_expr, holds_stmt};

use ecma_ast::{BinaryOp, Build, Callee, DUMMY_SP, ExprBox, Program, ProgramKind, Script, StmtBox};
use std::alloc::{AllocError, Global};

/// `a + f(b)`.
pub fn sum(alloc: Global) -> Result<ExprBox, AllocError>
    ensures { IfOk result (λ c. holds_expr c.part.value) }
{
    let b = Build { alloc };
    let call = b.call_expr(
        Callee::Expr(b.var("f")?),
        vec![in alloc; b.arg(b.var("b")?)]?,
    )?;
    b.bin_expr(BinaryOp::Add, b.var("a")?, call)
}

/// A script of one statement, `while (a + f(b)) debugger;`.
pub fn script(alloc: Global) -> Result<Program, AllocError> {
    let b = Build { alloc };
    let statement = b.while_stmt(sum(alloc)?, b.debugger_stmt()?)?;
    Ok(Program {
        kind: ProgramKind::Script(Script {
            span: DUMMY_SP,
            body: vec![in alloc; statement]?,
            shebang: None,
        }),
    })
}
