//! The word `async` at the end of an expression that stands alone.
ghost use Rattle.std.specs.Prelude.{◌≡◌, All, map, option_map};
ghost use Rattle.grammar_spec.specs.Tokens.Shape.{last_of};
ghost use Rattle.tree_nodes.specs.Fits.{fits_param};
ghost use Rattle.tree_nodes.specs.Placed.{inner};
ghost use Rattle.tree_nodes.specs.View.{view_param};
ghost use Rattle.parse_state.specs.Codes.{code_of};
ghost use Rattle.parse_state.specs.Cursors.{stream_of};
ghost use Rattle.parse_state.specs.States.{state_of};
ghost use Rattle.parse_alone.specs.Ends as ends;

use parse_state::code::in_arrow;
use parse_state::{Around, Parser, Tokens};
use std::convert::AsStr;
use tree_nodes::{BlockStmtOrExpr, Expr, ExprKind, Param, PatKind};

/// Where an expression ends with the word `async` in the place of an arrow, the code there.
pub fn async_end(code: Around, expr: &Expr) -> Option<Around>
    ensures { option_map code_of result ≡ ends.async_end (code_of code) expr.now }
{
    match &expr.kind {
        ExprKind::Ident(name) if name.sym.as_str() == "async" => Some(code),
        ExprKind::Assign(assign) => async_end(code, assign.right.get()),
        ExprKind::Cond(cond) => async_end(code, cond.alt.get()),
        ExprKind::Arrow(arrow) => match &arrow.body {
            BlockStmtOrExpr::Expr(body) => async_end(in_arrow(arrow.is_async, code), body.get()),
            BlockStmtOrExpr::BlockStmt(_) => None,
        },
        ExprKind::Yield(operator) => match &operator.arg {
            Some(arg) => async_end(code, arg.get()),
            None => None,
        },
        _ => None,
    }
}

/// The same of an expression that may be a sequence.
pub fn sequence_async_end(code: Around, expr: &Expr) -> Option<Around>
    ensures { option_map code_of result ≡ ends.async_end (code_of code) (last_of expr.now) }
{
    let ExprKind::Seq(seq) = &expr.kind else {
        return async_end(code, expr);
    };
    match seq.exprs.as_slice().last() {
        Some(last) => async_end(code, last.get()),
        None => None,
    }
}

/// The same of the initialiser of the last parameter.
pub fn params_async_end(code: Around, params: &[Param]) -> Option<Around>
    requires { All (λ x. fits_param (λ p. p) x) params.now }
    ensures { option_map code_of result ≡ ends.async_end (code_of code)
        (ends.last_initial (map (view_param inner) params.now)) }
{
    let param = params.last()?;
    match &param.pat.get().kind {
        PatKind::Assign(assign) => async_end(code, assign.right.get()),
        _ => None,
    }
}

/// Whether the word `async` ends what was read and a name comes on its line, which would be the parameter of an arrow
/// (ECMA-262, 15.9).
pub fn heads_arrow<'a, I: Tokens<'a> + Drop>(p: &Parser<'a, I>, end: Option<Around>) -> bool
    ensures { result ≡ ends.heads_arrow (stream_of I.machine) (option_map code_of end) (state_of I.state p.now) }
{
    match end {
        Some(code) => !p.breaks() && p.is_name(code),
        None => false,
    }
}
