//! A body's own `'use strict'` beside parameters that aren't all bare names (ECMA-262, 15.2.1).
ghost use Rattle.std.specs.Prelude.{◌≡◌, ◌++◌, IfOk};
ghost use Rattle.tree_spec.specs.Tree.{trees_by};
ghost use Rattle.tree_nodes.specs.View.{view_block_stmt, view_block_stmt_or_expr, view_param};
ghost use Rattle.grammar_spec.specs.Judge.Early.{are_bare, is_bare, mode, mode_fault};
ghost use Rattle.judge.specs.Faults.Asked.{own_of};

use crate::base::listed::add;
use crate::faults::bodies::own_use_strict;
use crate::faults::check::{Check, Held};
use base_token::{Error, Span, SyntaxError};
use std::alloc::AllocError;
use tree_nodes::{BlockStmtOf, BlockStmtOrExprOf, Child, ParamOf, PatTag};

/// A parameter, which may be a bare name.
pub(crate) trait Bare: Check {
    /// Whether it is a bare name.
    fn is_bare(&self) -> bool
        ensures { result ≡ is_bare (Self.Check.tree self.now) };
}

impl<T: Held> Bare for ParamOf<T> {
    fn is_bare(&self) -> bool {
        self.pat.part.is_bound_name()
    }
}

impl<T: Held> Bare for Child<T, PatTag> {
    #[tactic(auto, using(crate::proofs::faults::Asking::child_bare))]
    fn is_bare(&self) -> bool {
        // For the proof: `is_child` is a law of children; the call brings what it says.
        self.part.is_child();
        self.part.is_bound_name()
    }
}

/// Whether all parameters are bare names.
pub(crate) fn are_bare<P: Bare>(params: &[P]) -> bool
    ensures { result ≡ are_bare (trees_by P.Check.tree params.now) }
{
    for param in params {
        if !param.is_bare() {
            return false;
        }
    }
    true
}

/// The fault of a body that has a `'use strict'` of its own, where not all parameters are bare.
pub(crate) fn mode(bare: bool, own: Option<Span>, faults: &mut Vec<Error>) -> Result<(), AllocError>
    ensures { IfOk result (λ _. faults.new.items ≡ faults.old.items ++ mode_fault bare own) }
{
    match own {
        Some(span) => add(
            faults,
            !bare,
            SyntaxError::IllegalLanguageModeDirective,
            span,
        ),
        None => Ok(()),
    }
}

/// The same of parameters and a body.
pub(crate) fn check_mode<T: Held>(
    params: &[ParamOf<T>],
    body: &BlockStmtOf<T>,
    faults: &mut Vec<Error>,
) -> Result<(), AllocError>
    ensures { IfOk result (λ _. faults.new.items ≡ faults.old.items ++ mode (trees_by (view_param T.Check.tree) params.now) (view_block_stmt T.Check.tree body.now)) }
{
    let bare = are_bare(params);
    mode(bare, own_use_strict(body.stmts.as_slice()), faults)?;
    Ok(())
}

/// The first `'use strict'` of an arrow function's body.
pub(crate) fn arrow_use_strict<T: Held>(body: &BlockStmtOrExprOf<T>) -> Option<Span>
    ensures { result ≡ own_of (view_block_stmt_or_expr T.Check.tree body.now) }
{
    match body {
        BlockStmtOrExprOf::BlockStmt(x) => own_use_strict(x.stmts.as_slice()),
        BlockStmtOrExprOf::Expr(x) => x.part.own_use_strict(),
    }
}
