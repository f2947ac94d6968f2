//! Targets of assignments, what is called, and heads of loops.
ghost use Rattle.std.specs.Prelude.{◌≡◌, ◌++◌, true, IfOk};
ghost use Rattle.tree_nodes.specs.View.{view_assign_target, view_callee, view_for_head};
ghost use Rattle.grammar_spec.specs.Judge.Early.{evil};
ghost use Rattle.judge.specs.Base.Around.{scope_of};
ghost use Rattle.base_token.specs.declared.error.SyntaxError.TheVariants.{UsingDeclNotAllowedForForInLoop};
ghost use Rattle.judge.specs.Faults.Asked.{found, is_super, target_name, using_of};

use crate::base::Code;
use crate::base::listed::add;
use crate::faults::check::Held;
use crate::faults::names::evil_name;
use base_token::{Error, Span, SyntaxError};
use std::alloc::AllocError;
use tree_nodes::{AssignTargetOf, CalleeOf, ForHeadOf};

/// The fault of a name in parentheses that is assigned to.
pub(crate) fn evil_target<T: Held>(
    target: &AssignTargetOf<T>,
    code: Code<'_>,
    faults: &mut Vec<Error>,
) -> Result<(), AllocError>
    ensures { IfOk result (λ _. faults.new.items ≡ faults.old.items ++ evil (target_name (view_assign_target T.Check.tree target.now)) (scope_of code.entry)) }
{
    match target {
        AssignTargetOf::Paren(x) => evil_name(&*x.expr.part, code, faults),
        _ => Ok(()),
    }
}

/// Whether what is called is `super`.
#[tactic(auto, using(crate::proofs::faults::Asking::child_no_super))]
pub(crate) fn is_super<T: Held>(callee: &CalleeOf<T>) -> bool
    ensures { result ≡ is_super (view_callee T.Check.tree callee.now) }
{
    match callee {
        CalleeOf::Super(_) => true,
        CalleeOf::Import(_) => false,
        CalleeOf::Expr(x) => {
            // For the proof: `is_child` is a law of children; the call brings what it says.
            x.part.is_child();
            false
        }
    }
}

/// The place of a `using` declaration that heads a loop.
fn using_head<T: Held>(head: &ForHeadOf<T>) -> Option<Span>
    ensures { result ≡ using_of (view_for_head T.Check.tree head.now) }
{
    match head {
        ForHeadOf::UsingDecl(x) => Some(x.span),
        ForHeadOf::VarDecl(_) => None,
        ForHeadOf::Pat(x) => x.part.using_place(),
    }
}

/// The fault of a `for`-`in` loop that a `using` declaration heads.
pub(crate) fn using_fault<T: Held>(
    head: &ForHeadOf<T>,
    faults: &mut Vec<Error>,
) -> Result<(), AllocError>
    ensures { IfOk result (λ _. faults.new.items ≡ faults.old.items ++ found true (using_of (view_for_head T.Check.tree head.now)) UsingDeclNotAllowedForForInLoop) }
{
    match using_head(head) {
        Some(span) => add(
            faults,
            true,
            SyntaxError::UsingDeclNotAllowedForForInLoop,
            span,
        ),
        None => Ok(()),
    }
}
