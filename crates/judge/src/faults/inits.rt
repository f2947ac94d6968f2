//! Declarations without an initialiser (ECMA-262, 14.3.1.1), and what `using` may declare.
ghost use Rattle.std.specs.Prelude.{◌≡◌, ◌++◌, IfOk};
ghost use Rattle.tree_spec.specs.Tree.{trees_by};
ghost use Rattle.tree_nodes.specs.View.{view_var_declarator};
ghost use Rattle.grammar_spec.specs.Judge.Early.{bad_using, unset, unset_using};

use crate::base::listed::add;
use crate::faults::check::{Held, is_there};
use base_token::{Error, SyntaxError};
use std::alloc::AllocError;
use tree_nodes::VarDeclaratorOf;

/// The faults of constants and patterns without an initialiser.
#[tactic(auto, using(crate::proofs::faults::Asking::unset_step))]
pub(crate) fn unset<T: Held>(
    is_const: bool,
    decls: &[VarDeclaratorOf<T>],
    faults: &mut Vec<Error>,
) -> Result<(), AllocError>
    ensures { IfOk result (λ _. faults.new.items ≡ faults.old.items ++ unset is_const (trees_by (view_var_declarator T.Check.tree) decls.now)) }
{
    for decl in decls {
        let wants = is_const || !decl.name.part.is_bound_name();
        let bad = !is_there(&decl.init) && wants;
        add(faults, bad, SyntaxError::InitRequired, decl.span)?;
    }
    Ok(())
}

/// The faults of `using` declarations without an initialiser.
#[tactic(auto, using(crate::proofs::faults::Asking::unset_using_step))]
pub(crate) fn unset_using<T: Held>(
    decls: &[VarDeclaratorOf<T>],
    faults: &mut Vec<Error>,
) -> Result<(), AllocError>
    ensures { IfOk result (λ _. faults.new.items ≡ faults.old.items ++ unset_using (trees_by (view_var_declarator T.Check.tree) decls.now)) }
{
    for decl in decls {
        let bad = !is_there(&decl.init);
        add(
            faults,
            bad,
            SyntaxError::InitRequiredForUsingDecl,
            decl.span,
        )?;
    }
    Ok(())
}

/// The faults of `using` declarations of patterns.
pub(crate) fn bad_using<T: Held>(
    decls: &[VarDeclaratorOf<T>],
    faults: &mut Vec<Error>,
) -> Result<(), AllocError>
    ensures { IfOk result (λ _. faults.new.items ≡ faults.old.items ++ bad_using (trees_by (view_var_declarator T.Check.tree) decls.now)) }
{
    for decl in decls {
        let bad = !decl.name.part.is_bound_name();
        add(faults, bad, SyntaxError::InvalidNameInUsingDecl, decl.span)?;
    }
    Ok(())
}
