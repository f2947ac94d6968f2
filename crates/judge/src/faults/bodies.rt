//! Statements of bodies and blocks, and their directives (ECMA-262, 11.2.1).
ghost use Rattle.std.specs.Prelude.{◌≡◌, ◌++◌, IfOk};
ghost use Rattle.grammar_spec.specs.Tokens.Shape.{is_directive};
ghost use Rattle.tree_spec.specs.Tree.{trees_by};
ghost use Rattle.tree_spec.specs.Folds.{folds};
ghost use Rattle.grammar_spec.specs.Judge.Early.{own_use_strict, statements, step, top_using};
ghost use Rattle.judge.specs.Base.Around.{scope_of};
ghost use Rattle.judge.specs.Faults.Asked.{use_strict_of};

use crate::base::Code;
use crate::base::listed::add;
use crate::faults::check::{Check, Held};
use base_token::{Error, Span, SyntaxError};
use std::alloc::AllocError;
use tree_nodes::{Child, ModuleItemOf, StmtTag};

/// What stands in a list of statements, which may be a directive.
pub(crate) trait Item: Check {
    /// Whether it is a string as a statement.
    fn is_directive(&self) -> bool
        ensures { result ≡ is_directive (Self.Check.tree self.now) };

    /// Its place, where it is the directive `'use strict'`.
    fn use_strict(&self) -> Option<Span>
        ensures { result ≡ use_strict_of (Self.Check.tree self.now) };
}

impl<T: Held> Item for Child<T, StmtTag> {
    fn is_directive(&self) -> bool {
        self.part.is_directive()
    }

    fn use_strict(&self) -> Option<Span> {
        self.part.use_strict()
    }
}

impl<T: Held> Item for ModuleItemOf<T> {
    #[tactic(auto, using(crate::proofs::faults::Sorted::no_directive))]
    fn is_directive(&self) -> bool {
        match self {
            ModuleItemOf::Stmt(x) => x.is_directive(),
            ModuleItemOf::ModuleDecl(_) => false,
        }
    }

    #[tactic(auto, using(crate::proofs::faults::Sorted::no_use_strict))]
    fn use_strict(&self) -> Option<Span> {
        match self {
            ModuleItemOf::Stmt(x) => x.use_strict(),
            ModuleItemOf::ModuleDecl(_) => None,
        }
    }
}

/// Checks the statements of a body or a block: those behind `'use strict'` among its directives are strict.
#[tactic(auto, using(crate::proofs::faults::Asking::statements_step))]
pub(crate) fn check_statements<S: Item>(
    items: &[S],
    code: Code<'_>,
    faults: &mut Vec<Error>,
) -> Result<(), AllocError>
    ensures { IfOk result (λ _. faults.new.items ≡ faults.old.items ++ statements (trees_by S.Check.tree items.now) (folds step (trees_by S.Check.tree items.now)) (scope_of code.entry)) }
{
    let mut code = code;
    for x in items {
        x.check(code.as_block(), faults)?;
        code = code.after(x.use_strict().is_some(), x.is_directive());
    }
    Ok(())
}

/// The place of the first `'use strict'` among the directives of a body.
#[tactic(auto, using(crate::proofs::faults::Asking::own_step))]
pub(crate) fn own_use_strict<S: Item>(items: &[S]) -> Option<Span>
    ensures { result ≡ own_use_strict (trees_by S.Check.tree items.now) }
{
    for x in items {
        if let Some(span) = x.use_strict() {
            return Some(span);
        }
        if !x.is_directive() {
            return None;
        }
    }
    None
}

/// The faults of `using` declarations that stand directly in a script's body.
#[tactic(auto, using(crate::proofs::faults::Asking::top_using_step))]
pub(crate) fn top_using<T: Held>(
    items: &[Child<T, StmtTag>],
    faults: &mut Vec<Error>,
) -> Result<(), AllocError>
    ensures { IfOk result (λ _. faults.new.items ≡ faults.old.items ++ top_using (trees_by (λ x. T.Check.tree x.part.value) items.now)) }
{
    for x in items {
        if let Some(span) = x.part.using_place() {
            add(faults, true, SyntaxError::UsingDeclNotAllowed, span)?;
        }
    }
    Ok(())
}
