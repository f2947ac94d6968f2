//! What can be checked, and what is asked of a child.
ghost use Rattle.std.specs.Prelude.{◌≡◌, ◌++◌, Bool, true, false, not, IfOk, MatchOption, Some, None};
ghost use Rattle.grammar_spec.specs.Tokens.Shape.{is_absent, is_bound_name, is_directive};
ghost use Rattle.tree_spec.specs.Tree.{Tree, trees_by, part_by, element_by, list};
ghost use Rattle.tree_spec.specs.Folds.{fold, folds};
ghost use Rattle.tree_nodes.specs.View.{view_ident};
ghost use Rattle.grammar_spec.specs.Judge.Early.{every, is_bare, is_loop, is_updatable, name_in, step};
ghost use Rattle.judge.specs.Base.Around.{scope_of};
ghost use Rattle.judge.specs.Faults.Asked.{is_child, own_of, use_strict_of, using_of};

use crate::base::Code;
use base_token::{Error, Span};
use std::alloc::AllocError;
use tree_nodes::{Child, Ident};

/// What can be checked: a part of a tree, a list of such parts, or a part that may be left out.
pub trait Check {
    /// What it stands for.
    ghost tree: { Self → Tree };

    /// Puts its faults behind the others, in the order of the walk.
    ///
    /// # Errors
    ///
    /// Want of memory.
    fn check(&self, code: Code<'_>, faults: &mut Vec<Error>) -> Result<(), AllocError>
        ensures { IfOk result (λ _. faults.new.items ≡ faults.old.items ++ fold step (tree self.now) (scope_of code.entry)) };
}

/// What is kept in a child's box: an expression, a statement or a pattern, of which more is asked.
pub trait Held: Check {
    /// Law: it is nothing that is left out, no `super` and no parameter.
    fn is_child(&self)
        ensures { is_child (Self.Check.tree self.now) ≡ true };

    /// Whether it is a loop, or a loop behind labels.
    fn is_loop(&self) -> bool
        ensures { result ≡ is_loop (Self.Check.tree self.now) };

    /// Whether it is a string as a statement, as a directive is.
    fn is_directive(&self) -> bool
        ensures { result ≡ is_directive (Self.Check.tree self.now) };

    /// Its place, where it is the directive `'use strict'`.
    fn use_strict(&self) -> Option<Span>
        ensures { result ≡ use_strict_of (Self.Check.tree self.now) };

    /// The place of the first `'use strict'` among the directives of the block that it is.
    fn own_use_strict(&self) -> Option<Span>
        ensures { result ≡ own_of (Self.Check.tree self.now) };

    /// Its place, where it is a `using` declaration.
    fn using_place(&self) -> Option<Span>
        ensures { result ≡ using_of (Self.Check.tree self.now) };

    /// Whether it is what `++` and `--` may change.
    fn is_updatable(&self) -> bool
        ensures { result ≡ is_updatable (Self.Check.tree self.now) };

    /// The name that it is, in parentheses or not.
    fn name(&self) -> Option<&Ident>
        ensures { MatchOption result (name_in (Self.Check.tree self.now) ≡ None) (λ x. name_in (Self.Check.tree self.now) ≡ Some (view_ident x.now)) };

    /// Whether it is a name as a pattern.
    fn is_bound_name(&self) -> bool
        ensures { result ≡ is_bound_name (Self.Check.tree self.now) };
}

impl<T: Check, K> Check for Child<T, K> {
    ghost tree = { λ c. T.tree c.part.value };

    fn check(&self, code: Code<'_>, faults: &mut Vec<Error>) -> Result<(), AllocError> {
        self.part.check(code, faults)
    }
}

impl<T: Check> Check for Box<T> {
    ghost tree = { λ b. T.tree b.value };

    fn check(&self, code: Code<'_>, faults: &mut Vec<Error>) -> Result<(), AllocError> {
        (**self).check(code, faults)
    }
}

impl<T: Check> Check for Option<T> {
    ghost tree = { part_by T.tree };

    fn check(&self, code: Code<'_>, faults: &mut Vec<Error>) -> Result<(), AllocError> {
        match self {
            Some(x) => x.check(code, faults),
            None => Ok(()),
        }
    }
}

impl<T: Check> Check for Vec<T> {
    ghost tree = { λ v. list (trees_by T.tree v.items) };

    fn check(&self, code: Code<'_>, faults: &mut Vec<Error>) -> Result<(), AllocError> {
        check_all(self.as_slice(), code, faults)
    }
}

/// Checks a list.
fn check_all<T: Check>(
    items: &[T],
    code: Code<'_>,
    faults: &mut Vec<Error>,
) -> Result<(), AllocError>
    ensures { IfOk result (λ _. faults.new.items ≡ faults.old.items ++ every (folds step (trees_by T.tree items.now)) (scope_of code.entry)) }
{
    for x in items {
        x.check(code, faults)?;
    }
    Ok(())
}

/// Checks a list whose elements may be left out.
pub(crate) fn check_elements<T: Check>(
    items: &[Option<T>],
    code: Code<'_>,
    faults: &mut Vec<Error>,
) -> Result<(), AllocError>
    ensures { IfOk result (λ _. faults.new.items ≡ faults.old.items ++ every (folds step (trees_by (λ x. element_by T.tree x) items.now)) (scope_of code.entry)) }
{
    for x in items {
        if let Some(x) = x {
            x.check(code, faults)?;
        }
    }
    Ok(())
}

/// Whether a child that may be left out is there.
#[tactic(auto, using(crate::proofs::faults::Asking::child_there))]
pub(crate) fn is_there<T: Held, K>(child: &Option<Child<T, K>>) -> bool
    ensures { is_absent (part_by (λ x. T.Check.tree x.part.value) child.now) ≡ not result }
{
    match child {
        Some(x) => {
            // For the proof: `is_child` is a law of children; the call brings what it says.
            x.part.is_child();
            true
        }
        None => false,
    }
}
