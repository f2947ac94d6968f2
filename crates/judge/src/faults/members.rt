//! The members of a class (ECMA-262, 15.7.1).
ghost use Rattle.std.specs.Prelude.{◌≡◌, ◌++◌, false, IfOk};
ghost use Rattle.tree_spec.specs.Tree.{trees_by};
ghost use Rattle.tree_spec.specs.Folds.{fold, folds};
ghost use Rattle.tree_nodes.specs.View.{view_class_member};
ghost use Rattle.grammar_spec.specs.Judge.Early.{members, second_constructors, step};
ghost use Rattle.judge.specs.Base.Around.{scope_of};
ghost use Rattle.judge.specs.Faults.Asked.{constructor_of, in_member};

use crate::base::Code;
use crate::base::listed::add;
use crate::faults::check::{Check, Held};
use base_token::{Error, Span, SyntaxError};
use std::alloc::AllocError;
use tree_nodes::ClassMemberOf;

/// The place of a constructor.
fn constructor_place<T: Held>(member: &ClassMemberOf<T>) -> Option<Span>
    ensures { result ≡ constructor_of (view_class_member T.Check.tree member.now) }
{
    match member {
        ClassMemberOf::Constructor(x) => Some(x.span),
        _ => None,
    }
}

/// The faults of a second constructor and of those behind it.
#[tactic(auto, using(crate::proofs::faults::Asking::second_constructors_step))]
pub(crate) fn second_constructors<T: Held>(
    items: &[ClassMemberOf<T>],
    faults: &mut Vec<Error>,
) -> Result<(), AllocError>
    ensures { IfOk result (λ _. faults.new.items ≡ faults.old.items ++ second_constructors false (trees_by (view_class_member T.Check.tree) items.now)) }
{
    let mut had = false;
    for member in items {
        if let Some(span) = constructor_place(member) {
            add(faults, had, SyntaxError::DuplicateConstructor, span)?;
            had = true;
        }
    }
    Ok(())
}

/// Checks a member of a class that is derived or not.
fn check_member<T: Held>(
    member: &ClassMemberOf<T>,
    derived: bool,
    code: Code<'_>,
    faults: &mut Vec<Error>,
) -> Result<(), AllocError>
    ensures { IfOk result (λ _. faults.new.items ≡ faults.old.items ++ fold step (view_class_member T.Check.tree member.now) (in_member derived (view_class_member T.Check.tree member.now) (scope_of code.entry))) }
{
    match member {
        ClassMemberOf::Constructor(x) => x.check(code.in_class(derived), faults),
        _ => member.check(code, faults),
    }
}

/// Checks the members of a class that is derived or not.
#[tactic(auto, using(crate::proofs::faults::Asking::members_step))]
pub(crate) fn check_members<T: Held>(
    items: &[ClassMemberOf<T>],
    derived: bool,
    code: Code<'_>,
    faults: &mut Vec<Error>,
) -> Result<(), AllocError>
    ensures { IfOk result (λ _. faults.new.items ≡ faults.old.items ++ members derived (trees_by (view_class_member T.Check.tree) items.now) (folds step (trees_by (view_class_member T.Check.tree) items.now)) (scope_of code.entry)) }
{
    for member in items {
        check_member(member, derived, code, faults)?;
    }
    Ok(())
}
