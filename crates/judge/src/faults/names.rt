//! `eval` and `arguments` where they are bound, assigned or updated (ECMA-262, 13.1.1 and 13.15.1).
ghost use Rattle.std.specs.Prelude.{◌≡◌, ◌++◌, Some, IfOk};
ghost use Rattle.tree_nodes.specs.View.{view_ident};
ghost use Rattle.tree_spec.specs.Tree.{part_by};
ghost use Rattle.grammar_spec.specs.Judge.Early.{evil, name_in};
ghost use Rattle.judge.specs.Base.Around.{scope_of};

use crate::base::Code;
use crate::base::listed::add;
use crate::base::texts::is_evil;
use crate::faults::check::Held;
use base_token::{Error, SyntaxError};
use std::alloc::AllocError;
use std::convert::AsStr;
use tree_nodes::Ident;

/// The fault of a name that is bound, assigned or updated.
pub(crate) fn evil(name: &Ident, code: Code<'_>, faults: &mut Vec<Error>) -> Result<(), AllocError>
    ensures { IfOk result (λ _. faults.new.items ≡ faults.old.items ++ evil (Some (view_ident name.now)) (scope_of code.entry)) }
{
    let holds = code.strict && is_evil(name.sym.as_str());
    add(
        faults,
        holds,
        SyntaxError::EvalAndArgumentsInStrict,
        name.span,
    )
}

/// The same of the name that a child is, in parentheses or not.
pub(crate) fn evil_name<T: Held>(
    part: &T,
    code: Code<'_>,
    faults: &mut Vec<Error>,
) -> Result<(), AllocError>
    ensures { IfOk result (λ _. faults.new.items ≡ faults.old.items ++ evil (name_in (T.Check.tree part.now)) (scope_of code.entry)) }
{
    match part.name() {
        Some(name) => evil(name, code, faults),
        None => Ok(()),
    }
}

/// The same of a name that may be left out.
pub(crate) fn evil_option(
    name: &Option<Ident>,
    code: Code<'_>,
    faults: &mut Vec<Error>,
) -> Result<(), AllocError>
    ensures { IfOk result (λ _. faults.new.items ≡ faults.old.items ++ evil (name_in (part_by view_ident name.now)) (scope_of code.entry)) }
{
    match name {
        Some(name) => evil(name, code, faults),
        None => Ok(()),
    }
}
