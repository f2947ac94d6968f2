//! The walk over a part of a program that stands alone.
ghost use Rattle.std.specs.Prelude.{◌≡◌, ◌++◌, false, IfOk, None};
ghost use Rattle.grammar_spec.specs.Judge.Early.{outermost, step};
ghost use Rattle.tree_spec.specs.Folds.{fold};
ghost use Rattle.tree_spec.specs.Places.{no_place};
ghost use Rattle.tree_spec.specs.Tree.{more, none, script};
ghost use Rattle.tree_nodes.specs.Placed.{inner};

use crate::base::Code;
use crate::faults::bodies::{check_statements, top_using};
use crate::faults::check::Check;
use base_token::{Error, EsSyntax};
use std::alloc::AllocError;
use std::slice;
use tree_nodes::StmtBox;

/// Puts the faults of a part of a program behind the others, in the order of the walk. It stands in no loop and in no
/// function, in strict code or not.
///
/// # Errors
///
/// Want of memory.
pub fn check_part<T: Check>(
    syntax: EsSyntax,
    strict: bool,
    part: &T,
    faults: &mut Vec<Error>,
) -> Result<(), AllocError>
    ensures { IfOk result (λ _. faults.new.items ≡ faults.old.items ++ fold step (T.tree part.now) (outermost syntax strict)) }
{
    let code = Code::outermost(syntax);
    if strict {
        return part.check(code.strictly(), faults);
    }
    part.check(code, faults)
}

/// Puts the faults of a statement that stands directly in a script's body behind the others, in the order of the walk.
///
/// # Errors
///
/// Want of memory.
pub fn check_item(
    syntax: EsSyntax,
    stmt: &StmtBox,
    faults: &mut Vec<Error>,
) -> Result<(), AllocError>
    ensures { IfOk result (λ _. faults.new.items ≡ faults.old.items ++ fold step (script no_place (more (inner stmt.now.part.value) none) None) (outermost syntax false)) }
{
    let body = slice::from_ref(stmt);
    top_using(body, faults)?;
    check_statements(body, Code::outermost(syntax).as_body(), faults)
}
