//! The walk over a whole program.
ghost use Rattle.std.specs.Prelude.{◌≡◌, ◌++◌, false, IfOk};
ghost use Rattle.grammar_spec.specs.Judge.Early.{outermost, step};
ghost use Rattle.tree_spec.specs.Folds.{fold};
ghost use Rattle.tree_nodes.specs.Placed.{inner};
ghost use Rattle.tree_nodes.specs.View.{view_module, view_script};

use crate::base::Code;
use crate::faults::check::Check;
use base_token::{Error, EsSyntax};
use std::alloc::AllocError;
use tree_nodes::{Module, Program, Script};

/// Puts the faults of a program behind the others, in the order of the walk.
///
/// # Errors
///
/// Want of memory.
pub fn check_program(
    syntax: EsSyntax,
    program: &Program,
    faults: &mut Vec<Error>,
) -> Result<(), AllocError>
    ensures { IfOk result (λ _. faults.new.items ≡ faults.old.items ++ fold step program.now (outermost syntax false)) }
{
    program.check(Code::outermost(syntax), faults)
}

/// Puts the faults of a script behind the others, in the order of the walk.
///
/// # Errors
///
/// Want of memory.
pub fn check_script(
    syntax: EsSyntax,
    script: &Script,
    faults: &mut Vec<Error>,
) -> Result<(), AllocError>
    ensures { IfOk result (λ _. faults.new.items ≡ faults.old.items ++ fold step (view_script inner script.now) (outermost syntax false)) }
{
    script.check(Code::outermost(syntax), faults)
}

/// Puts the faults of a module behind the others, in the order of the walk.
///
/// # Errors
///
/// Want of memory.
pub fn check_module(
    syntax: EsSyntax,
    program: &Module,
    faults: &mut Vec<Error>,
) -> Result<(), AllocError>
    ensures { IfOk result (λ _. faults.new.items ≡ faults.old.items ++ fold step (view_module inner program.now) (outermost syntax false)) }
{
    program.check(Code::outermost(syntax), faults)
}
