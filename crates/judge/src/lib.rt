//! The early errors of a finished program, and of a part of one, in their order: the walk that finds them (`faults`), and what
//! it knows of the code around (`base`).
#![tactic(auto)]

pub mod base;
pub mod faults;
mod order;

ghost use Rattle.grammar_spec.specs.Judge.Early.{early_errors, faults_in, outermost};
ghost use Rattle.tree_nodes.specs.Placed.{inner};
ghost use Rattle.tree_nodes.specs.View.{view_module, view_script};
ghost use Rattle.tree_spec.specs.Places.{no_place};
ghost use Rattle.tree_spec.specs.Tree.{more, none, script};
ghost use Rattle.std.specs.Prelude.{IfOk, None, ◌≡◌};

use crate::faults::{Check, check_item, check_module, check_part, check_program, check_script};
use crate::order::put_in_order;
use base_token::{Error, EsSyntax};
use std::alloc::{AllocError, Global};
use tree_nodes::{Module, Program, Script, StmtBox};

/// The early errors of a program (ECMA-262, clauses 12 to 16), in the order of their places' starts, and those of one
/// start in the order of the table.
///
/// # Errors
///
/// Want of memory.
#[tactic(auto, unfolding(grammar_spec::specs::Judge::Early::early_errors, grammar_spec::specs::Judge::Early::faults_in))]
pub fn early_errors(
    alloc: Global,
    syntax: EsSyntax,
    program: &Program,
) -> Result<Vec<Error>, AllocError>
    ensures { IfOk result (λ faults. faults.items ≡ early_errors syntax program.now) }
{
    let mut faults = Vec::new(alloc);
    check_program(syntax, program, &mut faults)?;
    put_in_order(&mut faults)?;
    Ok(faults)
}

/// The early errors of a script (ECMA-262, 16.1.1), in the same order.
///
/// # Errors
///
/// Want of memory.
#[tactic(auto, unfolding(grammar_spec::specs::Judge::Early::early_errors, grammar_spec::specs::Judge::Early::faults_in))]
pub fn script_errors(
    alloc: Global,
    syntax: EsSyntax,
    script: &Script,
) -> Result<Vec<Error>, AllocError>
    ensures { IfOk result (λ faults. faults.items ≡ early_errors syntax (view_script inner script.now)) }
{
    let mut faults = Vec::new(alloc);
    check_script(syntax, script, &mut faults)?;
    put_in_order(&mut faults)?;
    Ok(faults)
}

/// The early errors of a module (ECMA-262, 16.2.1.1), in the same order.
///
/// # Errors
///
/// Want of memory.
#[tactic(auto, unfolding(grammar_spec::specs::Judge::Early::early_errors, grammar_spec::specs::Judge::Early::faults_in))]
pub fn module_errors(
    alloc: Global,
    syntax: EsSyntax,
    program: &Module,
) -> Result<Vec<Error>, AllocError>
    ensures { IfOk result (λ faults. faults.items ≡ early_errors syntax (view_module inner program.now)) }
{
    let mut faults = Vec::new(alloc);
    check_module(syntax, program, &mut faults)?;
    put_in_order(&mut faults)?;
    Ok(faults)
}

/// The early errors of a part of a program that stands alone, in strict code or not, in the same order.
///
/// # Errors
///
/// Want of memory.
#[tactic(auto, unfolding(grammar_spec::specs::Judge::Early::faults_in))]
pub fn part_errors<T: Check>(
    alloc: Global,
    syntax: EsSyntax,
    strict: bool,
    part: &T,
) -> Result<Vec<Error>, AllocError>
    ensures { IfOk result (λ faults. faults.items ≡ faults_in (outermost syntax strict) (T.tree part.now)) }
{
    let mut faults = Vec::new(alloc);
    check_part(syntax, strict, part, &mut faults)?;
    put_in_order(&mut faults)?;
    Ok(faults)
}

/// The early errors of a statement that stands directly in a script's body, in the same order.
///
/// # Errors
///
/// Want of memory.
#[tactic(auto, unfolding(grammar_spec::specs::Judge::Early::early_errors, grammar_spec::specs::Judge::Early::faults_in))]
pub fn item_errors(
    alloc: Global,
    syntax: EsSyntax,
    stmt: &StmtBox,
) -> Result<Vec<Error>, AllocError>
    ensures { IfOk result (λ faults. faults.items ≡ early_errors syntax (script no_place (more (inner stmt.now.part.value) none) None)) }
{
    let mut faults = Vec::new(alloc);
    check_item(syntax, stmt, &mut faults)?;
    put_in_order(&mut faults)?;
    Ok(faults)
}
