//! Trees compared.
use crate::examples::remove_debugger::remove_debugger;
use ecma_ast::{Program, same_program};

/// Whether a program is what another one becomes without its `debugger` statements; places and spellings don't count.
pub fn is_cleaned(program: &Program, mut other: Program) -> bool {
    remove_debugger(&mut other);
    same_program(program, &other)
}
