//! The names of a module.

use crate::rename::scopes::Scopes;
use ecma_front::ast::{Atom, Program, Walk};
use std::alloc::{AllocError, Global};

/// The names that stand in a module, each once: of variables, labels, imports and exports.
#[derive(Drop)]
pub struct Names {
    /// Those that are used where the module doesn't declare them, but for `arguments`.
    pub free: Vec<Atom>,
    /// Those by which another module or an object calls something as well: names of imports and exports, and those that are short for a
    /// property of that name.
    pub fixed: Vec<Atom>,
    /// All.
    pub all: Vec<Atom>,
}

impl Names {
    /// The names of a module.
    ///
    /// # Errors
    ///
    /// Want of memory.
    pub fn of(alloc: Global, module: &Program) -> Result<Names, AllocError> {
        let mut scopes = Scopes::new(alloc);
        module.walk(&mut scopes);
        scopes.into_names()
    }

    /// No names.
    pub fn none(alloc: Global) -> Names {
        Names {
            free: Vec::new(alloc),
            fixed: Vec::new(alloc),
            all: Vec::new(alloc),
        }
    }
}

/// Adds a name to a list that may have it.
///
/// # Errors
///
/// Want of memory.
pub fn add(names: &mut Vec<Atom>, name: &Atom) -> Result<(), AllocError> {
    if !names.contains(name) {
        names.push(name.clone()?)?;
    }
    Ok(())
}
