//! Renames variables.

use crate::rename::names::Names;
use anyhow::{Result, ensure};
use ecma_front::ast::{Atom, Ident, Program, VisitMutWith, VisitMutWords, Words};
use ecma_front::{Options, format, read, text_of};
use std::alloc::{AllocError, Global};
use std::convert::AsStr;

/// Which name is written for which, and whether memory wanted.
#[derive(Drop)]
struct Renaming<'a> {
    old: &'a Atom,
    new: &'a Atom,
    failed: Option<AllocError>,
}

impl VisitMutWords for Renaming<'_> {
    fn ident(&mut self, ident: &mut Ident) {
        if ident.sym == *self.old {
            match self.new.clone() {
                Ok(new) => ident.sym = new,
                Err(error) => self.failed = Some(error),
            }
        }
    }
}

/// Writes `new` for each name `old`.
fn write(module: &mut Program, old: &Atom, new: &Atom) -> Result<(), AllocError> {
    let mut words = Words {
        visit: Renaming {
            old,
            new,
            failed: None,
        },
    };
    module.visit_mut_with(&mut words);
    match words.visit.failed {
        Some(error) => Err(error),
        None => Ok(()),
    }
}

/// Whether a text is a name and nothing else: as a module it uses that very name.
fn is_name(alloc: Global, text: &str) -> Result<bool> {
    let module = read(alloc, text, Options::default())?;
    let names = Names::of(alloc, &module)?;
    Ok(matches!(names.free.as_slice(), [name] if name.as_str() == text))
}

/// Whether all that is called `old` is a variable that the module declares, and nothing is called `new`.
fn ensure_apart(names: &Names, old: &Atom, new: &Atom) -> Result<()> {
    ensure!(names.all.contains(old), "{old} doesn't stand in the module");
    ensure!(
        !names.free.contains(old),
        "{old} isn't declared where it is used"
    );
    ensure!(!names.fixed.contains(old), "{old} is called so by others");
    ensure!(!names.all.contains(new), "{new} stands in the module");
    Ok(())
}

/// Renames the variables `old` of a module, whose names are these, and its labels of that name. No name is captured: `new` stands nowhere in it.
///
/// # Errors
///
/// Where `new` is no name, where both aren't apart, and where memory wants. Where what was renamed is no module, as by `async` before `of`,
/// the tree has been changed.
pub fn rename(
    alloc: Global,
    module: &mut Program,
    names: &Names,
    old: &str,
    new: &str,
) -> Result<()> {
    ensure!(is_name(alloc, new)?, "{new} is no name");
    let (old, new) = (Atom::new(alloc, old)?, Atom::new(alloc, new)?);
    ensure_apart(names, &old, &new)?;
    write(module, &old, &new)?;
    let text = text_of(alloc, module, Options::default())?;
    format(alloc, text.as_str(), Options::default())?;
    Ok(())
}
