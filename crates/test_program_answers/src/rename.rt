//! Variables that are renamed, as a user of `ecma_front` writes it: `names` finds the names that a module uses and doesn't declare,
//! `variables` writes another name for one that it declares.

mod names;
mod parts;
mod scopes;
mod variables;

use crate::rename::names::Names;
use crate::rename::variables::rename;
use anyhow::Result;
use ecma_front::{Options, read, text_of};
use test_answers::{Answer, Question};

/// Tells the names that a module uses and doesn't declare, and prints it with its variables `old` called `new`.
fn edit(text: &str, old: &str, new: &str, answer: &mut Answer) -> Result<()> {
    let alloc = answer.alloc();
    let mut module = read(alloc, text, Options::default())?;
    let names = Names::of(alloc, &module)?;
    for name in names.free.iter() {
        answer.say(format_args!("free: {name}"))?;
    }
    rename(alloc, &mut module, &names, old, new)?;
    let edited = text_of(alloc, &module, Options::default())?;
    Ok(answer.say(edited.as_str())?)
}

/// What becomes of a module whose variables of the second name are called by the third: the names that it uses and doesn't declare, and its
/// text; or these names, and why it stays as it is.
pub fn tell(question: &Question<'_>, answer: &mut Answer) -> Result<()> {
    match edit(question.text(0), question.text(1), question.text(2), answer) {
        Ok(()) => Ok(()),
        Err(why) => Ok(answer.say(why)?),
    }
}
