//! What strings and pieces of templates stand for.
ghost use Rattle.std.specs.Prelude.{◌≡◌, IfOk, IfSome};
ghost use Rattle.std.specs.Str.{chars};
ghost use Rattle.base_token.specs.Utf16.{utf16};

use crate::utf16::push_text;
use std::alloc::{AllocError, Global};
use std::marker::Model;

/// UTF-16 units: the value of a string, or of a piece of a template. They are those of a text of the
/// source, and then take no memory, or a list of their own. A contract sees the list.
#[derive(Debug)]
pub struct Units<'a> {
    form: Form<'a>,
}

impl Drop for Units<'_> {
    #[inline(always)]
    fn drop(self) {
        let Units { form: _form } = self;
    }
}

#[derive(Debug, Drop)]
enum Form<'a> {
    Plain(&'a str),
    Own(Vec<u16>),
}

impl<'a> Model for Units<'a> {
    ghost use Rattle.std.specs.Prelude.{ℕ, List};

    ghost Value = { List ℕ };

    ghost use Rattle.base_token.specs.UnitsForm.{units_view};

    ghost view = { λ u. units_view u.form };
}

impl<'a> Units<'a> {
    /// The text whose units they are, where they are kept as one.
    pub fn as_plain(&self) -> Option<&'a str>
        ensures { IfSome result (λ text. self.now ≡ utf16 (chars text.now)) }
    {
        match &self.form {
            Form::Plain(text) => Some(text),
            Form::Own(_) => None,
        }
    }

    /// The units as a `Vec`. Those that are one already are handed out as they are.
    ///
    /// # Errors
    ///
    /// Want of memory.
    pub fn into_vec(self, alloc: Global) -> Result<Vec<u16>, AllocError>
        ensures { IfOk result (λ units. units.items ≡ self.entry) }
    {
        let Units { form } = self;
        match form {
            Form::Plain(text) => {
                let mut units = Vec::with_capacity(alloc, text.len())?;
                push_text(&mut units, text)?;
                Ok(units)
            }
            Form::Own(units) => Ok(units),
        }
    }
}

impl<'a> From<&'a str> for Units<'a> {
    ghost from_gives = { λ text u. u ≡ utf16 (chars text.now) };

    fn from(text: &'a str) -> Units<'a> {
        Units {
            form: Form::Plain(text),
        }
    }
}

impl<'a> From<Vec<u16>> for Units<'a> {
    ghost from_gives = { λ units u. u ≡ units.items };

    fn from(units: Vec<u16>) -> Units<'a> {
        Units {
            form: Form::Own(units),
        }
    }
}

impl<'a> Clone for Units<'a> {
    ghost is_clone = { λ u v. v ≡ u };

    fn clone(&self) -> Result<Units<'a>, AllocError> {
        let form = match &self.form {
            Form::Plain(text) => Form::Plain(text),
            Form::Own(units) => Form::Own(units.clone()?),
        };
        Ok(Units { form })
    }
}
