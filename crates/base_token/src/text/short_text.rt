//! Short texts that own their bytes.
ghost use Rattle.std.specs.Prelude.{◌≡◌, ◌≤◌, ◌↔◌, [], length, nat_eq, Some, IsOk, IfOk, IsTrue};
ghost use Rattle.std.specs.Cmp.{partial_equiv_from_equiv};
ghost use Rattle.std.specs.Cmp.Lexicographic.{pointwise, nat_list_eq_equiv};
ghost use Rattle.std.specs.Fmt.{debug_str, styled_text};
ghost use Rattle.base_token.specs.Text.Inline.{inline_len};

use std::alloc::{AllocError, Global};
use std::convert::AsStr;
use std::marker::Model;
use std::{fmt, str};

/// How many bytes of a text an atom keeps in itself.
const INLINE_LEN: usize = 22;

/// A short text that owns its bytes, as a name: up to 22 bytes in the value itself, more in an
/// allocation. A contract sees its bytes.
pub struct Atom {
    form: Form,
}

impl Drop for Atom {
    #[inline(always)]
    fn drop(self) {
        let Atom { form: _form } = self;
    }
}

#[derive(Drop)]
enum Form {
    Inline { len: u8, bytes: [u8; INLINE_LEN] },
    Heap(Box<String>),
}

impl Model for Atom {
    ghost use Rattle.std.specs.Prelude.{ℕ, List};

    ghost Value = { List ℕ };

    ghost use Rattle.base_token.specs.Text.AtomForm.{atom_view, IsAtom};

    ghost view = { λ a. atom_view a.form };

    ghost invariant = { λ a. IsAtom a.form };
}

ghost use Rattle.base_token.specs.Text.AtomForm.{atom_view, IsAtom};

/// A text within the value.
fn inline(text: &str) -> Form
    requires { length text.now ≤ inline_len }
    ensures { (atom_view result ≡ text.now) × IsAtom result }
{
    let mut bytes = [0; INLINE_LEN];
    bytes[..text.len()].copy_from_slice(text.as_bytes());
    Form::Inline {
        len: text.len() as u8,
        bytes,
    }
}

impl Atom {
    /// The atom of a text. One of up to 22 bytes takes no memory.
    ///
    /// # Errors
    ///
    /// Want of memory, for a longer text.
    pub fn new(alloc: Global, text: &str) -> Result<Atom, AllocError>
        ensures text { IfOk result (λ a. a ≡ text.now) }
        ensures inline { length text.now ≤ inline_len → IsOk result }
    {
        let form = if text.len() <= INLINE_LEN {
            inline(text)
        } else {
            Form::Heap(Box::new(alloc, String::from_str(alloc, text)?)?)
        };
        Ok(Atom { form })
    }

    /// Its length in bytes.
    pub fn len(&self) -> usize
        ensures { result ≡ length self.now }
    {
        self.as_str().len()
    }

    /// Whether it is the empty text.
    pub fn is_empty(&self) -> bool
        ensures { IsTrue result ↔ (self.now ≡ []) }
    {
        self.len() == 0
    }
}

impl AsStr for Atom {
    ghost text = { λ a. a };

    fn as_str(&self) -> &str {
        match &self.form {
            Form::Inline { len, bytes } => unsafe {
                str::from_utf8_unchecked(&bytes[..*len as usize])
            },
            Form::Heap(text) => text.as_str(),
        }
    }
}

impl Clone for Atom {
    ghost is_clone = { λ a b. b ≡ a };

    ghost is_infallible = { λ a. length a ≤ inline_len };

    fn clone(&self) -> Result<Atom, AllocError> {
        let form = match &self.form {
            Form::Inline { len, bytes } => Form::Inline {
                len: *len,
                bytes: *bytes,
            },
            Form::Heap(text) => Form::Heap(text.clone()?),
        };
        Ok(Atom { form })
    }
}

impl PartialEq for Atom {
    ghost eq = { pointwise nat_eq };

    ghost laws = { partial_equiv_from_equiv nat_list_eq_equiv };

    fn eq(&self, other: &Atom) -> bool {
        self.as_str() == other.as_str()
    }
}

impl Eq for Atom {
    ghost laws = { nat_list_eq_equiv };
}

impl fmt::Display for Atom {
    ghost output = { λ a. Some a };

    ghost styled_output = { λ f a. Some (styled_text a f) };

    fn fmt<W: fmt::Write>(&self, f: &mut fmt::Formatter<W>) -> fmt::Result {
        f.pad(self.as_str())
    }
}

impl fmt::Debug for Atom {
    ghost debug_output = { λ a. debug_str a };

    fn fmt<W: fmt::Write>(&self, f: &mut fmt::Formatter<W>) -> fmt::Result {
        let text = self.as_str();
        fmt::Debug::fmt(&text, f)
    }
}

/// Law: two atoms are equal in code exactly where they are in contracts.
pub fn atom_equality_law(a: &Atom, b: &Atom)
    ensures { IsTrue (⟦<Atom as PartialEq>⟧.eq a.now b.now) ↔ (a.now ≡ b.now) }
{}
