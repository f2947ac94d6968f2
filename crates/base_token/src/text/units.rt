//! Values of strings (ECMA-262, 6.1.4).
ghost use Rattle.std.specs.Prelude.{◌≡◌, ◌↔◌, nat_eq, IfOk, IsTrue};
ghost use Rattle.std.specs.Str.{chars};
ghost use Rattle.std.specs.Cmp.{partial_equiv_from_equiv};
ghost use Rattle.std.specs.Cmp.Lexicographic.{pointwise, nat_list_eq_equiv};
ghost use Rattle.base_token.specs.Utf16.{utf16};

use crate::Units;
use std::alloc::{AllocError, Global};
use std::marker::Model;

/// The value of a string, or of a piece of a template: its UTF-16 units, in a list of its own. A
/// contract sees the list.
#[derive(Debug, Drop)]
pub struct StrValue {
    units: Vec<u16>,
}

impl Model for StrValue {
    ghost use Rattle.std.specs.Prelude.{ℕ, List};

    ghost Value = { List ℕ };

    ghost view = { λ s. s.units.items };
}

impl StrValue {
    /// The value that has these units. It takes no memory.
    pub fn from_vec(units: Vec<u16>) -> StrValue
        ensures { result ≡ units.items }
    {
        Self { units }
    }

    /// The units of a token, which are copied where they are a part of the source.
    ///
    /// # Errors
    ///
    /// Want of memory.
    pub fn from_units(alloc: Global, units: Units<'_>) -> Result<StrValue, AllocError>
        ensures { IfOk result (λ s. s ≡ units.entry) }
    {
        let units = units.into_vec(alloc)?;
        Ok(StrValue { units })
    }

    /// The units of a text.
    ///
    /// # Errors
    ///
    /// Want of memory.
    pub fn from_text(alloc: Global, text: &str) -> Result<StrValue, AllocError>
        ensures { IfOk result (λ s. s ≡ utf16 (chars text.now)) }
    {
        StrValue::from_units(alloc, Units::from(text))
    }

    /// Its units, as they are kept. It takes no memory.
    pub fn into_vec(self) -> Vec<u16>
        ensures { result.items ≡ self }
    {
        let StrValue { units } = self;
        units
    }

    /// Its units.
    pub fn as_slice(&self) -> &[u16]
        ensures { result.now ≡ self.now }
    {
        self.units.as_slice()
    }
}

impl Clone for StrValue {
    ghost is_clone = { λ s t. t ≡ s };

    fn clone(&self) -> Result<StrValue, AllocError> {
        let units = self.units.clone()?;
        Ok(StrValue { units })
    }
}

impl PartialEq for StrValue {
    ghost eq = { pointwise nat_eq };

    ghost laws = { partial_equiv_from_equiv nat_list_eq_equiv };

    fn eq(&self, other: &StrValue) -> bool {
        self.as_slice() == other.as_slice()
    }
}

impl Eq for StrValue {
    ghost laws = { nat_list_eq_equiv };
}

/// Law: two values are equal in code exactly where they are in contracts.
pub fn value_equality_law(a: &StrValue, b: &StrValue)
    ensures { IsTrue (⟦<StrValue as PartialEq>⟧.eq a.now b.now) ↔ (a.now ≡ b.now) }
{}
