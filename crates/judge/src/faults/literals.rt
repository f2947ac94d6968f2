//! Literals (ECMA-262, 13.2.3, 13.2.7 and 13.2.8).
ghost use Rattle.tree_nodes.specs.View.{view_lit, view_str, view_number};

use crate::base::Code;
use crate::base::listed::add;
use crate::base::texts::{all_octal, has_octal, is_legacy};
use crate::faults::check::Check;
use base_token::{Error, SyntaxError};
use std::alloc::AllocError;
use std::convert::AsStr;
use tree_nodes::{Lit, Number, Str};

impl Check for Lit {
    ghost tree = { view_lit };

    fn check(&self, code: Code<'_>, faults: &mut Vec<Error>) -> Result<(), AllocError> {
        match self {
            Lit::Str(x) => x.check(code, faults),
            Lit::Bool(_) => Ok(()),
            Lit::Null(_) => Ok(()),
            Lit::Num(x) => x.check(code, faults),
            Lit::BigInt(_) => Ok(()),
            Lit::Regex(_) => Ok(()),
        }
    }
}

impl Check for Str {
    ghost tree = { view_str };

    fn check(&self, code: Code<'_>, faults: &mut Vec<Error>) -> Result<(), AllocError> {
        match &self.raw {
            Some(raw) if code.strict => {
                let octal = has_octal(raw.as_str().as_bytes());
                add(faults, octal, SyntaxError::LegacyOctal, self.span)
            }
            _ => Ok(()),
        }
    }
}

impl Check for Number {
    ghost tree = { view_number };

    fn check(&self, code: Code<'_>, faults: &mut Vec<Error>) -> Result<(), AllocError> {
        match &self.raw {
            Some(raw) if code.strict => {
                let raw = raw.as_str().as_bytes();
                let legacy = is_legacy(raw);
                let octal = all_octal(raw);
                add(faults, legacy && octal, SyntaxError::LegacyOctal, self.span)?;
                add(
                    faults,
                    legacy && !octal,
                    SyntaxError::LegacyDecimal,
                    self.span,
                )
            }
            _ => Ok(()),
        }
    }
}
