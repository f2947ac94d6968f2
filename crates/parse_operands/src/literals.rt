//! Makers of literals and of the pieces of templates, from what their tokens hold.
ghost use Rattle.std.specs.Prelude.{◌≡◌, false, IfErr, IfOk, Some};
ghost use Rattle.std.specs.Cow.{cow_str_bytes};
ghost use Rattle.base_token.specs.TokenViews.{cooked_units};
ghost use Rattle.tree_nodes.specs.Fits.{fits_tpl};
ghost use Rattle.tree_nodes.specs.Placed.{inner};
ghost use Rattle.tree_nodes.specs.View.{view_tpl, view_tpl_element};
ghost use Rattle.tree_nodes.specs.Tree.{big_int_lit, number_lit, regex_lit, str_lit, tpl_element};
ghost use Rattle.parse_state.specs.Answers.{IsMemory};
ghost use Rattle.parse_operands.specs.Operands.{tree_of};

use crate::made::operand;
use crate::operand::Operand;
use base_token::{Atom, Error, NumValue, Span, StrValue, Units};
use parse_state::Failure;
use parse_state::operators::{OTHER_END, PRIMARY};
use std::alloc::Global;
use tree_nodes::{BigInt, ExprKind, Lit, Number, Regex, Str, Tpl, TplElement};

/// A string.
#[inline(never)]
pub fn str_lit(alloc: Global, span: Span, units: Units<'_>, raw: &str) -> Result<Operand, Failure>
    ensures value { IfOk result (λ o. tree_of o ≡ str_lit span units.entry (Some raw.now)) }
    ensures full { IfErr result IsMemory }
{
    let node = Str {
        span,
        units: StrValue::from_units(alloc, units)?,
        raw: Some(Atom::new(alloc, raw)?),
    };
    operand(alloc, ExprKind::Lit(Lit::Str(node)), PRIMARY, OTHER_END)
}

/// A number.
#[inline(never)]
pub fn number_lit(alloc: Global, span: Span, value: NumValue, raw: &str) -> Result<Operand, Failure>
    ensures value { IfOk result (λ o. tree_of o ≡ number_lit span value (Some raw.now)) }
    ensures full { IfErr result IsMemory }
{
    let node = Number {
        span,
        value: Box::new(alloc, value)?,
        raw: Some(Atom::new(alloc, raw)?),
    };
    operand(alloc, ExprKind::Lit(Lit::Num(node)), PRIMARY, OTHER_END)
}

/// A big integer.
#[inline(never)]
pub fn big_int_lit(
    alloc: Global,
    span: Span,
    radix: u32,
    digits: &str,
    raw: &str,
) -> Result<Operand, Failure>
    ensures value { IfOk result (λ o. tree_of o ≡ big_int_lit span radix digits.now (Some raw.now)) }
    ensures full { IfErr result IsMemory }
{
    let node = BigInt {
        span,
        radix,
        digits: Atom::new(alloc, digits)?,
        raw: Some(Atom::new(alloc, raw)?),
    };
    operand(alloc, ExprKind::Lit(Lit::BigInt(node)), PRIMARY, OTHER_END)
}

/// A regular expression.
#[inline(never)]
pub fn regex_lit(alloc: Global, span: Span, exp: &str, flags: &str) -> Result<Operand, Failure>
    ensures value { IfOk result (λ o. tree_of o ≡ regex_lit span exp.now flags.now) }
    ensures full { IfErr result IsMemory }
{
    let node = Regex {
        span,
        exp: Atom::new(alloc, exp)?,
        flags: Atom::new(alloc, flags)?,
    };
    operand(alloc, ExprKind::Lit(Lit::Regex(node)), PRIMARY, OTHER_END)
}

/// The characters of a template, of which more follow.
#[inline(never)]
pub fn tpl_element(
    alloc: Global,
    span: Span,
    raw: &str,
    cooked: Result<Units<'_>, Error>,
) -> Result<TplElement, Failure>
    ensures value { IfOk result (λ x. view_tpl_element x ≡ tpl_element span false raw.now (cooked_units cooked.entry)) }
    ensures full { IfErr result IsMemory }
{
    let cooked = match cooked {
        Ok(units) => Some(StrValue::from_units(alloc, units)?),
        Err(_) => None,
    };
    Ok(TplElement {
        span,
        tail: false,
        raw: Atom::new(alloc, raw)?,
        cooked,
    })
}

/// A template as an expression.
#[inline(never)]
pub fn template(alloc: Global, tpl: Box<Tpl>) -> Result<Operand, Failure>
    requires { fits_tpl (λ p. p) tpl.value }
    ensures value { IfOk result (λ o. tree_of o ≡ view_tpl inner tpl.value) }
    ensures full { IfErr result IsMemory }
{
    operand(
        alloc,
        ExprKind::Tpl(Box::into_inner(tpl)),
        PRIMARY,
        OTHER_END,
    )
}
