//! Makers of keys, parameters and functions. Each stands in a function of its own, so that rules keep small frames.
ghost use Rattle.std.specs.Prelude.{◌≡◌, All, IfErr, IfOk, Some};
ghost use Rattle.tree_nodes.specs.Fits.{fits_block_stmt, fits_function, fits_param, fits_prop_name};
ghost use Rattle.tree_nodes.specs.Placed.{holds_pat, holds_stmt, inner};
ghost use Rattle.tree_nodes.specs.View.{view_block_stmt, view_function, view_ident, view_param, view_prop_name};
ghost use Rattle.grammar_spec.specs.Tokens.Input.{dots_at};
ghost use Rattle.tree_nodes.specs.Tree.{assign_pat, big_int_lit, fn_decl, function, none, number_lit, param, rest_pat, str_lit, trees_by};
ghost use Rattle.parse_state.specs.Answers.{IsMemory};
ghost use Rattle.parse_operands.specs.Operands.{tree_of};

use base_token::{Atom, BytePos, NumValue, Span, StrValue, Units};
use parse_operands::Operand;
use parse_state::Failure;
use std::alloc::Global;
use tree_nodes::{
    AssignPat, BigInt, BlockStmt, Decl, FnDecl, Function, Ident, Number, Param, Pat, PatBox,
    PatKind, PropName, RestPat, Stmt, StmtBox, StmtKind, Str,
};

/// A string as a key.
#[inline(never)]
pub fn str_key(alloc: Global, span: Span, units: Units<'_>, raw: &str) -> Result<PropName, Failure>
    ensures value { IfOk result (λ x. view_prop_name inner x ≡ str_lit span units.entry (Some raw.now)) }
    ensures fits { IfOk result (λ x. fits_prop_name (λ p. p) x) }
    ensures full { IfErr result IsMemory }
{
    Ok(PropName::Str(Str {
        span,
        units: StrValue::from_units(alloc, units)?,
        raw: Some(Atom::new(alloc, raw)?),
    }))
}

/// A number as a key.
#[inline(never)]
pub fn number_key(
    alloc: Global,
    span: Span,
    value: NumValue,
    raw: &str,
) -> Result<PropName, Failure>
    ensures value { IfOk result (λ x. view_prop_name inner x ≡ number_lit span value (Some raw.now)) }
    ensures fits { IfOk result (λ x. fits_prop_name (λ p. p) x) }
    ensures full { IfErr result IsMemory }
{
    Ok(PropName::Num(Number {
        span,
        value: Box::new(alloc, value)?,
        raw: Some(Atom::new(alloc, raw)?),
    }))
}

/// A big integer as a key.
#[inline(never)]
pub fn big_int_key(
    alloc: Global,
    span: Span,
    radix: u32,
    digits: &str,
    raw: &str,
) -> Result<PropName, Failure>
    ensures value { IfOk result (λ x. view_prop_name inner x ≡ big_int_lit span radix digits.now (Some raw.now)) }
    ensures fits { IfOk result (λ x. fits_prop_name (λ p. p) x) }
    ensures full { IfErr result IsMemory }
{
    let node = BigInt {
        span,
        radix,
        digits: Atom::new(alloc, digits)?,
        raw: Some(Atom::new(alloc, raw)?),
    };
    Ok(PropName::BigInt(Box::new(alloc, node)?))
}

/// A parameter.
pub fn param(alloc: Global, span: Span, pat: PatBox) -> Param
    requires { holds_pat pat.part.value }
    ensures value { view_param inner result ≡ param span none (inner pat.part.value) }
    ensures fits { fits_param (λ p. p) result }
{
    Param {
        span,
        decorators: Vec::new(alloc),
        pat,
    }
}

/// A parameter with an initialiser.
#[inline(never)]
pub fn default_param(
    alloc: Global,
    span: Span,
    left: PatBox,
    right: Operand,
) -> Result<Param, Failure>
    requires { holds_pat left.part.value }
    ensures value { IfOk result (λ x. view_param inner x
        ≡ param span none (assign_pat span (inner left.part.value) (tree_of right))) }
    ensures fits { IfOk result (λ x. fits_param (λ p. p) x) }
    ensures full { IfErr result IsMemory }
{
    let kind = PatKind::Assign(AssignPat {
        span,
        left,
        right: right.expr,
    });
    let pat = PatBox::new(alloc, Pat { kind })?;
    Ok(param(alloc, span, pat))
}

/// The place of the dots that start here. It ends at the greatest place where no dots fit, as in no text.
pub fn dots(start: BytePos) -> Span
    ensures { result ≡ dots_at start.0 }
{
    Span {
        lo: start,
        hi: BytePos(start.0.saturating_add(3)),
    }
}

/// A rest parameter, whose dots stand in a place.
#[inline(never)]
pub fn rest_param(alloc: Global, span: Span, dots: Span, arg: PatBox) -> Result<Param, Failure>
    requires { holds_pat arg.part.value }
    ensures value { IfOk result (λ x. view_param inner x
        ≡ param span none (rest_pat span dots (inner arg.part.value))) }
    ensures fits { IfOk result (λ x. fits_param (λ p. p) x) }
    ensures full { IfErr result IsMemory }
{
    let kind = PatKind::Rest(RestPat {
        span,
        dot3_token: dots,
        arg,
    });
    let pat = PatBox::new(alloc, Pat { kind })?;
    Ok(param(alloc, span, pat))
}

/// A function.
#[inline(never)]
pub fn function(
    alloc: Global,
    span: Span,
    params: Vec<Param>,
    body: BlockStmt,
    is_generator: bool,
    is_async: bool,
) -> Result<Box<Function>, Failure>
    requires params { All (λ x. fits_param (λ p. p) x) params.items }
    requires body { fits_block_stmt (λ p. p) body }
    ensures value { IfOk result (λ x. view_function inner x.value
        ≡ function span (trees_by (view_param inner) params.items) none (view_block_stmt inner body)
        is_generator is_async) }
    ensures fits { IfOk result (λ x. fits_function (λ p. p) x.value) }
    ensures full { IfErr result IsMemory }
{
    let node = Function {
        span,
        params,
        decorators: Vec::new(alloc),
        body,
        is_generator,
        is_async,
    };
    Ok(Box::new(alloc, node)?)
}

/// A function with its name.
#[inline(never)]
pub fn fn_decl(
    alloc: Global,
    span: Span,
    ident: Ident,
    function: Box<Function>,
) -> Result<StmtBox, Failure>
    requires { fits_function (λ p. p) function.value }
    ensures value { IfOk result (λ x. inner x.part.value
        ≡ fn_decl span (view_ident ident) (view_function inner function.value)) }
    ensures holds { IfOk result (λ x. holds_stmt x.part.value) }
    ensures full { IfErr result IsMemory }
{
    let kind = StmtKind::Decl(Decl::Fn(FnDecl {
        span,
        ident,
        function,
    }));
    Ok(StmtBox::new(alloc, Stmt { kind })?)
}
