//! Finished parts: they nest no deeper than the limit, which is looked at first, and nothing of a cover is left.
ghost use Rattle.std.specs.Prelude.{◌≡◌, ◌<◌, All, IfOk, map};
ghost use Rattle.tree_spec.specs.Tree.{list, trees_by};
ghost use Rattle.tree_nodes.specs.Fits.{fits_param, fits_prop_name};
ghost use Rattle.tree_nodes.specs.Placed.{holds_expr, holds_pat, inner};
ghost use Rattle.tree_nodes.specs.View.{view_param, view_prop_name};
ghost use Rattle.parse_state.specs.Codes.{code_of};
ghost use Rattle.parse_state.specs.Reads.{ReadsAs, NotLonger};
ghost use Rattle.parse_operands.specs.Operands.{tree_in};
ghost use Rattle.parse_alone.specs.Parts as parts;

use crate::async_ends::{heads_arrow, params_async_end, sequence_async_end};
use crate::parameters::bare_params;
use crate::settle::settle;
use parse_functions::keys::key;
use parse_recursion::Depth;
use parse_recursion::tie::{parse_expr, parse_pat};
use parse_state::{Around, Failure, Parser, Tokens};
use tree_nodes::{ExprBox, Param, PatBox, PropName};

/// An expression of a level or a tighter one. All that goes on with it is read; the name that an arrow would take after
/// `async` is not.
///
/// # Errors
///
/// Want of memory, a text that nests deeper, or a fault of the text.
#[tactic(auto, unfolding(crate::specs::Parts::expression_part))]
pub fn expression_part<'a, I: Tokens<'a> + Drop>(
    p: &mut Parser<'a, I>,
    limit: u32,
    code: Around,
    level: u8,
) -> Result<ExprBox, Failure>
    requires { limit < 4294967295 }
    ensures value { ReadsAs I.machine I.state p.old p.new result
        tree_in (λ m. parts.expression_part m level limit (code_of code)) }
    ensures holds { IfOk result (λ x. holds_expr x.part.value) }
    ensures not_longer { NotLonger I.machine I.state p.old p.new result }
{
    let start = p.lo();
    let read = parse_expr(p, limit, code, level)?;
    let expr = settle(p, start, limit, read.expr)?;
    if heads_arrow(p, sequence_async_end(code, expr.get())) {
        return Err(p.unexpected_end());
    }
    Ok(expr)
}

/// A name or a pattern that binds.
///
/// # Errors
///
/// Want of memory, a text that nests deeper, or a fault of the text.
#[tactic(auto, unfolding(crate::specs::Parts::binding_part))]
pub fn binding_part<'a, I: Tokens<'a> + Drop>(
    p: &mut Parser<'a, I>,
    limit: u32,
    code: Around,
) -> Result<PatBox, Failure>
    requires { limit < 4294967295 }
    ensures value { ReadsAs I.machine I.state p.old p.new result
        tree_in (λ m. parts.binding_part m limit (code_of code)) }
    ensures holds { IfOk result (λ x. holds_pat x.part.value) }
    ensures not_longer { NotLonger I.machine I.state p.old p.new result }
{
    let start = p.lo();
    let pat = parse_pat(p, limit, code)?;
    settle(p, start, limit, pat)
}

/// The key of a property.
///
/// # Errors
///
/// Want of memory, a text that nests deeper, or a fault of the text.
#[tactic(auto, unfolding(crate::specs::Parts::key_part))]
pub fn key_part<'a, I: Tokens<'a> + Drop>(
    p: &mut Parser<'a, I>,
    limit: u32,
    code: Around,
) -> Result<PropName, Failure>
    requires { limit < 4294967295 }
    ensures value { ReadsAs I.machine I.state p.old p.new result
        (view_prop_name inner) (λ m. parts.key_part m limit (code_of code)) }
    ensures fits { IfOk result (λ x. fits_prop_name (λ p. p) x) }
    ensures not_longer { NotLonger I.machine I.state p.old p.new result }
{
    let start = p.lo();
    let key = key(p, &Depth { levels: limit }, code)?;
    settle(p, start, limit, key)
}

/// Parameters without their parentheses, as many as stand here.
///
/// # Errors
///
/// Want of memory, a text that nests deeper, or a fault of the text.
#[tactic(auto, using(parse_operands::proofs::Packs::packs), unfolding(crate::specs::Parts::parameters_part))]
pub fn parameters_part<'a, I: Tokens<'a> + Drop>(
    p: &mut Parser<'a, I>,
    limit: u32,
    code: Around,
) -> Result<Vec<Param>, Failure>
    requires { limit < 4294967295 }
    ensures value { ReadsAs I.machine I.state p.old p.new result
        (λ x. list (trees_by (view_param inner) x.items))
        (λ m. parts.parameters_part m limit (code_of code)) }
    ensures fits { IfOk result (λ x. All (λ x. fits_param (λ p. p) x) x.items) }
    ensures not_longer { NotLonger I.machine I.state p.old p.new result }
{
    let start = p.lo();
    let params = bare_params(p, &Depth { levels: limit }, code)?;
    let params = settle(p, start, limit, params)?;
    if heads_arrow(p, params_async_end(code, params.as_slice())) {
        return Err(p.unexpected_end());
    }
    Ok(params)
}
