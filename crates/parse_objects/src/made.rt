//! Makers of properties. Each stands in a function of its own, so that rules keep small frames.
ghost use Rattle.std.specs.Prelude.{◌≡◌, IfErr, IfOk};
ghost use Rattle.tree_nodes.specs.Fits.{fits_block_stmt, fits_function, fits_param, fits_prop_name, fits_prop_or_spread};
ghost use Rattle.tree_nodes.specs.Placed.{inner};
ghost use Rattle.tree_nodes.specs.View.{view_block_stmt, view_function, view_prop_name, view_prop_or_spread};
ghost use Rattle.tree_spec.specs.Tree.{assign_prop, getter_prop, ident, key_value_prop, method_prop, setter_prop, spread_element};
ghost use Rattle.parse_state.specs.Answers.{IsMemory};
ghost use Rattle.parse_operands.specs.Operands.{tree_of};

use base_token::{Atom, Span};
use parse_operands::Operand;
use parse_state::Failure;
use std::alloc::Global;
use tree_nodes::{
    AssignProp, BlockStmt, Function, GetterProp, Ident, KeyValueProp, MethodProp, Param, Prop,
    PropName, PropOrSpread, SetterProp, SpreadElement,
};

/// `...expr`.
pub fn spread(span: Span, expr: Operand) -> PropOrSpread
    ensures value { view_prop_or_spread inner result ≡ spread_element span (tree_of expr) }
    ensures fits { fits_prop_or_spread (λ p. p) result }
{
    PropOrSpread::Spread(SpreadElement {
        span,
        expr: expr.expr,
    })
}

/// A name.
#[inline(never)]
pub fn shorthand(alloc: Global, span: Span, sym: Atom) -> Result<PropOrSpread, Failure>
    ensures value { IfOk result (λ x. view_prop_or_spread inner x ≡ ident span sym) }
    ensures fits { IfOk result (λ x. fits_prop_or_spread (λ p. p) x) }
    ensures full { IfErr result IsMemory }
{
    let node = Prop::Shorthand(Ident { span, sym });
    Ok(PropOrSpread::Prop(Box::new(alloc, node)?))
}

/// A name with an initialiser.
#[inline(never)]
pub fn assign_prop(
    alloc: Global,
    span: Span,
    place: Span,
    sym: Atom,
    value: Operand,
) -> Result<PropOrSpread, Failure>
    ensures value { IfOk result (λ x. view_prop_or_spread inner x
        ≡ assign_prop span (ident place sym) (tree_of value)) }
    ensures fits { IfOk result (λ x. fits_prop_or_spread (λ p. p) x) }
    ensures full { IfErr result IsMemory }
{
    let node = Prop::Assign(AssignProp {
        span,
        key: Ident { span: place, sym },
        value: value.expr,
    });
    Ok(PropOrSpread::Prop(Box::new(alloc, node)?))
}

/// A key and a value.
#[inline(never)]
pub fn key_value(
    alloc: Global,
    span: Span,
    key: PropName,
    value: Operand,
) -> Result<PropOrSpread, Failure>
    requires { fits_prop_name (λ p. p) key }
    ensures value { IfOk result (λ x. view_prop_or_spread inner x
        ≡ key_value_prop span (view_prop_name inner key) (tree_of value)) }
    ensures fits { IfOk result (λ x. fits_prop_or_spread (λ p. p) x) }
    ensures full { IfErr result IsMemory }
{
    let node = Prop::KeyValue(KeyValueProp {
        span,
        key,
        value: value.expr,
    });
    Ok(PropOrSpread::Prop(Box::new(alloc, node)?))
}

/// A method.
#[inline(never)]
pub fn method(
    alloc: Global,
    span: Span,
    key: PropName,
    function: Box<Function>,
) -> Result<PropOrSpread, Failure>
    requires key { fits_prop_name (λ p. p) key }
    requires function { fits_function (λ p. p) function.value }
    ensures value { IfOk result (λ x. view_prop_or_spread inner x
        ≡ method_prop span (view_prop_name inner key) (view_function inner function.value)) }
    ensures fits { IfOk result (λ x. fits_prop_or_spread (λ p. p) x) }
    ensures full { IfErr result IsMemory }
{
    let node = Prop::Method(MethodProp {
        span,
        key,
        function,
    });
    Ok(PropOrSpread::Prop(Box::new(alloc, node)?))
}

/// A getter.
#[inline(never)]
pub fn getter(
    alloc: Global,
    span: Span,
    key: PropName,
    body: BlockStmt,
) -> Result<PropOrSpread, Failure>
    requires key { fits_prop_name (λ p. p) key }
    requires body { fits_block_stmt (λ p. p) body }
    ensures value { IfOk result (λ x. view_prop_or_spread inner x
        ≡ getter_prop span (view_prop_name inner key) (view_block_stmt inner body)) }
    ensures fits { IfOk result (λ x. fits_prop_or_spread (λ p. p) x) }
    ensures full { IfErr result IsMemory }
{
    let node = Prop::Getter(GetterProp { span, key, body });
    Ok(PropOrSpread::Prop(Box::new(alloc, node)?))
}

/// A setter.
#[inline(never)]
pub fn setter(
    alloc: Global,
    span: Span,
    key: PropName,
    param: Param,
    body: BlockStmt,
) -> Result<PropOrSpread, Failure>
    requires key { fits_prop_name (λ p. p) key }
    requires param { fits_param (λ p. p) param }
    requires body { fits_block_stmt (λ p. p) body }
    ensures value { IfOk result (λ x. view_prop_or_spread inner x
        ≡ setter_prop span (view_prop_name inner key) (inner param.pat.part.value)
        (view_block_stmt inner body)) }
    ensures fits { IfOk result (λ x. fits_prop_or_spread (λ p. p) x) }
    ensures full { IfErr result IsMemory }
{
    let node = Prop::Setter(SetterProp {
        span,
        key,
        param: param.pat,
        body,
    });
    Ok(PropOrSpread::Prop(Box::new(alloc, node)?))
}
