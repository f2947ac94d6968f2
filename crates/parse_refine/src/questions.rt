//! Whether what was read as an expression is a pattern that binds, told by reference: nothing is taken apart.
ghost use Rattle.std.specs.Prelude.{◌≡◌, false, true, reverse, if◌then◌else◌, Some, ℕ, List};
ghost use Rattle.base_token.specs.declared.place.Span.{Span};
ghost use Rattle.tree_spec.specs.Tree.{element_by, expr_or_spread, spread_element};
ghost use Rattle.tree_nodes.specs.Fits.{fits_array_lit, fits_assign_expr, fits_assign_target, fits_expr_or_spread, fits_held};
ghost use Rattle.tree_nodes.specs.Fits.{fits_object_lit, fits_prop, fits_prop_or_spread, fits_spread_element};
ghost use Rattle.tree_nodes.specs.Placed.{holds_expr, inner};
ghost use Rattle.tree_nodes.specs.View.{view_array_lit, view_assign_expr, view_assign_target, view_expr_or_spread};
ghost use Rattle.tree_nodes.specs.View.{view_object_lit, view_prop, view_prop_or_spread, view_spread_element};
ghost use Rattle.grammar_spec.specs.Reader.Cover.{binds_names, to_item};
ghost use Rattle.grammar_spec.specs.Reader.Expressions.{is_read};
ghost use Rattle.parse_refine.specs.Items.{item_by};

use crate::bindings::{array_binds, object_binds};
use crate::items::{is_rest_elem, is_rest_prop};
use crate::leaves::{is_assign, is_noted};
use tree_nodes::{
    ArrayLit, AssignExpr, AssignTarget, ExprBox, ExprKind, ExprOrSpread, ObjectLit, Prop,
    PropOrSpread, SpreadElement,
};

/// Whether what is assigned to has names alone.
fn target_binds(target: &AssignTarget) -> bool
    requires { fits_assign_target (λ p. p) target.now }
    ensures { result ≡ binds_names (view_assign_target inner target.now) }
{
    match target {
        AssignTarget::Ident(_) => true,
        AssignTarget::Array(x) => array_binds(x),
        AssignTarget::Object(x) => object_binds(x),
        AssignTarget::Member(_) | AssignTarget::SuperProp(_) | AssignTarget::Paren(_) => false,
        AssignTarget::OptChain(_) | AssignTarget::Invalid(_) => false,
    }
}

/// Whether an assignment is a pattern with an initialiser.
#[tactic(auto, using(crate::proofs::Told::default_told))]
fn is_default(node: &AssignExpr) -> bool
    requires { fits_assign_expr (λ p. p) node.now }
    ensures { (commas : List ℕ) → result ≡ is_read (to_item true commas (view_assign_expr inner node.now)) }
{
    is_assign(node.op) && target_binds(&node.left)
}

/// Whether an expression is an assignment, which is no rest.
fn is_initialised(expr: &ExprBox) -> bool
    requires { holds_expr expr.now.part.value }
    ensures { (commas : List ℕ) (s d : Span)
        → is_read (to_item true commas (expr_or_spread s (Some d) (inner expr.now.part.value)))
        ≡ (if result then false else is_read (to_item true commas (inner expr.now.part.value))) }
{
    matches!(&expr.get().kind, ExprKind::Assign(_))
}

/// Whether an expression is a name, as the rest of an object is.
fn is_name(expr: &ExprBox) -> bool
    requires { holds_expr expr.now.part.value }
    ensures { (commas : List ℕ) (s : Span) → result
        ≡ is_read (to_item true commas (spread_element s (inner expr.now.part.value))) }
{
    matches!(&expr.get().kind, ExprKind::Ident(_))
}

/// Whether an expression is a pattern.
#[cycle(questions)]
pub fn is_item(commas: &[u32], expr: &ExprBox) -> bool
    requires { holds_expr expr.now.part.value }
    ensures { result ≡ is_read (to_item true (reverse commas.now) (inner expr.now.part.value)) }
{
    match &expr.get().kind {
        ExprKind::Ident(_) => true,
        ExprKind::Array(x) => is_array(commas, x),
        ExprKind::Object(x) => is_object(commas, x),
        ExprKind::Assign(x) => is_default(x),
        _ => false,
    }
}

/// Whether an array is one, of which a rest stands last.
#[cycle(questions)]
#[tactic(auto, using(crate::proofs::Rows::more_left))]
fn is_array(commas: &[u32], node: &ArrayLit) -> bool
    requires { fits_array_lit (λ p. p) node.now }
    ensures { result ≡ is_read (to_item true (reverse commas.now) (view_array_lit inner node.now)) }
{
    if is_noted(commas, node.span.lo) {
        return false;
    }
    let mut left = node.elems.len();
    for elem in node.elems.as_slice() {
        left -= 1;
        // For the proof: two tests in place of one `||`, so that each way out has a goal of its own.
        if left > 0 && is_rest_elem(elem) {
            return false;
        }
        if !is_elem(commas, elem) {
            return false;
        }
    }
    true
}

/// Whether an element of an array is one. A hole is.
#[cycle(questions)]
#[tactic(auto, unfolding(crate::specs::Items::item_by))]
fn is_elem(commas: &[u32], elem: &Option<ExprOrSpread>) -> bool
    requires { fits_held (λ x. fits_expr_or_spread (λ p. p) x) elem.now }
    ensures { result ≡ is_read (item_by false true (reverse commas.now)
        (element_by (view_expr_or_spread inner) elem.now)) }
{
    match elem {
        Some(x) => is_element(commas, x),
        None => true,
    }
}

/// Whether an element is one, which is a rest behind dots.
#[cycle(questions)]
pub fn is_element(commas: &[u32], element: &ExprOrSpread) -> bool
    requires { fits_expr_or_spread (λ p. p) element.now }
    ensures { result ≡ is_read (to_item true (reverse commas.now) (view_expr_or_spread inner element.now)) }
{
    if element.spread.is_some() && is_initialised(&element.expr) {
        return false;
    }
    is_item(commas, &element.expr)
}

/// Whether an object is one, of which a rest stands last.
#[cycle(questions)]
#[tactic(auto, using(crate::proofs::Rows::more_left))]
fn is_object(commas: &[u32], node: &ObjectLit) -> bool
    requires { fits_object_lit (λ p. p) node.now }
    ensures { result ≡ is_read (to_item true (reverse commas.now) (view_object_lit inner node.now)) }
{
    if is_noted(commas, node.span.lo) {
        return false;
    }
    let mut left = node.props.len();
    for prop in node.props.as_slice() {
        left -= 1;
        // For the proof: two tests in place of one `||`, so that each way out has a goal of its own.
        if left > 0 && is_rest_prop(prop) {
            return false;
        }
        if !is_prop(commas, prop) {
            return false;
        }
    }
    true
}

/// Whether a part of an object is one.
#[cycle(questions)]
#[tactic(auto, unfolding(crate::specs::Items::item_by))]
fn is_prop(commas: &[u32], prop: &PropOrSpread) -> bool
    requires { fits_prop_or_spread (λ p. p) prop.now }
    ensures { result ≡ is_read (item_by true true (reverse commas.now) (view_prop_or_spread inner prop.now)) }
{
    match prop {
        PropOrSpread::Spread(x) => is_name(&x.expr),
        PropOrSpread::Prop(x) => is_property(commas, x),
    }
}

/// Whether a property is one: a name, with an initialiser or without, or a key and an item.
#[cycle(questions)]
#[tactic(auto, using(crate::proofs::Told::value_told), unfolding(crate::specs::Items::item_by))]
fn is_property(commas: &[u32], prop: &Prop) -> bool
    requires { fits_prop (λ p. p) prop.now }
    ensures { result ≡ is_read (item_by true true (reverse commas.now) (view_prop inner prop.now)) }
{
    match prop {
        Prop::Shorthand(_) | Prop::Assign(_) => true,
        Prop::KeyValue(x) => is_item(commas, &x.value),
        Prop::Getter(_) | Prop::Setter(_) | Prop::Method(_) => false,
    }
}
