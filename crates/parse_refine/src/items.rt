//! Items of patterns: what was read as an expression, an element or a property, part by part.
ghost use Rattle.std.specs.Prelude.{◌≡◌, [], ◌∷◌, ◌++◌, false, true, All, IfErr, IfOk, OnOk, reverse};
ghost use Rattle.tree_spec.specs.Tree.{element_by};
ghost use Rattle.tree_nodes.specs.Fits.{fits_array_pat, fits_held, fits_object_lit, fits_object_pat};
ghost use Rattle.tree_nodes.specs.Fits.{fits_object_pat_prop, fits_prop, fits_prop_or_spread};
ghost use Rattle.tree_nodes.specs.Placed.{holds_pat, inner};
ghost use Rattle.tree_nodes.specs.View.{view_array_lit, view_array_pat, view_expr_or_spread, view_object_lit, view_object_pat};
ghost use Rattle.tree_nodes.specs.View.{view_object_pat_prop, view_prop, view_prop_or_spread, view_spread_element};
ghost use Rattle.grammar_spec.specs.Reader.Cover.{is_rest_item, to_item};
ghost use Rattle.parse_state.specs.Answers.{Gives, IsMemory};
ghost use Rattle.parse_refine.specs.Items.{item_by};

use crate::leaves::{is_cover, is_noted, is_structured, leaf, rest};
use crate::made;
use base_token::Spanned;
use parse_state::Failure;
use std::alloc::Global;
use tree_nodes::{
    ArrayLit, ArrayPat, AssignPatProp, ExprBox, ExprKind, ExprOrSpread, KeyValuePatProp, ObjectLit,
    ObjectPat, ObjectPatProp, PatBox, PatKind, Prop, PropOrSpread, SpreadElement,
};

/// What was read as an expression, as a pattern.
#[cycle(items)]
pub fn item(alloc: Global, binds: bool, commas: &[u32], expr: ExprBox) -> Result<PatBox, Failure>
    ensures value { Gives (λ x. inner x.part.value) 0 result
        (to_item binds (reverse commas.now) (inner expr.part.value)) }
    ensures holds { IfOk result (λ x. holds_pat x.part.value) }
{
    if !is_cover(&expr) {
        return Err(made::refused(expr.span()));
    }
    match expr.into_inner().kind {
        ExprKind::Array(x) => {
            let found = array(alloc, binds, commas, x)?;
            made::pat(alloc, PatKind::Array(found))
        }
        ExprKind::Object(x) => {
            let found = object(alloc, binds, commas, x)?;
            made::pat(alloc, PatKind::Object(found))
        }
        other => leaf(alloc, binds, other),
    }
}

/// Whether an element is spread.
pub fn is_rest(element: &ExprOrSpread) -> bool
    ensures { result ≡ is_rest_item (view_expr_or_spread inner element.now) }
{
    element.spread.is_some()
}

/// Whether an element of an array is spread. A hole is not.
pub fn is_rest_elem(elem: &Option<ExprOrSpread>) -> bool
    ensures { result ≡ is_rest_item (element_by (view_expr_or_spread inner) elem.now) }
{
    match elem {
        Some(x) => is_rest(x),
        None => false,
    }
}

/// An array, of which a rest stands last.
#[cycle(items)]
#[tactic(auto, using(crate::proofs::Rows::items), unfolding(crate::specs::Items::items_from))]
pub fn array(
    alloc: Global,
    binds: bool,
    commas: &[u32],
    node: ArrayLit,
) -> Result<ArrayPat, Failure>
    ensures value { Gives (view_array_pat inner) 0 result
        (to_item binds (reverse commas.now) (view_array_lit inner node)) }
    ensures fits { IfOk result (λ x. fits_array_pat (λ p. p) x) }
{
    let span = node.span;
    if is_noted(commas, span.lo) {
        return Err(made::refused(span));
    }
    let mut left = node.elems.len();
    let mut elems = Vec::new(alloc);
    'elems: for x in node.elems {
        left -= 1;
        if left > 0 && is_rest_elem(&x) {
            return Err(made::refused(span));
        }
        elems.push(elem(alloc, binds, commas, x)?)?;
    }
    Ok(ArrayPat { span, elems })
}

/// An element of an array, or a hole.
#[cycle(items)]
#[tactic(auto, unfolding(crate::specs::Items::item_by))]
fn elem(
    alloc: Global,
    binds: bool,
    commas: &[u32],
    elem: Option<ExprOrSpread>,
) -> Result<Option<PatBox>, Failure>
    ensures value { Gives (λ x. element_by (λ y. inner y.part.value) x) 0 result
        (item_by false binds (reverse commas.now) (element_by (view_expr_or_spread inner) elem)) }
    ensures fits { IfOk result (λ x. fits_held (λ y. holds_pat y.part.value) x) }
{
    match elem {
        Some(x) => Ok(Some(element(alloc, binds, commas, x)?)),
        None => Ok(None),
    }
}

/// An element, which is a rest behind dots.
#[cycle(items)]
pub fn element(
    alloc: Global,
    binds: bool,
    commas: &[u32],
    element: ExprOrSpread,
) -> Result<PatBox, Failure>
    ensures value { Gives (λ x. inner x.part.value) 0 result
        (to_item binds (reverse commas.now) (view_expr_or_spread inner element)) }
    ensures holds { IfOk result (λ x. holds_pat x.part.value) }
{
    let pat = item(alloc, binds, commas, element.expr)?;
    if element.spread.is_none() {
        return Ok(pat);
    }
    let found = rest(element.span, pat)?;
    made::pat(alloc, PatKind::Rest(found))
}

/// Whether a part of an object is spread.
pub fn is_rest_prop(prop: &PropOrSpread) -> bool
    ensures { result ≡ is_rest_item (view_prop_or_spread inner prop.now) }
{
    match prop {
        PropOrSpread::Spread(_) => true,
        // For the proof: the match shows the kind, and by it no property is spread.
        PropOrSpread::Prop(x) => match &**x {
            Prop::Shorthand(_) => false,
            _ => false,
        },
    }
}

/// Adds a part of an object.
#[inline(never)]
fn add(props: &mut Vec<ObjectPatProp>, prop: ObjectPatProp) -> Result<(), Failure>
    requires old { All (λ x. fits_object_pat_prop (λ p. p) x) props.old.items }
    requires one { fits_object_pat_prop (λ p. p) prop }
    ensures value { OnOk result (props.new.items ≡ props.old.items ++ prop ∷ []) }
    ensures fits { OnOk result (All (λ x. fits_object_pat_prop (λ p. p) x) props.new.items) }
    ensures full { IfErr result IsMemory }
{
    props.push(prop)?;
    Ok(())
}

/// An object, of which a rest stands last.
#[cycle(items)]
#[tactic(auto, using(crate::proofs::Rows::items), unfolding(crate::specs::Items::items_from))]
pub fn object(
    alloc: Global,
    binds: bool,
    commas: &[u32],
    node: ObjectLit,
) -> Result<ObjectPat, Failure>
    requires { fits_object_lit (λ p. p) node }
    ensures value { Gives (view_object_pat inner) 0 result
        (to_item binds (reverse commas.now) (view_object_lit inner node)) }
    ensures fits { IfOk result (λ x. fits_object_pat (λ p. p) x) }
{
    let span = node.span;
    if is_noted(commas, span.lo) {
        return Err(made::refused(span));
    }
    let mut left = node.props.len();
    let mut props = Vec::new(alloc);
    'props: for x in node.props {
        left -= 1;
        if left > 0 && is_rest_prop(&x) {
            return Err(made::refused(span));
        }
        add(&mut props, prop(alloc, binds, commas, x)?)?;
    }
    Ok(ObjectPat { span, props })
}

/// A part of an object.
#[cycle(items)]
#[tactic(auto, unfolding(crate::specs::Items::item_by))]
fn prop(
    alloc: Global,
    binds: bool,
    commas: &[u32],
    prop: PropOrSpread,
) -> Result<ObjectPatProp, Failure>
    requires { fits_prop_or_spread (λ p. p) prop }
    ensures value { Gives (view_object_pat_prop inner) 0 result
        (item_by true binds (reverse commas.now) (view_prop_or_spread inner prop)) }
    ensures fits { IfOk result (λ x. fits_object_pat_prop (λ p. p) x) }
{
    match prop {
        PropOrSpread::Spread(x) => spread(alloc, binds, commas, x),
        PropOrSpread::Prop(x) => property(alloc, binds, commas, Box::into_inner(x)),
    }
}

/// What is spread in an object, as a rest, which takes no array and no object.
#[cycle(items)]
fn spread(
    alloc: Global,
    binds: bool,
    commas: &[u32],
    node: SpreadElement,
) -> Result<ObjectPatProp, Failure>
    ensures value { Gives (view_object_pat_prop inner) 0 result
        (to_item binds (reverse commas.now) (view_spread_element inner node)) }
    ensures fits { IfOk result (λ x. fits_object_pat_prop (λ p. p) x) }
{
    let pat = item(alloc, binds, commas, node.expr)?;
    if is_structured(&pat) {
        return Err(made::refused(node.span));
    }
    Ok(ObjectPatProp::Rest(rest(node.span, pat)?))
}

/// A property: a name, with an initialiser or without, or a key and an item.
#[cycle(items)]
#[tactic(auto, unfolding(crate::specs::Items::item_by))]
fn property(
    alloc: Global,
    binds: bool,
    commas: &[u32],
    prop: Prop,
) -> Result<ObjectPatProp, Failure>
    requires { fits_prop (λ p. p) prop }
    ensures value { Gives (view_object_pat_prop inner) 0 result
        (item_by true binds (reverse commas.now) (view_prop inner prop)) }
    ensures fits { IfOk result (λ x. fits_object_pat_prop (λ p. p) x) }
{
    match prop {
        Prop::Shorthand(x) => Ok(ObjectPatProp::Assign(AssignPatProp {
            span: x.span,
            key: made::name(x),
            value: None,
        })),
        Prop::Assign(x) => Ok(ObjectPatProp::Assign(AssignPatProp {
            span: x.span,
            key: made::name(x.key),
            value: Some(x.value),
        })),
        Prop::KeyValue(x) => {
            let value = item(alloc, binds, commas, x.value)?;
            Ok(ObjectPatProp::KeyValue(KeyValuePatProp {
                span: x.span,
                key: x.key,
                value,
            }))
        }
        Prop::Getter(x) => Err(made::refused(x.span)),
        Prop::Setter(x) => Err(made::refused(x.span)),
        Prop::Method(x) => Err(made::refused(x.span)),
    }
}
