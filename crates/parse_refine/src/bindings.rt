//! Whether a pattern that assigns has names alone, so that it binds as well.
ghost use Rattle.std.specs.Prelude.{◌≡◌};
ghost use Rattle.tree_spec.specs.Tree.{element_by};
ghost use Rattle.tree_nodes.specs.Fits.{fits_array_pat, fits_held, fits_object_pat, fits_object_pat_prop};
ghost use Rattle.tree_nodes.specs.Placed.{holds_pat, inner};
ghost use Rattle.tree_nodes.specs.View.{view_array_pat, view_object_pat, view_object_pat_prop};
ghost use Rattle.grammar_spec.specs.Reader.Cover.{binds_names};

use tree_nodes::{ArrayPat, ObjectPat, ObjectPatProp, PatBox, PatKind};

/// Whether a pattern has names alone.
#[cycle(bindings)]
pub fn pat_binds(pat: &PatBox) -> bool
    requires { holds_pat pat.now.part.value }
    ensures { result ≡ binds_names (inner pat.now.part.value) }
{
    match &pat.get().kind {
        PatKind::Ident(_) => true,
        PatKind::Array(x) => array_binds(x),
        PatKind::Object(x) => object_binds(x),
        PatKind::Assign(x) => pat_binds(&x.left),
        PatKind::Rest(x) => pat_binds(&x.arg),
        PatKind::Expr(_) | PatKind::Invalid(_) => false,
    }
}

/// Whether an array has names alone.
#[cycle(bindings)]
pub fn array_binds(array: &ArrayPat) -> bool
    requires { fits_array_pat (λ p. p) array.now }
    ensures { result ≡ binds_names (view_array_pat inner array.now) }
{
    for elem in array.elems.as_slice() {
        if !elem_binds(elem) {
            return false;
        }
    }
    true
}

/// Whether an object has names alone.
#[cycle(bindings)]
pub fn object_binds(object: &ObjectPat) -> bool
    requires { fits_object_pat (λ p. p) object.now }
    ensures { result ≡ binds_names (view_object_pat inner object.now) }
{
    for prop in object.props.as_slice() {
        if !prop_binds(prop) {
            return false;
        }
    }
    true
}

/// Whether an element of an array has names alone. A hole has.
#[cycle(bindings)]
fn elem_binds(elem: &Option<PatBox>) -> bool
    requires { fits_held (λ x. holds_pat x.part.value) elem.now }
    ensures { result ≡ binds_names (element_by (λ x. inner x.part.value) elem.now) }
{
    match elem {
        Some(x) => pat_binds(x),
        None => true,
    }
}

/// Whether a part of an object has names alone.
#[cycle(bindings)]
fn prop_binds(prop: &ObjectPatProp) -> bool
    requires { fits_object_pat_prop (λ p. p) prop.now }
    ensures { result ≡ binds_names (view_object_pat_prop inner prop.now) }
{
    match prop {
        ObjectPatProp::KeyValue(x) => pat_binds(&x.value),
        ObjectPatProp::Assign(_) => true,
        ObjectPatProp::Rest(x) => pat_binds(&x.arg),
    }
}
