//! Questions about finished trees: what may stand behind `with`.
ghost use Rattle.std.specs.Prelude.{◌≡◌, false, true, All, IfErr, IfOk, MatchOption};
ghost use Rattle.grammar_spec.specs.Tokens.Shape as shape;
ghost use Rattle.tree_spec.specs.Tree.{trees_by};
ghost use Rattle.tree_nodes.specs.Fits.{fits_expr_kind, fits_object_lit, fits_prop_or_spread};
ghost use Rattle.tree_nodes.specs.Placed.{inner};
ghost use Rattle.tree_nodes.specs.View.{view_expr_kind, view_object_lit, view_prop_name, view_prop_or_spread};
ghost use Rattle.parse_operands.specs.Operands.{tree_of};
ghost use Rattle.parse_modules.specs.Attributes.{is_attribute};

use parse_operands::Operand;
use tree_nodes::{ExprKind, Lit, ObjectLit, Prop, PropName, PropOrSpread};

/// Whether the key of an attribute may be this (ECMA-262, 16.2).
fn is_attribute_key(key: &PropName) -> bool
    ensures { result ≡ shape.is_attribute_key (view_prop_name inner key.now) }
{
    matches!(key, PropName::Ident(_) | PropName::Str(_))
}

/// Whether a property is an attribute: its key is a word or a string, and its value a string (ECMA-262, 16.2).
fn is_attribute(prop: &PropOrSpread) -> bool
    requires { fits_prop_or_spread (λ p. p) prop.now }
    ensures { result ≡ is_attribute (view_prop_or_spread inner prop.now) }
{
    let PropOrSpread::Prop(prop) = prop else {
        return false;
    };
    let Prop::KeyValue(pair) = &**prop else {
        return false;
    };
    is_attribute_key(&pair.key) && matches!(&pair.value.get().kind, ExprKind::Lit(Lit::Str(_)))
}

/// Whether properties are attributes.
fn are_attributes(props: &[PropOrSpread]) -> bool
    requires { All (λ x. fits_prop_or_spread (λ p. p) x) props.now }
    ensures { result ≡ shape.are_attributes (trees_by (view_prop_or_spread inner) props.now) }
{
    'props: for prop in props {
        if !is_attribute(prop) {
            return false;
        }
    }
    true
}

/// Whether an object may stand for attributes (ECMA-262, 16.2).
pub fn is_attributes(object: &ObjectLit) -> bool
    requires { fits_object_lit (λ p. p) object.now }
    ensures { result ≡ shape.is_attributes (view_object_lit inner object.now) }
{
    are_attributes(object.props.as_slice())
}

/// An object, apart from other expressions.
// For the proof: a function of its own, whose clauses say what a match on all kinds comes to.
fn as_object(kind: ExprKind) -> Result<ObjectLit, ExprKind>
    requires { fits_expr_kind (λ p. p) kind }
    ensures object { IfOk result (λ o. view_expr_kind inner kind ≡ view_object_lit inner o) }
    ensures fits { IfOk result (λ o. fits_object_lit (λ p. p) o) }
    ensures other { IfErr result (λ k. k ≡ kind) }
    ensures apart { IfErr result (λ k. shape.is_attributes (view_expr_kind inner kind) ≡ false) }
{
    match kind {
        ExprKind::Object(object) => Ok(object),
        other => Err(other),
    }
}

/// The object that may stand for attributes.
fn attributes_of(kind: ExprKind) -> Option<ObjectLit>
    requires { fits_expr_kind (λ p. p) kind }
    ensures { MatchOption result (shape.is_attributes (view_expr_kind inner kind) ≡ false)
        (λ o. (shape.is_attributes (view_expr_kind inner kind) ≡ true)
        × (view_expr_kind inner kind ≡ view_object_lit inner o) × fits_object_lit (λ p. p) o) }
{
    let Ok(object) = as_object(kind) else {
        return None;
    };
    if is_attributes(&object) {
        Some(object)
    } else {
        None
    }
}

/// The object that may stand for attributes, out of an expression.
pub fn attributes_in(read: Operand) -> Option<ObjectLit>
    ensures { MatchOption result (shape.is_attributes (tree_of read) ≡ false)
        (λ o. (shape.is_attributes (tree_of read) ≡ true) × (tree_of read ≡ view_object_lit inner o)
        × fits_object_lit (λ p. p) o) }
{
    attributes_of(read.expr.into_inner().kind)
}
