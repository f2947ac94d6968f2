//! Tells a visitor of nodes that are no expression, statement, pattern or program, and hold no text: of their kind and place.
ghost use Rattle.std.specs.Prelude.{◌≡◌, []};
ghost use Rattle.tree_spec.specs.Tree.{trees_by};
ghost use Rattle.tree_visit.specs.Seen.{seen};
ghost use Rattle.tree_visit.specs.Walk.{enter, leave, walk_of, walk_of_all};

use crate::kinds::Kind;
use crate::lists::{walk_all, walk_two};
use crate::watch::{Node, Walk, Watch};
use base_token::Span;

/// Tells a visitor that a node is entered.
pub(crate) fn enter_part<V: Watch>(kind: Kind, span: Span, visitor: &mut V)
    ensures { V.state visitor.new ≡ V.step (enter (seen kind span [])) (V.state visitor.old) }
{
    visitor.enter(Node::Part(kind, span));
}

/// Tells a visitor that a node is left.
pub(crate) fn leave_part<V: Watch>(kind: Kind, span: Span, visitor: &mut V)
    ensures { V.state visitor.new ≡ V.step (leave (seen kind span [])) (V.state visitor.old) }
{
    visitor.leave(Node::Part(kind, span));
}

/// Tells of a node with nothing below it.
pub(crate) fn tell_leaf<V: Watch>(kind: Kind, span: Span, visitor: &mut V)
    ensures { V.state visitor.new ≡ V.step (leave (seen kind span [])) (V.step (enter (seen kind span [])) (V.state visitor.old)) }
{
    enter_part(kind, span, visitor);
    leave_part(kind, span, visitor);
}

/// Tells of a node, and between goes over the one part below it.
pub(crate) fn tell_one<T: Walk, V: Watch>(kind: Kind, span: Span, part: &T, visitor: &mut V)
    ensures { V.state visitor.new ≡ V.step (leave (seen kind span [])) (walk_of V.step (T.tree part.now) (V.step (enter (seen kind span [])) (V.state visitor.old))) }
{
    enter_part(kind, span, visitor);
    part.walk(visitor);
    leave_part(kind, span, visitor);
}

/// Tells of a node, and between goes over the two parts below it.
pub(crate) fn tell_two<T: Walk, U: Walk, V: Watch>(
    kind: Kind,
    span: Span,
    first: &T,
    second: &U,
    visitor: &mut V,
)
    ensures { V.state visitor.new ≡ V.step (leave (seen kind span [])) (walk_of V.step (U.tree second.now) (walk_of V.step (T.tree first.now) (V.step (enter (seen kind span [])) (V.state visitor.old)))) }
{
    enter_part(kind, span, visitor);
    walk_two(first, second, visitor);
    leave_part(kind, span, visitor);
}

/// Tells of a node, and between goes over the list below it.
pub(crate) fn tell_list<T: Walk, V: Watch>(kind: Kind, span: Span, items: &[T], visitor: &mut V)
    ensures { V.state visitor.new ≡ V.step (leave (seen kind span [])) (walk_of_all V.step (trees_by T.tree items.now) (V.step (enter (seen kind span [])) (V.state visitor.old))) }
{
    enter_part(kind, span, visitor);
    walk_all(items, visitor);
    leave_part(kind, span, visitor);
}
