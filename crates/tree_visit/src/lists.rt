//! Goes over lists, over what may be left out, and over parts one after another.
ghost use Rattle.std.specs.Prelude.{◌≡◌};
ghost use Rattle.tree_nodes.specs.View.{view_expr_or_spread, view_tpl_element};
ghost use Rattle.tree_spec.specs.Tree.{trees_by, part_by, element_by, list};
ghost use Rattle.tree_spec.specs.Folds.{folds};
ghost use Rattle.tree_visit.specs.Walk.{walk_of, walk_of_all, walk_step, by_turns};

use crate::watch::{Walk, Watch};
use tree_nodes::{ExprOrSpreadOf, TplElement};

impl<T: Walk> Walk for Vec<T> {
    ghost tree = { λ v. list (trees_by T.tree v.items) };

    fn walk<V: Watch>(&self, visitor: &mut V) {
        walk_all(self.as_slice(), visitor);
    }
}

impl<T: Walk> Walk for Option<T> {
    ghost tree = { part_by T.tree };

    fn walk<V: Watch>(&self, visitor: &mut V) {
        walk_part(self, visitor);
    }
}

/// Goes over a part that may be left out.
pub(crate) fn walk_part<T: Walk, V: Watch>(part: &Option<T>, visitor: &mut V)
    ensures { V.state visitor.new ≡ walk_of V.step (part_by T.tree part.now) (V.state visitor.old) }
{
    if let Some(x) = part {
        x.walk(visitor);
    }
}

/// Goes over a list.
pub(crate) fn walk_all<T: Walk, V: Watch>(items: &[T], visitor: &mut V)
    ensures { V.state visitor.new ≡ walk_of_all V.step (trees_by T.tree items.now) (V.state visitor.old) }
{
    for x in items {
        x.walk(visitor);
    }
}

/// Goes over a list whose elements may be left out.
pub(crate) fn walk_elements<T: Walk, V: Watch>(items: &[Option<T>], visitor: &mut V)
    ensures { V.state visitor.new ≡ walk_of_all V.step (trees_by (element_by T.tree) items.now) (V.state visitor.old) }
{
    for x in items {
        x.walk(visitor);
    }
}

/// Goes over two parts.
pub(crate) fn walk_two<T: Walk, U: Walk, V: Watch>(first: &T, second: &U, visitor: &mut V)
    ensures { V.state visitor.new ≡ walk_of V.step (U.tree second.now) (walk_of V.step (T.tree first.now) (V.state visitor.old)) }
{
    first.walk(visitor);
    second.walk(visitor);
}

/// Goes over three parts.
pub(crate) fn walk_three<T: Walk, U: Walk, W: Walk, V: Watch>(
    first: &T,
    second: &U,
    third: &W,
    visitor: &mut V,
)
    ensures { V.state visitor.new ≡ walk_of V.step (W.tree third.now) (walk_of V.step (U.tree second.now) (walk_of V.step (T.tree first.now) (V.state visitor.old))) }
{
    first.walk(visitor);
    second.walk(visitor);
    third.walk(visitor);
}

/// Goes over a part and a list.
pub(crate) fn walk_headed<T: Walk, U: Walk, V: Watch>(head: &T, items: &[U], visitor: &mut V)
    ensures { V.state visitor.new ≡ walk_of_all V.step (trees_by U.tree items.now) (walk_of V.step (T.tree head.now) (V.state visitor.old)) }
{
    head.walk(visitor);
    walk_all(items, visitor);
}

/// Goes over the arguments of a call.
pub(crate) fn walk_args<T: Walk, V: Watch>(args: &Vec<ExprOrSpreadOf<T>>, visitor: &mut V)
    ensures { V.state visitor.new ≡ walk_of_all V.step (trees_by (view_expr_or_spread T.tree) args.now.items) (V.state visitor.old) }
{
    walk_all(args.as_slice(), visitor);
}

/// Goes over the texts of a template and its expressions by turns.
pub(crate) fn walk_template<T: Walk, V: Watch>(texts: &[TplElement], exprs: &[T], visitor: &mut V)
    ensures { V.state visitor.new ≡ by_turns (folds (walk_step V.step) (trees_by view_tpl_element texts.now)) (folds (walk_step V.step) (trees_by T.tree exprs.now)) (V.state visitor.old) }
{
    let mut rest = exprs;
    for text in texts {
        text.walk(visitor);
        if let Some((expr, after)) = rest.split_first() {
            expr.walk(visitor);
            rest = after;
        }
    }
    walk_all(rest, visitor);
}
