//! What may tell of a module, and lists and parts that may be left out.
ghost use Rattle.std.specs.Prelude.{◌≡◌};
ghost use Rattle.grammar_text_spec.specs.Choice.{some_true, telling};
ghost use Rattle.tree_spec.specs.Folds.{fold, folds};
ghost use Rattle.tree_spec.specs.Tree.{Tree, trees_by, part_by, element_by, list};

use tree_nodes::Child;

/// What may tell of a module: a part of a tree, a list of such parts, or a part that may be left out.
pub(crate) trait Tells {
    /// What it stands for.
    ghost tree: { Self → Tree };

    /// Whether it is or holds what only a module may have outside functions.
    fn tells(&self) -> bool
        ensures { result ≡ fold telling (tree self.now) };
}

/// Whether one of a list tells.
fn any_tells<T: Tells>(items: &[T]) -> bool
    ensures { result ≡ some_true (folds telling (trees_by T.tree items.now)) }
{
    for x in items {
        if x.tells() {
            return true;
        }
    }
    false
}

/// Whether one of a list tells whose elements may be left out.
pub(crate) fn any_element<T: Tells>(items: &[Option<T>]) -> bool
    ensures { result ≡ some_true (folds telling (trees_by (element_by T.tree) items.now)) }
{
    for x in items {
        if x.tells() {
            return true;
        }
    }
    false
}

impl<T: Tells, K> Tells for Child<T, K> {
    ghost tree = { λ c. T.tree c.part.value };

    fn tells(&self) -> bool {
        self.part.tells()
    }
}

impl<T: Tells> Tells for Option<T> {
    ghost tree = { part_by T.tree };

    fn tells(&self) -> bool {
        match self {
            Some(x) => x.tells(),
            None => false,
        }
    }
}

impl<T: Tells> Tells for Vec<T> {
    ghost tree = { λ v. list (trees_by T.tree v.items) };

    fn tells(&self) -> bool {
        any_tells(self.as_slice())
    }
}

impl<T: Tells> Tells for Box<T> {
    ghost tree = { λ b. T.tree b.value };

    fn tells(&self) -> bool {
        (**self).tells()
    }
}
