//! What has a nesting, and counts of lists and of parts that may be left out.
ghost use Rattle.std.specs.Prelude.{◌≡◌, ◌+◌};
ghost use Rattle.tree_nodes.specs.Tree.{Tree, trees_by, part_by, element_by, list};
ghost use Rattle.tree_nesting.specs.Nesting.{nesting, nesting_of_all, is_if, capped};

use tree_nodes::Child;

/// What has a nesting: a part of a tree, a list of such parts, or a part that may be left out.
pub trait Nesting {
    /// What it stands for.
    ghost tree: { Self → Tree };

    /// How deep it goes: 1 for a leaf and one more than its deepest child for another struct, where what a
    /// chain goes on from (a left operand, the object of a member, the callee of a call, the tag of a
    /// template) and an `if` that is the alternative of an `if` add nothing, an optional chain counts as its
    /// member or its call, and a name as a pattern is a leaf. Past the greatest number of 32 bits it stays
    /// there.
    fn nesting(&self) -> u32
        ensures { result ≡ capped (nesting (tree self.now)) };
}

/// What is kept in a child's box.
pub trait Held: Nesting {
    /// Whether it is an `if` statement.
    fn is_if(&self) -> bool
        ensures { result ≡ is_if (Self.Nesting.tree self.now) };
}

/// One more than the deepest child.
pub(crate) fn above(deepest: u32) -> u32
    ensures { result ≡ capped (deepest + 1) }
{
    deepest.saturating_add(1)
}

/// The deepest of a list.
fn deepest<T: Nesting>(items: &[T]) -> u32
    ensures { result ≡ capped (nesting_of_all (trees_by T.tree items.now)) }
{
    let mut deepest = 0;
    for x in items {
        deepest = x.nesting().max(deepest);
    }
    deepest
}

/// The deepest of a list whose elements may be left out.
pub(crate) fn deepest_element<T: Nesting>(items: &[Option<T>]) -> u32
    ensures { result ≡ capped (nesting_of_all (trees_by (element_by T.tree) items.now)) }
{
    let mut deepest = 0;
    for x in items {
        deepest = x.nesting().max(deepest);
    }
    deepest
}

impl<T: Nesting, K> Nesting for Child<T, K> {
    ghost tree = { λ c. T.tree c.part.value };

    fn nesting(&self) -> u32 {
        self.part.nesting()
    }
}

impl<T: Nesting> Nesting for Option<T> {
    ghost tree = { part_by T.tree };

    fn nesting(&self) -> u32 {
        match self {
            Some(x) => x.nesting(),
            None => 0,
        }
    }
}

impl<T: Nesting> Nesting for Vec<T> {
    ghost tree = { λ v. list (trees_by T.tree v.items) };

    fn nesting(&self) -> u32 {
        deepest(self.as_slice())
    }
}

impl<T: Nesting> Nesting for Box<T> {
    ghost tree = { λ b. T.tree b.value };

    fn nesting(&self) -> u32 {
        (**self).nesting()
    }
}
