//! What can be compared, lists, parts that may be left out, and children beside other nodes.
ghost use Rattle.std.specs.Prelude.{◌≡◌, Bool, true, false};
ghost use Rattle.tree_spec.specs.Tree.{Tree, trees_by, part_by, element_by, list};
ghost use Rattle.tree_program_spec.specs.Same.{same};
ghost use Rattle.tree_nodes.specs.View.{view_expr_or_spread};
ghost use Rattle.tree_same.specs.Sorts.{is_statement, is_node, is_left_out};
ghost use Rattle.tree_same.specs.Compared.{same_arguments, is_use_strict};
ghost use Rattle.tree_same.specs.Seen.{in_place};

use tree_nodes::{Child, ExprOrSpreadOf};

/// What can be compared: a part of a tree, a list of such parts, or a part that may be left out.
pub trait Same {
    /// What it stands for.
    ghost tree: { Self → Tree };

    /// Whether the two say the same. It takes no memory.
    fn same(&self, other: &Self) -> bool
        ensures { result ≡ same (tree self.now) (tree other.now) };
}

/// What may be left out of a tree, where it is there.
pub trait Present: Same {
    /// Whether it is what stands for nothing, which it isn't.
    fn is_left_out(&self) -> bool
        ensures answer { result ≡ false }
        ensures there { is_left_out (Self.Same.tree self.now) ≡ false };
}

/// What is kept in a child's box.
pub trait Held: Same {
    /// Whether it is in the place of a statement.
    ghost in_stmt: { Self → Bool };

    /// Whether it is a statement.
    fn is_stmt(&self) -> bool
        ensures answer { result ≡ in_stmt self.now }
        ensures statement { is_statement (Self.Same.tree self.now) ≡ in_stmt self.now };

    /// Whether it is an expression, a statement or a pattern, which it is.
    fn is_node(&self) -> bool
        ensures answer { result ≡ true }
        ensures node { is_node (Self.Same.tree self.now) ≡ true };

    /// Whether it is the string `use strict`, without an escape.
    fn is_use_strict(&self) -> bool
        ensures { result ≡ is_use_strict (Self.Same.tree self.now) };
}

impl<T: Held, K> Same for Child<T, K> {
    ghost tree = { λ c. T.tree c.part.value };

    fn same(&self, other: &Child<T, K>) -> bool {
        self.part.same(&other.part)
    }
}

impl<T: Held, K> Present for Child<T, K> {
    #[tactic(auto, using(crate::proofs::Mixed::node_is_there))]
    fn is_left_out(&self) -> bool {
        // For the proof: a part is always a node; the call brings that fact.
        !self.part.is_node()
    }
}

impl<T: Same> Same for Box<T> {
    ghost tree = { λ b. T.tree b.value };

    fn same(&self, other: &Box<T>) -> bool {
        (**self).same(&**other)
    }
}

impl<T: Present> Present for Box<T> {
    fn is_left_out(&self) -> bool {
        (**self).is_left_out()
    }
}

impl<T: Present> Same for Option<T> {
    ghost tree = { part_by T.tree };

    #[tactic(auto, using(crate::proofs::Mixed::part_cases))]
    fn same(&self, other: &Option<T>) -> bool {
        match (self, other) {
            (Some(x), Some(y)) => x.same(y),
            // For the proof: what is there is never left out; the calls bring that fact.
            (Some(x), None) => x.is_left_out(),
            (None, Some(y)) => y.is_left_out(),
            (None, None) => true,
        }
    }
}

impl<T: Same> Same for Vec<T> {
    ghost tree = { λ v. list (trees_by T.tree v.items) };

    fn same(&self, other: &Vec<T>) -> bool {
        same_items(self.as_slice(), other.as_slice())
    }
}

/// Whether two lists say the same.
pub(crate) fn same_items<T: Same>(items: &[T], others: &[T]) -> bool
    ensures { result ≡ same (list (trees_by T.tree items.now)) (list (trees_by T.tree others.now)) }
{
    let mut rest = others;
    'items: for x in items {
        let Some((y, after)) = rest.split_first() else {
            return false;
        };
        if !x.same(y) {
            return false;
        }
        rest = after;
    }
    rest.is_empty()
}

/// Whether two elements that may be left out say the same.
#[tactic(auto, using(crate::proofs::Mixed::element_cases))]
fn same_element<T: Present>(item: &Option<T>, other: &Option<T>) -> bool
    ensures { result ≡ same (element_by T.tree item.now) (element_by T.tree other.now) }
{
    match (item, other) {
        (Some(x), Some(y)) => x.same(y),
        // For the proof: what is there is never left out; the calls bring that fact.
        (Some(x), None) => x.is_left_out(),
        (None, Some(y)) => y.is_left_out(),
        (None, None) => true,
    }
}

/// Whether two lists say the same whose elements may be left out.
pub(crate) fn same_elements<T: Present>(items: &[Option<T>], others: &[Option<T>]) -> bool
    ensures { result ≡ same (list (trees_by (element_by T.tree) items.now)) (list (trees_by (element_by T.tree) others.now)) }
{
    let mut rest = others;
    'items: for x in items {
        let Some((y, after)) = rest.split_first() else {
            return false;
        };
        if !same_element(x, y) {
            return false;
        }
        rest = after;
    }
    rest.is_empty()
}

/// Whether the arguments of two `new` say the same: none at all are an empty list.
#[tactic(auto, using(crate::proofs::Lists::arguments_cases))]
pub(crate) fn same_arguments<T: Held>(
    args: &Option<Vec<ExprOrSpreadOf<T>>>,
    others: &Option<Vec<ExprOrSpreadOf<T>>>,
) -> bool
    ensures { result ≡ same_arguments (part_by (λ x. list (trees_by (view_expr_or_spread T.tree) x.items)) args.now) (part_by (λ x. list (trees_by (view_expr_or_spread T.tree) x.items)) others.now) }
{
    match (args, others) {
        (Some(args), Some(others)) => args.same(others),
        (Some(args), None) => args.is_empty(),
        (None, Some(others)) => others.is_empty(),
        (None, None) => true,
    }
}

/// Whether two children say the same, where no statement may stand.
#[tactic(auto, using(crate::proofs::Mixed::in_place_cases))]
pub(crate) fn same_in_place<T: Held, K>(child: &Child<T, K>, other: &Child<T, K>) -> bool
    ensures { result ≡ same (in_place T.in_stmt T.tree child.now) (in_place T.in_stmt T.tree other.now) }
{
    match (child.part.is_stmt(), other.part.is_stmt()) {
        (false, false) => child.part.same(&other.part),
        // For the proof: a part is always a node; the calls bring that fact.
        (true, false) => !other.part.is_node(),
        (false, true) => !child.part.is_node(),
        (true, true) => true,
    }
}

/// Whether a child is a block or a declaration, where none may stand. None is.
#[tactic(auto, using(crate::proofs::Mixed::in_place_statement))]
pub(crate) fn is_statement<T: Held, K>(child: &Child<T, K>) -> bool
    ensures answer { result ≡ false }
    ensures none { is_statement (in_place T.in_stmt T.tree child.now) ≡ false }
{
    // For the proof: the call tells whether the child is a statement, which the lemma asks.
    let _ = child.part.is_stmt();
    false
}

/// Whether a child is what stands for nothing. None is.
#[tactic(auto, using(crate::proofs::Mixed::in_place_there))]
pub(crate) fn is_nothing<T: Held, K>(child: &Child<T, K>) -> bool
    ensures answer { result ≡ false }
    ensures none { is_left_out (in_place T.in_stmt T.tree child.now) ≡ false }
{
    // For the proof: a part is always a node; the call brings that fact.
    !child.part.is_node()
}
