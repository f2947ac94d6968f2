//! What can be changed in place, and who changes it.
ghost use Rattle.std.specs.Prelude.{All};
ghost use Rattle.tree_nodes.specs.Placed.{Placed, holds_expr, holds_stmt, holds_pat};
ghost use Rattle.tree_visit_mut.specs.Sorts.{SameSort};
ghost use Rattle.tree_nodes.specs.Fits.{fits_held, fits_function, fits_class, fits_decorator, fits_expr_or_spread, fits_param, fits_var_declarator};

use base_token::Span;
use tree_nodes::{
    BigInt, Child, ClassOf, DecoratorOf, ExprOrSpreadOf, ExprTag, FunctionOf, Ident, IdentName,
    Number, ParamOf, PatTag, PrivateName, StmtTag, Str, TplElement, VarDeclaratorOf,
};

/// A name, a literal or a text of a template.
pub enum Word<'a> {
    Ident(&'a mut Ident),
    IdentName(&'a mut IdentName),
    PrivateName(&'a mut PrivateName),
    Str(&'a mut Str),
    Number(&'a mut Number),
    BigInt(&'a mut BigInt),
    TplElement(&'a mut TplElement),
}

/// Who changes the parts of a tree whose children's boxes keep `T`: it changes what these keep, and hands a visitor the
/// other nodes that it has hooks for. The walk is generic in `T`, so that no function of it has a type that reaches the
/// whole tree.
pub trait Change<T> {
    /// The node and the sort of its place, of what a box keeps.
    ghost placed: { T → Placed };

    /// Changes what a child's box keeps. Its sort stays.
    fn child(&mut self, child: &mut T)
        ensures { SameSort (placed child.old) (placed child.new) };

    /// Hands a function, before what is below it is changed.
    fn enter_function(&mut self, node: &FunctionOf<T>)
        requires { fits_function placed node.now };

    /// Hands a function, after what is below it was changed.
    fn leave_function(&mut self, node: &mut FunctionOf<T>)
        requires { fits_function placed node.old }
        ensures { fits_function placed node.new };

    /// Hands a class, before what is below it is changed.
    fn enter_class(&mut self, node: &ClassOf<T>)
        requires { fits_class placed node.now };

    /// Hands a class, after what is below it was changed.
    fn leave_class(&mut self, node: &mut ClassOf<T>)
        requires { fits_class placed node.old }
        ensures { fits_class placed node.new };

    /// Hands the statements of a block, a script or a clause of `switch`, after each was changed.
    fn leave_stmts(&mut self, stmts: &mut Vec<Child<T, StmtTag>>)
        requires { All (λ x. holds_stmt (placed x.part.value)) stmts.old.items }
        ensures { All (λ x. holds_stmt (placed x.part.value)) stmts.new.items };

    /// Hands a name, a literal or a text of a template.
    fn word(&mut self, word: Word<'_>);

    /// Hands the place of a node, or of the dots before one.
    fn span(&mut self, span: &mut Span);
}

/// What can be changed: a part of a tree whose children's boxes keep `T`.
pub trait WalkMut<T, C: Change<T>> {
    /// That each child is of the sort of its place.
    ghost fits: { Self → Type 0 };

    /// Changes what is below it, and then itself.
    fn walk_mut(&mut self, by: &mut C)
        requires { fits self.old }
        ensures { fits self.new };
}

impl<T, C: Change<T>> WalkMut<T, C> for Child<T, ExprTag> {
    ghost fits = { λ c. holds_expr (C.placed c.part.value) };

    #[tactic(auto, using(crate::proofs::Sorts::expr_stays))]
    fn walk_mut(&mut self, by: &mut C) {
        by.child(&mut *self.part);
    }
}

impl<T, C: Change<T>> WalkMut<T, C> for Child<T, StmtTag> {
    ghost fits = { λ c. holds_stmt (C.placed c.part.value) };

    #[tactic(auto, using(crate::proofs::Sorts::stmt_stays))]
    fn walk_mut(&mut self, by: &mut C) {
        by.child(&mut *self.part);
    }
}

impl<T, C: Change<T>> WalkMut<T, C> for Child<T, PatTag> {
    ghost fits = { λ c. holds_pat (C.placed c.part.value) };

    #[tactic(auto, using(crate::proofs::Sorts::pat_stays))]
    fn walk_mut(&mut self, by: &mut C) {
        by.child(&mut *self.part);
    }
}

/// Changes each of a list.
pub(crate) fn walk_all<T, C: Change<T>, X: WalkMut<T, C>>(items: &mut Vec<X>, by: &mut C)
    requires { All X.fits items.old.items }
    ensures { All X.fits items.new.items }
{
    for x in items.iter_mut() {
        x.walk_mut(by);
    }
}

/// Changes each of a list whose elements may be left out.
pub(crate) fn walk_elements<T, C: Change<T>, X: WalkMut<T, C>>(
    items: &mut Vec<Option<X>>,
    by: &mut C,
)
    requires { All (λ x. fits_held X.fits x) items.old.items }
    ensures { All (λ x. fits_held X.fits x) items.new.items }
{
    for x in items.iter_mut() {
        walk_part(x, by);
    }
}

/// Changes a part that may be left out.
pub(crate) fn walk_part<T, C: Change<T>, X: WalkMut<T, C>>(part: &mut Option<X>, by: &mut C)
    requires { fits_held X.fits part.old }
    ensures { fits_held X.fits part.new }
{
    if let Some(x) = part {
        x.walk_mut(by);
    }
}

// For the proof: what several structs hold, since a call that is handed no type to go over costs a tenth of one that is.

/// Changes an expression that may be left out.
#[tactic(auto, using(crate::proofs::Sorts::expr_stays))]
pub(crate) fn walk_value<T, C: Change<T>>(value: &mut Option<Child<T, ExprTag>>, by: &mut C)
    requires { fits_held (λ x. holds_expr (C.placed x.part.value)) value.old }
    ensures { fits_held (λ x. holds_expr (C.placed x.part.value)) value.new }
{
    if let Some(x) = value {
        by.child(&mut *x.part);
    }
}

/// Changes an expression that may be left out, and the place of what holds it.
pub(crate) fn walk_value_at<T, C: Change<T>>(
    value: &mut Option<Child<T, ExprTag>>,
    span: &mut Span,
    by: &mut C,
)
    requires { fits_held (λ x. holds_expr (C.placed x.part.value)) value.old }
    ensures { fits_held (λ x. holds_expr (C.placed x.part.value)) value.new }
{
    walk_value(value, by);
    by.span(span);
}

/// Changes an expression, and the place of what holds it.
#[tactic(auto, using(crate::proofs::Sorts::expr_stays))]
pub(crate) fn walk_expr_at<T, C: Change<T>>(
    expr: &mut Child<T, ExprTag>,
    span: &mut Span,
    by: &mut C,
)
    requires { holds_expr (C.placed expr.old.part.value) }
    ensures { holds_expr (C.placed expr.new.part.value) }
{
    by.child(&mut *expr.part);
    by.span(span);
}

/// Changes a statement, and the place of what holds it.
#[tactic(auto, using(crate::proofs::Sorts::stmt_stays))]
pub(crate) fn walk_stmt_at<T, C: Change<T>>(
    stmt: &mut Child<T, StmtTag>,
    span: &mut Span,
    by: &mut C,
)
    requires { holds_stmt (C.placed stmt.old.part.value) }
    ensures { holds_stmt (C.placed stmt.new.part.value) }
{
    by.child(&mut *stmt.part);
    by.span(span);
}

/// Changes each of a list of statements, and then hands the list.
pub(crate) fn walk_stmts<T, C: Change<T>>(stmts: &mut Vec<Child<T, StmtTag>>, by: &mut C)
    requires { All (λ x. holds_stmt (C.placed x.part.value)) stmts.old.items }
    ensures { All (λ x. holds_stmt (C.placed x.part.value)) stmts.new.items }
{
    walk_all(stmts, by);
    by.leave_stmts(stmts);
}

/// Changes each decorator of a list.
pub(crate) fn walk_decorators<T, C: Change<T>>(decorators: &mut Vec<DecoratorOf<T>>, by: &mut C)
    requires { All (λ x. fits_decorator C.placed x) decorators.old.items }
    ensures { All (λ x. fits_decorator C.placed x) decorators.new.items }
{
    walk_all(decorators, by);
}

/// Changes each argument of a list.
pub(crate) fn walk_args<T, C: Change<T>>(args: &mut Vec<ExprOrSpreadOf<T>>, by: &mut C)
    requires { All (λ x. fits_expr_or_spread C.placed x) args.old.items }
    ensures { All (λ x. fits_expr_or_spread C.placed x) args.new.items }
{
    walk_all(args, by);
}

/// Changes each parameter of a list.
pub(crate) fn walk_params<T, C: Change<T>>(params: &mut Vec<ParamOf<T>>, by: &mut C)
    requires { All (λ x. fits_param C.placed x) params.old.items }
    ensures { All (λ x. fits_param C.placed x) params.new.items }
{
    walk_all(params, by);
}

/// Changes each declarator of a list.
pub(crate) fn walk_declarators<T, C: Change<T>>(
    declarators: &mut Vec<VarDeclaratorOf<T>>,
    by: &mut C,
)
    requires { All (λ x. fits_var_declarator C.placed x) declarators.old.items }
    ensures { All (λ x. fits_var_declarator C.placed x) declarators.new.items }
{
    walk_all(declarators, by);
}

/// Changes the place of dots, where they stand.
pub(crate) fn walk_place<T, C: Change<T>>(place: &mut Option<Span>, by: &mut C) {
    if let Some(span) = place {
        by.span(span);
    }
}
