//! The knot of the tree: expressions, statements and patterns, which hold one another. Every other node
//! holds its children in boxes of one of these three sorts.
ghost use Rattle.std.specs.Prelude.{◌≡◌};
ghost use Rattle.tree_nodes.specs.Placed.{part_tree, inner};
ghost use Rattle.tree_spec.specs.Places.{place_of};

use crate::expressions::{
    BinExprOf, CallExprOf, CalleeOf, ExprKind, ExprKindOf, MemberExprOf, OptCallOf, OptChainBaseOf,
    OptChainExprOf, TaggedTplOf,
};
use crate::patterns::PatKind;
use crate::programs::ProgramKind;
use crate::statements::{IfStmtOf, StmtKind, StmtKindOf};
use base_token::{Span, Spanned};
use std::marker::{Model, PhantomData};

/// What is kept in a child's box: a node of one of the three sorts. Code that goes over all nodes matches on
/// it; other code takes a child's `get` and its kin.
#[cycle(ast)]
#[derive(Debug)]
pub struct Part {
    pub sort: PartKind,
}

/// A node of one of the three sorts.
#[cycle(ast)]
#[derive(Debug, Drop)]
pub enum PartKind {
    Expr(Expr),
    Stmt(Stmt),
    Pat(Pat),
}

/// An expression. A contract sees its spec tree.
#[cycle(ast)]
#[derive(Debug, Drop)]
pub struct Expr {
    pub kind: ExprKind,
}

/// A statement or a declaration. A contract sees its spec tree.
#[cycle(ast)]
#[derive(Debug, Drop)]
pub struct Stmt {
    pub kind: StmtKind,
}

/// A pattern: what is bound, or assigned to. A contract sees its spec tree.
#[cycle(ast)]
#[derive(Debug, Drop)]
pub struct Pat {
    pub kind: PatKind,
}

impl Model for Part {
    ghost use Rattle.tree_nodes.specs.Placed.{Placed, placed_code, placed_size};

    ghost Value = { Placed };

    ghost coded = { placed_code };

    ghost use Rattle.tree_nodes.specs.Placed.{part_tree};

    ghost view = { λ a. part_tree a.sort };

    ghost size = { placed_size };

    ghost use Rattle.tree_nodes.specs.Sizes.{part_falls};

    ghost size_decreases = { λ a h. part_falls a.sort };
}

impl Model for Expr {
    ghost use Rattle.tree_spec.specs.Tree.{Tree};
    ghost use Rattle.tree_spec.specs.Codes.{tree_code, tree_size};

    ghost Value = { Tree };

    ghost coded = { tree_code };

    ghost use Rattle.tree_nodes.specs.Placed.{inner};
    ghost use Rattle.tree_nodes.specs.View.{view_expr_kind};
    ghost use Rattle.tree_nodes.specs.Fits.{fits_expr_kind};

    ghost view = { λ a. view_expr_kind inner a.kind };

    ghost invariant = { λ a. fits_expr_kind (λ p. p) a.kind };

    ghost size = { tree_size };

    ghost use Rattle.tree_nodes.specs.Sizes.{expr_falls};

    ghost size_decreases = { λ a h. expr_falls a.kind };
}

impl Model for Stmt {
    ghost use Rattle.tree_spec.specs.Tree.{Tree};
    ghost use Rattle.tree_spec.specs.Codes.{tree_code, tree_size};

    ghost Value = { Tree };

    ghost coded = { tree_code };

    ghost use Rattle.tree_nodes.specs.Placed.{inner};
    ghost use Rattle.tree_nodes.specs.View.{view_stmt_kind};
    ghost use Rattle.tree_nodes.specs.Fits.{fits_stmt_kind};

    ghost view = { λ a. view_stmt_kind inner a.kind };

    ghost invariant = { λ a. fits_stmt_kind (λ p. p) a.kind };

    ghost size = { tree_size };

    ghost use Rattle.tree_nodes.specs.Sizes.{stmt_falls};

    ghost size_decreases = { λ a h. stmt_falls a.kind };
}

impl Model for Pat {
    ghost use Rattle.tree_spec.specs.Tree.{Tree};
    ghost use Rattle.tree_spec.specs.Codes.{tree_code, tree_size};

    ghost Value = { Tree };

    ghost coded = { tree_code };

    ghost use Rattle.tree_nodes.specs.Placed.{inner};
    ghost use Rattle.tree_nodes.specs.View.{view_pat_kind};
    ghost use Rattle.tree_nodes.specs.Fits.{fits_pat_kind};

    ghost view = { λ a. view_pat_kind inner a.kind };

    ghost invariant = { λ a. fits_pat_kind (λ p. p) a.kind };

    ghost size = { tree_size };

    ghost use Rattle.tree_nodes.specs.Sizes.{pat_falls};

    ghost size_decreases = { λ a h. pat_falls a.kind };
}

/// The place of an expression.
#[derive(Clone, Copy, Debug)]
pub struct ExprTag;

/// The place of a statement.
#[derive(Clone, Copy, Debug)]
pub struct StmtTag;

/// The place of a pattern.
#[derive(Clone, Copy, Debug)]
pub struct PatTag;

/// A child in its box: a node of the sort that `K` names. `part` is for code that goes over all nodes; a part
/// of another sort in it breaks what the parent promises, and is refused there.
#[derive(Debug, Drop)]
pub struct Child<T, K> {
    pub part: Box<T>,
    pub(crate) kind: PhantomData<K>,
}

/// An expression below another node.
pub type ExprBox = Child<Part, ExprTag>;

/// A statement below another node.
pub type StmtBox = Child<Part, StmtTag>;

/// A pattern below another node.
pub type PatBox = Child<Part, PatTag>;

/// A script or a module. A contract sees its spec tree.
#[derive(Debug)]
pub struct Program {
    pub kind: ProgramKind,
}

impl Drop for Program {
    /// One call where one is let go, in place of a step for each part.
    fn drop(self) {
        let Program { kind: _kind } = self;
    }
}

impl Model for Program {
    ghost use Rattle.tree_spec.specs.Tree.{Tree};
    ghost use Rattle.tree_spec.specs.Codes.{tree_code};

    ghost Value = { Tree };

    ghost coded = { tree_code };

    ghost use Rattle.tree_nodes.specs.Placed.{inner};
    ghost use Rattle.tree_nodes.specs.View.{view_program_kind};
    ghost use Rattle.tree_nodes.specs.Fits.{fits_program_kind};

    ghost view = { λ a. view_program_kind inner a.kind };

    ghost invariant = { λ a. fits_program_kind (λ p. p) a.kind };
}

impl Part {
    /// What stands in this place.
    pub fn into_sort(self) -> PartKind
        ensures { self ≡ part_tree result }
    {
        let Part { sort } = self;
        sort
    }
}

impl Drop for Part {
    /// Goes down what a chain begins with in a loop, so that no chain is too long: left operands, objects of
    /// members, callees, tags of templates, and alternatives of `if`.
    fn drop(mut self) {
        'chain: loop {
            let Part { sort } = self;
            match sort {
                PartKind::Expr(e) => {
                    let Expr { kind } = e;
                    match kind {
                        ExprKindOf::Bin(b) => {
                            let BinExprOf {
                                span: _,
                                op: _,
                                left,
                                right: _right,
                            } = b;
                            self = Box::into_inner(left.part);
                        }
                        ExprKindOf::Member(m) => {
                            let MemberExprOf {
                                span: _,
                                obj,
                                prop: _prop,
                            } = m;
                            self = Box::into_inner(obj.part);
                        }
                        ExprKindOf::TaggedTpl(t) => {
                            let TaggedTplOf {
                                span: _,
                                tag,
                                tpl: _tpl,
                            } = t;
                            self = Box::into_inner(tag.part);
                        }
                        ExprKindOf::Call(c) => {
                            let CallExprOf {
                                span: _,
                                callee,
                                args: _args,
                            } = c;
                            match callee {
                                CalleeOf::Expr(callee) => self = Box::into_inner(callee.part),
                                _callee => return,
                            }
                        }
                        ExprKindOf::OptChain(o) => {
                            let OptChainExprOf {
                                span: _,
                                optional: _,
                                base,
                            } = o;
                            match base {
                                OptChainBaseOf::Member(m) => {
                                    let MemberExprOf {
                                        span: _,
                                        obj,
                                        prop: _prop,
                                    } = m;
                                    self = Box::into_inner(obj.part);
                                }
                                OptChainBaseOf::Call(c) => {
                                    let OptCallOf {
                                        span: _,
                                        callee,
                                        args: _args,
                                    } = c;
                                    self = Box::into_inner(callee.part);
                                }
                            }
                        }
                        _other => return,
                    }
                }
                PartKind::Stmt(s) => {
                    let Stmt { kind } = s;
                    match kind {
                        StmtKindOf::If(i) => {
                            let IfStmtOf {
                                span: _,
                                test: _test,
                                cons: _cons,
                                alt,
                            } = i;
                            match alt {
                                Some(alt) => self = Box::into_inner(alt.part),
                                None => return,
                            }
                        }
                        _other => return,
                    }
                }
                PartKind::Pat(_pat) => return,
            }
        }
    }
}

impl Spanned for Expr {
    ghost span_of = { place_of };

    fn span(&self) -> Span {
        self.kind.span()
    }
}

impl Spanned for Stmt {
    ghost span_of = { place_of };

    fn span(&self) -> Span {
        self.kind.span()
    }
}

impl Spanned for Pat {
    ghost span_of = { place_of };

    #[cycle(span)]
    fn span(&self) -> Span {
        self.kind.span()
    }
}

impl Spanned for Program {
    ghost span_of = { place_of };

    fn span(&self) -> Span {
        self.kind.span()
    }
}

impl Spanned for Part {
    ghost span_of = { λ p. place_of (inner p) };

    #[cycle(span)]
    fn span(&self) -> Span {
        match &self.sort {
            PartKind::Expr(x) => x.span(),
            PartKind::Stmt(x) => x.span(),
            PartKind::Pat(x) => x.span(),
        }
    }
}

impl<T: Spanned, K> Spanned for Child<T, K> {
    ghost span_of = { λ c. T.span_of c.part.value };

    fn span(&self) -> Span {
        self.part.span()
    }
}
