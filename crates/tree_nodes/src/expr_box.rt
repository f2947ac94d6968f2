//! Expressions in their boxes: made, read, changed, taken out.
ghost use Rattle.std.specs.Prelude.{◌≡◌, IfOk, MatchOption};
ghost use Rattle.std.specs.Borrow.{sem};
ghost use Rattle.tree_nodes.specs.Placed.{in_expr, holds_expr};
ghost use Rattle.tree_nodes.specs.Lending.{LendsPartExpr, LendsIfExpr, LendsExpr};

use crate::knot::{Child, Expr, ExprTag, Part, PartKind};
use std::alloc::{AllocError, Global};
use std::marker::PhantomData;
use std::mem;

impl Part {
    /// The expression, to change it, if it is one.
    fn expr_mut(&mut self) -> Option<&mut Expr>
        ensures* writes_back { sem 𝓛 (LendsPartExpr self.entry result) }
        ensures value { MatchOption result (holds_expr self.old → ⊥) (λ x. self.old ≡ in_expr x.now) }
    {
        match &mut self.sort {
            PartKind::Expr(x) => Some(x),
            PartKind::Stmt(_) => None,
            PartKind::Pat(_) => None,
        }
    }
}

impl Child<Part, ExprTag> {
    /// Puts an expression below another node.
    ///
    /// # Errors
    ///
    /// Want of memory.
    pub fn new(alloc: Global, node: Expr) -> Result<Child<Part, ExprTag>, AllocError>
        ensures { IfOk result (λ c. c.part.value ≡ in_expr node) }
    {
        let sort = PartKind::Expr(node);
        let part = Box::new(alloc, Part { sort })?;
        Ok(Child {
            part,
            kind: PhantomData,
        })
    }

    /// The node.
    pub fn get(&self) -> &Expr
        requires { holds_expr self.now.part.value }
        ensures { self.now.part.value ≡ in_expr result.now }
    {
        match &self.part.sort {
            PartKind::Expr(x) => x,
            _ => unreachable!(),
        }
    }

    /// The node, if the box holds one of its sort.
    fn node_mut(&mut self) -> Option<&mut Expr>
        ensures* writes_back { sem 𝓛 (LendsIfExpr self.entry result) }
        ensures value { MatchOption result (holds_expr self.old.part.value → ⊥) (λ x. self.old.part.value ≡ in_expr x.now) }
    {
        let part = &mut *self.part;
        part.expr_mut()
    }

    /// The node, to change it.
    pub fn get_mut(&mut self) -> &mut Expr
        requires { holds_expr self.old.part.value }
        ensures* writes_back { sem 𝓛 (LendsExpr self.entry result) }
        ensures value { self.old.part.value ≡ in_expr result.now }
    {
        match self.node_mut() {
            Some(x) => x,
            None => unreachable!(),
        }
    }

    /// The node, out of its box.
    pub fn into_inner(self) -> Expr
        requires { holds_expr self.part.value }
        ensures { self.part.value ≡ in_expr result }
    {
        let sort = Box::into_inner(self.part).into_sort();
        match sort {
            PartKind::Expr(x) => x,
            _ => unreachable!(),
        }
    }

    /// Puts a node in the place of this one, which it drops.
    pub fn set(&mut self, node: Expr)
        ensures { self.new.part.value ≡ in_expr node }
    {
        let sort = PartKind::Expr(node);
        *self.part = Part { sort };
    }

    /// Puts a node in the place of this one, and gives this one back.
    pub fn replace(&mut self, node: Expr) -> Expr
        requires { holds_expr self.old.part.value }
        ensures value { self.old.part.value ≡ in_expr result }
        ensures put { self.new.part.value ≡ in_expr node }
    {
        let sort = PartKind::Expr(node);
        let old = mem::replace(&mut *self.part, Part { sort });
        let old_sort = old.into_sort();
        match old_sort {
            PartKind::Expr(x) => x,
            _ => unreachable!(),
        }
    }
}
