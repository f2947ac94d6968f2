//! Statements in their boxes: made, read, changed, taken out.
ghost use Rattle.std.specs.Prelude.{◌≡◌, IfOk, MatchOption};
ghost use Rattle.std.specs.Borrow.{sem};
ghost use Rattle.tree_nodes.specs.Placed.{in_stmt, holds_stmt};
ghost use Rattle.tree_nodes.specs.Lending.{LendsPartStmt, LendsIfStmt, LendsStmt};

use crate::knot::{Child, Part, PartKind, Stmt, StmtTag};
use std::alloc::{AllocError, Global};
use std::marker::PhantomData;
use std::mem;

impl Part {
    /// The statement, to change it, if it is one.
    fn stmt_mut(&mut self) -> Option<&mut Stmt>
        ensures* writes_back { sem 𝓛 (LendsPartStmt self.entry result) }
        ensures value { MatchOption result (holds_stmt self.old → ⊥) (λ x. self.old ≡ in_stmt x.now) }
    {
        match &mut self.sort {
            PartKind::Stmt(x) => Some(x),
            PartKind::Expr(_) => None,
            PartKind::Pat(_) => None,
        }
    }
}

impl Child<Part, StmtTag> {
    /// Puts a statement below another node.
    ///
    /// # Errors
    ///
    /// Want of memory.
    pub fn new(alloc: Global, node: Stmt) -> Result<Child<Part, StmtTag>, AllocError>
        ensures { IfOk result (λ c. c.part.value ≡ in_stmt node) }
    {
        let sort = PartKind::Stmt(node);
        let part = Box::new(alloc, Part { sort })?;
        Ok(Child {
            part,
            kind: PhantomData,
        })
    }

    /// The node.
    pub fn get(&self) -> &Stmt
        requires { holds_stmt self.now.part.value }
        ensures { self.now.part.value ≡ in_stmt result.now }
    {
        match &self.part.sort {
            PartKind::Stmt(x) => x,
            _ => unreachable!(),
        }
    }

    /// The node, if the box holds one of its sort.
    fn node_mut(&mut self) -> Option<&mut Stmt>
        ensures* writes_back { sem 𝓛 (LendsIfStmt self.entry result) }
        ensures value { MatchOption result (holds_stmt self.old.part.value → ⊥) (λ x. self.old.part.value ≡ in_stmt x.now) }
    {
        let part = &mut *self.part;
        part.stmt_mut()
    }

    /// The node, to change it.
    pub fn get_mut(&mut self) -> &mut Stmt
        requires { holds_stmt self.old.part.value }
        ensures* writes_back { sem 𝓛 (LendsStmt self.entry result) }
        ensures value { self.old.part.value ≡ in_stmt result.now }
    {
        match self.node_mut() {
            Some(x) => x,
            None => unreachable!(),
        }
    }

    /// The node, out of its box.
    pub fn into_inner(self) -> Stmt
        requires { holds_stmt self.part.value }
        ensures { self.part.value ≡ in_stmt result }
    {
        let sort = Box::into_inner(self.part).into_sort();
        match sort {
            PartKind::Stmt(x) => x,
            _ => unreachable!(),
        }
    }

    /// Puts a node in the place of this one, which it drops.
    pub fn set(&mut self, node: Stmt)
        ensures { self.new.part.value ≡ in_stmt node }
    {
        let sort = PartKind::Stmt(node);
        *self.part = Part { sort };
    }

    /// Puts a node in the place of this one, and gives this one back.
    pub fn replace(&mut self, node: Stmt) -> Stmt
        requires { holds_stmt self.old.part.value }
        ensures value { self.old.part.value ≡ in_stmt result }
        ensures put { self.new.part.value ≡ in_stmt node }
    {
        let sort = PartKind::Stmt(node);
        let old = mem::replace(&mut *self.part, Part { sort });
        let old_sort = old.into_sort();
        match old_sort {
            PartKind::Stmt(x) => x,
            _ => unreachable!(),
        }
    }
}
