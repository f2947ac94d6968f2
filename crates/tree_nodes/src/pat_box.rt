//! Patterns in their boxes: made, read, changed, taken out.
ghost use Rattle.std.specs.Prelude.{◌≡◌, IfOk, MatchOption};
ghost use Rattle.std.specs.Borrow.{sem};
ghost use Rattle.tree_nodes.specs.Placed.{in_pat, holds_pat};
ghost use Rattle.tree_nodes.specs.Lending.{LendsPartPat, LendsIfPat, LendsPat};

use crate::knot::{Child, Part, PartKind, Pat, PatTag};
use std::alloc::{AllocError, Global};
use std::marker::PhantomData;
use std::mem;

impl Part {
    /// The pattern, to change it, if it is one.
    fn pat_mut(&mut self) -> Option<&mut Pat>
        ensures* writes_back { sem 𝓛 (LendsPartPat self.entry result) }
        ensures value { MatchOption result (holds_pat self.old → ⊥) (λ x. self.old ≡ in_pat x.now) }
    {
        match &mut self.sort {
            PartKind::Pat(x) => Some(x),
            PartKind::Expr(_) => None,
            PartKind::Stmt(_) => None,
        }
    }
}

impl Child<Part, PatTag> {
    /// Puts a pattern below another node.
    ///
    /// # Errors
    ///
    /// Want of memory.
    pub fn new(alloc: Global, node: Pat) -> Result<Child<Part, PatTag>, AllocError>
        ensures { IfOk result (λ c. c.part.value ≡ in_pat node) }
    {
        let sort = PartKind::Pat(node);
        let part = Box::new(alloc, Part { sort })?;
        Ok(Child {
            part,
            kind: PhantomData,
        })
    }

    /// The node.
    pub fn get(&self) -> &Pat
        requires { holds_pat self.now.part.value }
        ensures { self.now.part.value ≡ in_pat result.now }
    {
        match &self.part.sort {
            PartKind::Pat(x) => x,
            _ => unreachable!(),
        }
    }

    /// The node, if the box holds one of its sort.
    fn node_mut(&mut self) -> Option<&mut Pat>
        ensures* writes_back { sem 𝓛 (LendsIfPat self.entry result) }
        ensures value { MatchOption result (holds_pat self.old.part.value → ⊥) (λ x. self.old.part.value ≡ in_pat x.now) }
    {
        let part = &mut *self.part;
        part.pat_mut()
    }

    /// The node, to change it.
    pub fn get_mut(&mut self) -> &mut Pat
        requires { holds_pat self.old.part.value }
        ensures* writes_back { sem 𝓛 (LendsPat self.entry result) }
        ensures value { self.old.part.value ≡ in_pat result.now }
    {
        match self.node_mut() {
            Some(x) => x,
            None => unreachable!(),
        }
    }

    /// The node, out of its box.
    pub fn into_inner(self) -> Pat
        requires { holds_pat self.part.value }
        ensures { self.part.value ≡ in_pat result }
    {
        let sort = Box::into_inner(self.part).into_sort();
        match sort {
            PartKind::Pat(x) => x,
            _ => unreachable!(),
        }
    }

    /// Puts a node in the place of this one, which it drops.
    pub fn set(&mut self, node: Pat)
        ensures { self.new.part.value ≡ in_pat node }
    {
        let sort = PartKind::Pat(node);
        *self.part = Part { sort };
    }

    /// Puts a node in the place of this one, and gives this one back.
    pub fn replace(&mut self, node: Pat) -> Pat
        requires { holds_pat self.old.part.value }
        ensures value { self.old.part.value ≡ in_pat result }
        ensures put { self.new.part.value ≡ in_pat node }
    {
        let sort = PartKind::Pat(node);
        let old = mem::replace(&mut *self.part, Part { sort });
        let old_sort = old.into_sort();
        match old_sort {
            PartKind::Pat(x) => x,
            _ => unreachable!(),
        }
    }
}
