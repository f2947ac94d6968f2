//! Goes over expressions, statements, patterns and programs.
ghost use Rattle.tree_nodes.specs.Placed.{inner};

use crate::spines::{enter_links, leave_ifs, leave_links};
use crate::watch::{Inside, Node, Walk, Watch};
use tree_nodes::spine::there;
use tree_nodes::{Expr, Part, PartKind, Pat, Program, Stmt, StmtKind};

impl Walk for Part {
    ghost tree = { inner };

    #[cycle(walk)]
    fn walk<V: Watch>(&self, visitor: &mut V) {
        match &self.sort {
            PartKind::Expr(x) => x.walk(visitor),
            PartKind::Stmt(x) => x.walk(visitor),
            PartKind::Pat(x) => x.walk(visitor),
        }
    }
}

impl Walk for Expr {
    ghost tree = { λ t. t };

    #[cycle(walk)]
    #[tactic(auto, using(crate::proofs::Whole::whole, crate::proofs::Chains::spine, crate::proofs::Chains::none_entered_yet))]
    fn walk<V: Watch>(&self, visitor: &mut V) {
        let (rest, links) = enter_links(self, visitor);
        if links == 0 {
            visitor.enter(Node::Expr(self));
            self.kind.inside(visitor);
            visitor.leave(Node::Expr(self));
            return;
        }
        rest.walk(visitor);
        leave_links(self, links, visitor);
    }
}

impl Walk for Stmt {
    ghost tree = { λ t. t };

    #[cycle(walk)]
    #[tactic(auto, using(crate::proofs::Whole::whole, crate::proofs::Chains::if_spine, crate::proofs::Chains::along_ifs, crate::proofs::Chains::none_entered_yet))]
    fn walk<V: Watch>(&self, visitor: &mut V) {
        let mut rest = self;
        let mut links: u32 = 0;
        'links: while let StmtKind::If(branch) = &rest.kind {
            let Some(alt) = &branch.alt else {
                break;
            };
            if links == u32::MAX {
                break;
            }
            visitor.enter(Node::Stmt(rest));
            branch.test.walk(visitor);
            branch.cons.walk(visitor);
            // For the proof: `there` hands on what it is given, with the fact that it is no absent part.
            rest = there(alt.get());
            links += 1;
        }
        if links == 0 {
            visitor.enter(Node::Stmt(self));
            self.kind.inside(visitor);
            visitor.leave(Node::Stmt(self));
            return;
        }
        rest.walk(visitor);
        leave_ifs(self, links, visitor);
    }
}

impl Walk for Pat {
    ghost tree = { λ t. t };

    #[cycle(walk)]
    #[tactic(auto, using(crate::proofs::Whole::whole))]
    fn walk<V: Watch>(&self, visitor: &mut V) {
        visitor.enter(Node::Pat(self));
        self.kind.inside(visitor);
        visitor.leave(Node::Pat(self));
    }
}

impl Walk for Program {
    ghost tree = { λ t. t };

    #[tactic(auto, using(crate::proofs::Whole::whole))]
    fn walk<V: Watch>(&self, visitor: &mut V) {
        visitor.enter(Node::Program(self));
        self.kind.inside(visitor);
        visitor.leave(Node::Program(self));
    }
}
