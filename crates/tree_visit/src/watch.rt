//! Who is told of the nodes, and what can be gone over.
ghost use Rattle.std.specs.Prelude.{◌≡◌};
ghost use Rattle.tree_spec.specs.Tree.{Tree};
ghost use Rattle.tree_visit.specs.Walk.{Event, enter, leave, told, walk_of, inside_of};
ghost use Rattle.tree_visit.specs.Told.{seen_in};

use crate::kinds::Kind;
use base_token::Span;
use tree_nodes::{
    BigInt, BindingIdent, Child, Expr, Ident, IdentName, Number, Pat, PrivateName, Program, Stmt,
    Str, TplElement,
};

/// A node, as a visitor is handed it. An expression, a statement or a pattern is handed whole, of whatever kind it is;
/// a name, a literal or a text of a template that is none of these is handed as well. Of any other node a visitor is
/// told the kind and the place.
#[derive(Clone, Copy)]
pub enum Node<'a> {
    Program(&'a Program),
    Stmt(&'a Stmt),
    Expr(&'a Expr),
    Pat(&'a Pat),
    Ident(&'a Ident),
    IdentName(&'a IdentName),
    PrivateName(&'a PrivateName),
    Str(&'a Str),
    Number(&'a Number),
    BigInt(&'a BigInt),
    TplElement(&'a TplElement),
    BindingIdent(&'a BindingIdent),
    Part(Kind, Span),
}

/// Who is told of each node, before and after what is below it. A contract sees a state, and what each step makes of
/// it; where nothing is to be promised, the state is `Unit {0}`.
pub trait Watch {
    /// What a contract sees of the visitor.
    ghost State: { Type 0 };

    /// What entering or leaving a node makes of that.
    ghost step: { Event → State → State };

    /// What a visitor stands for.
    ghost state: { Self → State };

    /// A node, before what is below it.
    fn enter(&mut self, node: Node<'_>)
        ensures { state self.new ≡ told (λ x. step (enter x)) (seen_in node.entry) (state self.old) };

    /// A node, after what is below it.
    fn leave(&mut self, node: Node<'_>)
        ensures { state self.new ≡ told (λ x. step (leave x)) (seen_in node.entry) (state self.old) };
}

/// What can be gone over: a part of a tree, a list of such parts, or a part that may be left out.
pub trait Walk {
    /// What it stands for.
    ghost tree: { Self → Tree };

    /// Tells the visitor of each node once, before and after what is below it, in the order of the source.
    fn walk<V: Watch>(&self, visitor: &mut V)
        ensures { V.state visitor.new ≡ walk_of V.step (tree self.now) (V.state visitor.old) };
}

/// What stands for an expression, a statement, a pattern or a program, which is told of in its place.
pub(crate) trait Inside {
    /// What it stands for.
    ghost tree: { Self → Tree };

    /// Goes over what is below it.
    fn inside<V: Watch>(&self, visitor: &mut V)
        ensures { V.state visitor.new ≡ inside_of V.step (tree self.now) (V.state visitor.old) };
}

impl<T: Walk, K> Walk for Child<T, K> {
    ghost tree = { λ c. T.tree c.part.value };

    fn walk<V: Watch>(&self, visitor: &mut V) {
        self.part.walk(visitor);
    }
}
