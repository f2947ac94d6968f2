//! A tree in a line, as `tree_visit` goes over it: each node between parentheses with its place, how deep it goes behind a
//! colon where the visitor is handed the node itself, and what is below it. The places are 1, 2, 3 and so on, in the
//! order in which `tree_visit_mut` gives them: what is below a node comes before it. The lines that are wanted were
//! worked out by hand.
ghost use Rattle.std.specs.Prelude.{IfOk};
ghost use Rattle.tree_nodes.specs.Placed.{holds_expr, holds_pat, holds_stmt};

use crate::made::ok;
use crate::places::Places;
use base_token::{Span, Spanned};
use ecma_ast::Build;
use std::alloc::{AllocError, Global};
use std::fmt::Write;
use std::process::Abort;
use tree_nesting::Nesting;
use tree_nodes::{ExprBox, PatBox, Program, StmtBox};
use tree_visit::{Node, Walk, Watch};
use tree_visit_mut::{VisitMutWith, Words};

/// The line, and whether memory wanted.
#[derive(Drop)]
struct Line {
    text: String,
    failed: bool,
}

impl Line {
    /// A node that is told of by kind and place alone.
    fn place(&mut self, span: Span) {
        let done = write!(&mut self.text, " ({}", span.lo.0);
        self.failed |= done.is_err();
    }

    /// A node, with how deep it goes.
    fn node<T: Spanned + Nesting>(&mut self, node: &T) {
        self.place(node.span());
        let done = write!(&mut self.text, ":{}", node.nesting());
        self.failed |= done.is_err();
    }
}

impl Watch for Line {
    ghost State = { Unit {0} };

    ghost step = { λ event s. s };

    ghost state = { λ line. tt };

    fn enter(&mut self, node: Node<'_>) {
        match node {
            Node::Program(x) => self.node(x),
            Node::Stmt(x) => self.node(x),
            Node::Expr(x) => self.node(x),
            Node::Pat(x) => self.node(x),
            Node::Ident(x) => self.node(x),
            Node::IdentName(x) => self.node(x),
            Node::PrivateName(x) => self.node(x),
            Node::Str(x) => self.node(x),
            Node::Number(x) => self.node(x),
            Node::BigInt(x) => self.node(x),
            Node::TplElement(x) => self.node(x),
            Node::BindingIdent(x) => self.node(x),
            Node::Part(_kind, span) => self.place(span),
        }
    }

    fn leave(&mut self, _node: Node<'_>) {
        let done = self.text.push(')');
        self.failed |= done.is_err();
    }
}

/// Gives places to the nodes of a tree, and compares its line with the one that is wanted.
fn compare<T: Walk + VisitMutWith>(rt: &impl Abort, alloc: Global, tree: &mut T, want: &str) {
    tree.visit_mut_with(&mut Words {
        visit: Places { given: 0 },
    });
    let mut line = Line {
        text: String::new(alloc),
        failed: false,
    };
    tree.walk(&mut line);
    assert!(rt; !line.failed, "no memory");
    assert_eq!(rt; line.text.as_str().trim_start(), want);
}

pub fn expr(rt: &impl Abort, b: &Build, tree: Result<ExprBox, AllocError>, want: &str)
    requires { IfOk tree (λ c. holds_expr c.part.value) }
{
    let mut tree = ok(rt, tree);
    compare(rt, b.alloc, tree.get_mut(), want);
}

pub fn stmt(rt: &impl Abort, b: &Build, tree: Result<StmtBox, AllocError>, want: &str)
    requires { IfOk tree (λ c. holds_stmt c.part.value) }
{
    let mut tree = ok(rt, tree);
    compare(rt, b.alloc, tree.get_mut(), want);
}

pub fn pat(rt: &impl Abort, b: &Build, tree: Result<PatBox, AllocError>, want: &str)
    requires { IfOk tree (λ c. holds_pat c.part.value) }
{
    let mut tree = ok(rt, tree);
    compare(rt, b.alloc, tree.get_mut(), want);
}

pub fn program(rt: &impl Abort, b: &Build, mut tree: Program, want: &str) {
    compare(rt, b.alloc, &mut tree, want);
}
