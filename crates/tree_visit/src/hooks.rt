//! Hooks for families of nodes, which do nothing by themselves.
use crate::kinds::Kind;
use crate::watch::{Node, Watch};
use base_token::Span;
use tree_nodes::{
    BigInt, BindingIdent, Expr, ExprKindOf, Ident, IdentName, Lit, Number, Pat, PatKindOf,
    PrivateName, Program, Regex, Stmt, Str, TplElement,
};

/// What is done with the nodes of a tree. A hook that begins with `enter` is called before what is below a node is gone
/// over, one that begins with `leave` after that, any other in place of both. Each does nothing by itself.
pub trait Visit {
    fn enter_program(&mut self, _program: &Program) {}

    fn leave_program(&mut self, _program: &Program) {}

    fn enter_stmt(&mut self, _stmt: &Stmt) {}

    fn leave_stmt(&mut self, _stmt: &Stmt) {}

    fn enter_expr(&mut self, _expr: &Expr) {}

    fn leave_expr(&mut self, _expr: &Expr) {}

    fn enter_pat(&mut self, _pat: &Pat) {}

    fn leave_pat(&mut self, _pat: &Pat) {}

    /// A node that is no program, statement, expression or pattern: its kind and its place.
    fn enter_part(&mut self, _kind: Kind, _span: Span) {}

    fn leave_part(&mut self, _kind: Kind, _span: Span) {}

    fn tpl_element(&mut self, _text: &TplElement) {}

    /// A name, as an expression, in a pattern, a label, or what an import or an export names.
    fn ident(&mut self, _ident: &Ident) {}

    /// A name that is bound or assigned to; `ident` is called with it as well.
    fn binding_ident(&mut self, _ident: &BindingIdent) {}

    /// A word as a key or after a dot.
    fn ident_name(&mut self, _name: &IdentName) {}

    fn private_name(&mut self, _name: &PrivateName) {}

    fn str(&mut self, _text: &Str) {}

    fn number(&mut self, _number: &Number) {}

    fn big_int(&mut self, _number: &BigInt) {}

    fn regex(&mut self, _regex: &Regex) {}
}

/// A visitor that is told of nodes by its hooks.
#[derive(Drop)]
pub struct Hooks<V> {
    pub visit: V,
}

impl<V: Visit> Watch for Hooks<V> {
    ghost State = { Unit {0} };

    ghost step = { λ event s. s };

    ghost state = { λ hooks. tt };

    fn enter(&mut self, node: Node<'_>) {
        enter_node(&mut self.visit, node);
    }

    fn leave(&mut self, node: Node<'_>) {
        match node {
            Node::Program(x) => self.visit.leave_program(x),
            Node::Stmt(x) => self.visit.leave_stmt(x),
            Node::Expr(x) => self.visit.leave_expr(x),
            Node::Pat(x) => self.visit.leave_pat(x),
            Node::Part(kind, span) => self.visit.leave_part(kind, span),
            _ => {}
        }
    }
}

/// Calls the hooks of a node that is entered.
fn enter_node<V: Visit>(visit: &mut V, node: Node<'_>) {
    match node {
        Node::Program(x) => visit.enter_program(x),
        Node::Stmt(x) => visit.enter_stmt(x),
        Node::Expr(x) => enter_expr(visit, x),
        Node::Pat(x) => enter_pat(visit, x),
        Node::Ident(x) => visit.ident(x),
        Node::IdentName(x) => visit.ident_name(x),
        Node::PrivateName(x) => visit.private_name(x),
        Node::Str(x) => visit.str(x),
        Node::Number(x) => visit.number(x),
        Node::BigInt(x) => visit.big_int(x),
        Node::TplElement(x) => visit.tpl_element(x),
        Node::BindingIdent(x) => visit.binding_ident(x),
        Node::Part(kind, span) => visit.enter_part(kind, span),
    }
}

/// Calls the hooks of an expression that is entered.
fn enter_expr<V: Visit>(visit: &mut V, expr: &Expr) {
    visit.enter_expr(expr);
    match &expr.kind {
        ExprKindOf::Ident(x) => visit.ident(x),
        ExprKindOf::PrivateName(x) => visit.private_name(x),
        ExprKindOf::Lit(x) => enter_lit(visit, x),
        _ => {}
    }
}

/// Calls the hooks of a literal.
fn enter_lit<V: Visit>(visit: &mut V, lit: &Lit) {
    match lit {
        Lit::Str(x) => visit.str(x),
        Lit::Num(x) => visit.number(x),
        Lit::BigInt(x) => visit.big_int(x),
        Lit::Regex(x) => visit.regex(x),
        Lit::Bool(_) => {}
        Lit::Null(_) => {}
    }
}

/// Calls the hooks of a pattern that is entered.
fn enter_pat<V: Visit>(visit: &mut V, pat: &Pat) {
    visit.enter_pat(pat);
    if let PatKindOf::Ident(x) = &pat.kind {
        visit.binding_ident(x);
    }
}
