//! What a node spells itself, apart from what is below it.

use crate::names::kind_name;
use base_token::{Span, Spanned};
use std::convert::AsStr;
use tree_nodes::{
    Decl, Expr, ExprKind, Lit, MetaPropKind, Pat, PatKind, Program, ProgramKind, Stmt, StmtKind,
    UnaryOp, UpdateExpr, UpdateOp, VarDeclKind,
};
use tree_visit::Node;

/// The name of a kind of node, what a node spells itself, and how many items it has where holes may be among them.
#[derive(Clone, Copy)]
pub struct Words<'a> {
    pub name: &'static str,
    pub own: &'a str,
    pub more: &'a str,
    pub count: Option<usize>,
}

/// A node that spells nothing itself.
fn bare<'a>(name: &'static str) -> Words<'a> {
    spelled(name, "")
}

/// A node that spells one word or text.
fn spelled<'a>(name: &'static str, own: &'a str) -> Words<'a> {
    Words {
        name,
        own,
        more: "",
        count: None,
    }
}

/// A node with this many items and holes.
fn counted<'a>(name: &'static str, count: usize) -> Words<'a> {
    Words {
        name,
        own: "",
        more: "",
        count: Some(count),
    }
}

/// A function, with what marks it as asynchronous and as a generator.
fn function<'a>(name: &'static str, is_async: bool, is_generator: bool) -> Words<'a> {
    Words {
        name,
        own: if is_async { "async" } else { "" },
        more: if is_generator { "*" } else { "" },
        count: None,
    }
}

/// The text of a spelling that was kept.
fn raw<T: AsStr>(raw: &Option<T>) -> &str {
    match raw {
        Some(raw) => raw.as_str(),
        None => "",
    }
}

/// The text of a prefix operator.
fn unary(op: &UnaryOp) -> &'static str {
    match op {
        UnaryOp::Minus => "-",
        UnaryOp::Plus => "+",
        UnaryOp::Bang => "!",
        UnaryOp::Tilde => "~",
        UnaryOp::TypeOf => "typeof",
        UnaryOp::Void => "void",
        UnaryOp::Delete => "delete",
    }
}

/// The text of `++` or `--`, with the side on which the operand stands.
fn update(x: &UpdateExpr) -> &'static str {
    match (&x.op, x.prefix) {
        (UpdateOp::PlusPlus, true) => "++_",
        (UpdateOp::PlusPlus, false) => "_++",
        (UpdateOp::MinusMinus, true) => "--_",
        (UpdateOp::MinusMinus, false) => "_--",
    }
}

/// A literal.
fn words_of_lit(lit: &Lit) -> Words<'_> {
    match lit {
        Lit::Str(x) => spelled("Str", raw(&x.raw)),
        Lit::Bool(x) => spelled("Bool", if x.value { "true" } else { "false" }),
        Lit::Null(_) => bare("Null"),
        Lit::Num(x) => spelled("Number", raw(&x.raw)),
        Lit::BigInt(x) => spelled("BigInt", raw(&x.raw)),
        Lit::Regex(x) => Words {
            name: "Regex",
            own: x.exp.as_str(),
            more: x.flags.as_str(),
            count: None,
        },
    }
}

/// An expression with an operator, a word or a list of its own.
fn words_of_expr(expr: &Expr) -> Words<'_> {
    match &expr.kind {
        ExprKind::Array(x) => counted("ArrayLit", x.elems.len()),
        ExprKind::Fn(x) => function("FnExpr", x.function.is_async, x.function.is_generator),
        ExprKind::Unary(x) => spelled("UnaryExpr", unary(&x.op)),
        ExprKind::Update(x) => spelled("UpdateExpr", update(x)),
        ExprKind::Bin(x) => spelled("BinExpr", x.op.as_str()),
        ExprKind::Assign(x) => spelled("AssignExpr", x.op.as_str()),
        ExprKind::Ident(x) => spelled("Ident", x.sym.as_str()),
        ExprKind::Lit(x) => words_of_lit(x),
        ExprKind::Arrow(x) => function("ArrowExpr", x.is_async, false),
        ExprKind::Yield(x) => function("YieldExpr", false, x.delegate),
        ExprKind::MetaProp(x) => match x.kind {
            MetaPropKind::NewTarget => spelled("MetaPropExpr", "new.target"),
            MetaPropKind::ImportMeta => spelled("MetaPropExpr", "import.meta"),
        },
        ExprKind::PrivateName(x) => spelled("PrivateName", x.name.as_str()),
        ExprKind::OptChain(x) => spelled("OptChainExpr", if x.optional { "?." } else { "." }),
        _ => bare(name_of_expr(expr)),
    }
}

/// The name of an expression that spells nothing itself.
fn name_of_expr(expr: &Expr) -> &'static str {
    match &expr.kind {
        ExprKind::This(_) => "ThisExpr",
        ExprKind::Object(_) => "ObjectLit",
        ExprKind::Member(_) => "MemberExpr",
        ExprKind::SuperProp(_) => "SuperPropExpr",
        ExprKind::Cond(_) => "CondExpr",
        ExprKind::Call(_) => "CallExpr",
        ExprKind::New(_) => "NewExpr",
        ExprKind::Seq(_) => "SeqExpr",
        ExprKind::Tpl(_) => "Tpl",
        ExprKind::TaggedTpl(_) => "TaggedTpl",
        ExprKind::Class(_) => "ClassExpr",
        ExprKind::Await(_) => "AwaitExpr",
        ExprKind::Paren(_) => "ParenExpr",
        _ => "Invalid",
    }
}

/// A declaration as a statement.
fn words_of_decl(decl: &Decl) -> Words<'_> {
    match decl {
        Decl::Class(_) => bare("ClassDecl"),
        Decl::Fn(x) => function("FnDecl", x.function.is_async, x.function.is_generator),
        Decl::Var(x) => spelled("VarDecl", variables(&x.kind)),
        Decl::Using(x) => spelled("UsingDecl", if x.is_await { "await" } else { "" }),
    }
}

/// The word that declares variables.
fn variables(kind: &VarDeclKind) -> &'static str {
    match kind {
        VarDeclKind::Var => "var",
        VarDeclKind::Let => "let",
        VarDeclKind::Const => "const",
    }
}

/// A statement.
fn words_of_stmt(stmt: &Stmt) -> Words<'_> {
    match &stmt.kind {
        StmtKind::Decl(x) => words_of_decl(x),
        StmtKind::ForOf(x) => spelled("ForOfStmt", if x.is_await { "await" } else { "" }),
        _ => bare(name_of_stmt(stmt)),
    }
}

/// The name of a statement that spells nothing itself.
fn name_of_stmt(stmt: &Stmt) -> &'static str {
    match &stmt.kind {
        StmtKind::Block(_) => "BlockStmt",
        StmtKind::Empty(_) => "EmptyStmt",
        StmtKind::Debugger(_) => "DebuggerStmt",
        StmtKind::With(_) => "WithStmt",
        StmtKind::Return(_) => "ReturnStmt",
        StmtKind::Labeled(_) => "LabeledStmt",
        StmtKind::Break(_) => "BreakStmt",
        StmtKind::Continue(_) => "ContinueStmt",
        StmtKind::If(_) => "IfStmt",
        StmtKind::Switch(_) => "SwitchStmt",
        StmtKind::Throw(_) => "ThrowStmt",
        StmtKind::Try(_) => "TryStmt",
        StmtKind::While(_) => "WhileStmt",
        StmtKind::DoWhile(_) => "DoWhileStmt",
        StmtKind::For(_) => "ForStmt",
        StmtKind::ForIn(_) => "ForInStmt",
        _ => "ExprStmt",
    }
}

/// A pattern.
fn words_of_pat(pat: &Pat) -> Words<'_> {
    match &pat.kind {
        PatKind::Ident(x) => spelled("BindingIdent", x.id.sym.as_str()),
        PatKind::Array(x) => counted("ArrayPat", x.elems.len()),
        PatKind::Rest(_) => bare("RestPat"),
        PatKind::Object(_) => bare("ObjectPat"),
        PatKind::Assign(_) => bare("AssignPat"),
        PatKind::Expr(_) => bare("ExprPat"),
        PatKind::Invalid(_) => bare("InvalidPat"),
    }
}

/// A program.
fn words_of_program(program: &Program) -> Words<'_> {
    match &program.kind {
        ProgramKind::Script(x) => spelled("Script", raw(&x.shebang)),
        ProgramKind::Module(x) => spelled("Module", raw(&x.shebang)),
    }
}

/// What a node spells, and its place.
pub fn words_of(node: Node<'_>) -> (Words<'_>, Span) {
    match node {
        Node::Program(x) => (words_of_program(x), x.span()),
        Node::Stmt(x) => (words_of_stmt(x), x.span()),
        Node::Expr(x) => (words_of_expr(x), x.span()),
        Node::Pat(x) => (words_of_pat(x), x.span()),
        Node::Ident(x) => (spelled("Ident", x.sym.as_str()), x.span),
        Node::IdentName(x) => (spelled("IdentName", x.sym.as_str()), x.span),
        Node::PrivateName(x) => (spelled("PrivateName", x.name.as_str()), x.span),
        Node::Str(x) => (spelled("Str", raw(&x.raw)), x.span),
        Node::Number(x) => (spelled("Number", raw(&x.raw)), x.span),
        Node::BigInt(x) => (spelled("BigInt", raw(&x.raw)), x.span),
        Node::TplElement(x) => (spelled("TplElement", x.raw.as_str()), x.span),
        Node::BindingIdent(x) => (spelled("BindingIdent", x.id.sym.as_str()), x.span()),
        Node::Part(kind, span) => (bare(kind_name(kind)), span),
    }
}
