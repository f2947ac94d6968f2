//! What the parts of a tree do with the names that stand in them (ECMA-262, clauses 14 to 16).

use ecma_front::ast::{
    DeclOf, Expr, ExprKindOf, ForHead, ForHeadOf, Kind, Stmt, StmtKindOf, VarDeclKind,
    VarDeclOrExpr, VarDeclOrExprOf,
};

/// What is done with names.
#[derive(Clone, Copy, PartialEq, Eq)]
pub enum Role {
    /// They are used.
    Used,
    /// They are used, and a declarator has `var` before it.
    Vars,
    /// They are declared.
    Declared,
    /// They are declared in all of the function.
    DeclaredByVar,
    /// They are declared, and exported.
    Exported,
    /// They are declared, and a block is the body of their function.
    Params,
    /// As `Params`, but for a key that stands before them.
    Setter,
    /// They are names in another module.
    Outer,
    /// They are labels.
    Labels,
}

/// A part: what is done with the names in it, and whether it has a scope.
#[derive(Clone, Copy)]
pub struct Part {
    pub role: Role,
    pub is_scope: bool,
}

/// A part with a scope.
pub fn scope(role: Role) -> Part {
    let is_scope = true;
    Part { role, is_scope }
}

/// A part without a scope.
pub fn plain(role: Role) -> Part {
    let is_scope = false;
    Part { role, is_scope }
}

/// What is done with the names of a declaration, but for those that it declares.
fn role_of_vars(kind: VarDeclKind) -> Role {
    match kind {
        VarDeclKind::Var => Role::Vars,
        VarDeclKind::Let | VarDeclKind::Const => Role::Used,
    }
}

/// The same of what a `for` begins with.
fn role_of_init(init: &Option<VarDeclOrExpr>) -> Role {
    match init {
        Some(VarDeclOrExprOf::VarDecl(decl)) => role_of_vars(decl.kind),
        _ => Role::Used,
    }
}

/// The same of what a `for` with `in` or `of` begins with.
fn role_of_head(head: &ForHead) -> Role {
    match head {
        ForHeadOf::VarDecl(decl) => role_of_vars(decl.kind),
        _ => Role::Used,
    }
}

/// A statement.
pub fn part_of_stmt(stmt: &Stmt) -> Part {
    match &stmt.kind {
        StmtKindOf::Labeled(_) | StmtKindOf::Break(_) | StmtKindOf::Continue(_) => {
            plain(Role::Labels)
        }
        StmtKindOf::Decl(DeclOf::Class(_) | DeclOf::Fn(_)) => plain(Role::Declared),
        StmtKindOf::Decl(DeclOf::Var(decl)) => plain(role_of_vars(decl.kind)),
        StmtKindOf::Block(_) | StmtKindOf::Switch(_) => scope(Role::Used),
        StmtKindOf::For(x) => scope(role_of_init(&x.init)),
        StmtKindOf::ForIn(x) => scope(role_of_head(&x.left)),
        StmtKindOf::ForOf(x) => scope(role_of_head(&x.left)),
        _ => plain(Role::Used),
    }
}

/// An expression.
pub fn part_of_expr(expr: &Expr) -> Part {
    match &expr.kind {
        ExprKindOf::Fn(_) | ExprKindOf::Class(_) => scope(Role::Declared),
        ExprKindOf::Arrow(_) => scope(Role::Params),
        _ => plain(Role::Used),
    }
}

/// Any other node of a kind, in a part where names have a role.
pub fn part_of_kind(kind: Kind, role: Role) -> Part {
    match kind {
        Kind::Function | Kind::Constructor => scope(Role::Params),
        Kind::GetterProp | Kind::StaticBlock => plain(Role::Params),
        Kind::SetterProp => plain(Role::Setter),
        Kind::BlockStmt => scope(Role::Used),
        Kind::CatchClause => scope(Role::Declared),
        Kind::VarDeclarator => plain(match role {
            Role::Vars => Role::DeclaredByVar,
            Role::Exported => Role::Exported,
            _ => Role::Declared,
        }),
        Kind::Param | Kind::FnExpr | Kind::ClassExpr => plain(Role::Declared),
        Kind::ExportDecl => plain(Role::Exported),
        Kind::ImportDecl | Kind::NamedExport | Kind::ExportAll => plain(Role::Outer),
        _ => plain(role),
    }
}
