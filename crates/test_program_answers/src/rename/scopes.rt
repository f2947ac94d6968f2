//! Goes over a module, and finds of each name that is used whether the module declares it there.

use crate::rename::names::{Names, add};
use crate::rename::parts::{Part, Role, part_of_expr, part_of_kind, part_of_stmt, plain, scope};
use ecma_front::ast::{
    AssignTargetOf, Atom, ExportSpecifier, Expr, ExprKindOf, ImportSpecifier, ModuleDeclOf,
    ModuleExportName, ModuleItem, ModuleItemOf, Node, ObjectLit, ObjectPat, ObjectPatPropOf, Pat,
    PatKindOf, Program, ProgramKindOf, PropOf, PropOrSpreadOf, Watch,
};
use std::alloc::{AllocError, Global};
use std::convert::AsStr;

/// What is declared in a scope, with `var` apart, and what is used in it and not declared in a scope within.
#[derive(Drop)]
struct Scope {
    is_body: bool,
    declared: Vec<Atom>,
    vars: Vec<Atom>,
    used: Vec<Atom>,
}

/// The parts and the scopes that a walk is in, the names that were found, and whether memory wanted.
#[derive(Drop)]
pub struct Scopes {
    alloc: Global,
    parts: Vec<Part>,
    scopes: Vec<Scope>,
    names: Names,
    failed: Option<AllocError>,
}

/// The name that an import declares.
fn local(specifier: &ImportSpecifier) -> &Atom {
    match specifier {
        ImportSpecifier::Named(x) => &x.local.sym,
        ImportSpecifier::Default(x) => &x.local.sym,
        ImportSpecifier::Namespace(x) => &x.local.sym,
    }
}

impl Scopes {
    /// A walk that has not begun.
    pub fn new(alloc: Global) -> Scopes {
        Scopes {
            alloc,
            parts: Vec::new(alloc),
            scopes: Vec::new(alloc),
            names: Names::none(alloc),
            failed: None,
        }
    }

    /// The names that were found.
    ///
    /// # Errors
    ///
    /// Want of memory.
    pub fn into_names(self) -> Result<Names, AllocError> {
        match self.failed {
            Some(error) => Err(error),
            None => Ok(self.names),
        }
    }

    /// What is done with the names that come next.
    fn role(&self) -> Role {
        match self.parts.last() {
            Some(part) => part.role,
            None => Role::Used,
        }
    }

    /// Enters a part, and opens its scope.
    fn begin(&mut self, part: Part) -> Result<(), AllocError> {
        if part.is_scope {
            let scope = Scope {
                is_body: self.role() == Role::Params,
                declared: Vec::new(self.alloc),
                vars: Vec::new(self.alloc),
                used: Vec::new(self.alloc),
            };
            self.scopes.push(scope)?;
        }
        Ok(self.parts.push(part)?)
    }

    /// Enters a part that does as the one around it.
    fn stay(&mut self) -> Result<(), AllocError> {
        let part = plain(self.role());
        self.begin(part)
    }

    /// Leaves a part, and closes its scope.
    fn end(&mut self) -> Result<(), AllocError> {
        match self.parts.pop() {
            Some(part) if part.is_scope => self.close(),
            _ => Ok(()),
        }
    }

    /// Closes the innermost scope: what it doesn't declare is used around it, and what `var` declares is declared up to the function's body.
    fn close(&mut self) -> Result<(), AllocError> {
        let Some(scope) = self.scopes.pop() else {
            return Ok(());
        };
        for name in scope.used.iter() {
            if !scope.declared.contains(name) && !scope.vars.contains(name) {
                self.use_outside(name)?;
            }
        }
        if !scope.is_body
            && let Some(outer) = self.scopes.last_mut()
        {
            for name in scope.vars.iter() {
                add(&mut outer.vars, name)?;
            }
        }
        Ok(())
    }

    /// A name is used that no scope declares within the innermost that is open.
    fn use_outside(&mut self, name: &Atom) -> Result<(), AllocError> {
        match self.scopes.last_mut() {
            Some(outer) => add(&mut outer.used, name),
            None if name.as_str() == "arguments" => Ok(()),
            None => add(&mut self.names.free, name),
        }
    }

    /// Meets a name.
    fn name(&mut self, name: &Atom) -> Result<(), AllocError> {
        let role = self.role();
        add(&mut self.names.all, name)?;
        if matches!(role, Role::Exported | Role::Outer) {
            add(&mut self.names.fixed, name)?;
        }
        let Some(scope) = self.scopes.last_mut() else {
            return Ok(());
        };
        match role {
            Role::Used | Role::Vars => add(&mut scope.used, name),
            Role::DeclaredByVar => add(&mut scope.vars, name),
            Role::Outer | Role::Labels => Ok(()),
            _ => add(&mut scope.declared, name),
        }
    }

    /// What an import declares in the whole module, and what an export uses there.
    fn meet_outside(&mut self, item: &ModuleItem) -> Result<(), AllocError> {
        let Some(scope) = self.scopes.last_mut() else {
            return Ok(());
        };
        match item {
            ModuleItemOf::ModuleDecl(ModuleDeclOf::Import(x)) => {
                for specifier in x.specifiers.iter() {
                    add(&mut scope.declared, local(specifier))?;
                }
            }
            ModuleItemOf::ModuleDecl(ModuleDeclOf::ExportNamed(x)) if x.src.is_none() => {
                for specifier in x.specifiers.iter() {
                    if let ExportSpecifier::Named(named) = specifier
                        && let ModuleExportName::Ident(name) = &named.orig
                    {
                        add(&mut scope.used, &name.sym)?;
                    }
                }
            }
            _ => {}
        }
        Ok(())
    }

    /// Enters a program.
    fn enter_program(&mut self, program: &Program) -> Result<(), AllocError> {
        self.begin(scope(Role::Used))?;
        if let ProgramKindOf::Module(module) = &program.kind {
            for item in module.body.iter() {
                self.meet_outside(item)?;
            }
        }
        Ok(())
    }

    /// Names of an object that are short for a property of that name.
    fn fix_shorthands(&mut self, object: &ObjectLit) -> Result<(), AllocError> {
        for prop in object.props.iter() {
            if let PropOrSpreadOf::Prop(prop) = prop
                && let PropOf::Shorthand(ident) = &**prop
            {
                add(&mut self.names.fixed, &ident.sym)?;
            }
        }
        Ok(())
    }

    /// Names of a pattern that are short for a property of that name.
    fn fix_keys(&mut self, pattern: &ObjectPat) -> Result<(), AllocError> {
        for prop in pattern.props.iter() {
            if let ObjectPatPropOf::Assign(prop) = prop {
                add(&mut self.names.fixed, &prop.key.id.sym)?;
            }
        }
        Ok(())
    }

    /// Enters an expression.
    fn enter_expr(&mut self, expr: &Expr) -> Result<(), AllocError> {
        self.begin(part_of_expr(expr))?;
        match &expr.kind {
            ExprKindOf::Ident(ident) => self.name(&ident.sym),
            ExprKindOf::Object(object) => self.fix_shorthands(object),
            ExprKindOf::Assign(assign) => match &assign.left {
                AssignTargetOf::Object(pattern) => self.fix_keys(pattern),
                _ => Ok(()),
            },
            _ => Ok(()),
        }
    }

    /// Enters a pattern. That of a setter begins the setter's scope.
    fn enter_pat(&mut self, pat: &Pat) -> Result<(), AllocError> {
        if self.role() == Role::Setter {
            self.end()?;
            self.begin(scope(Role::Params))?;
        }
        self.stay()?;
        match &pat.kind {
            PatKindOf::Object(pattern) => self.fix_keys(pattern),
            _ => Ok(()),
        }
    }

    /// Enters a node.
    fn enter_node(&mut self, node: Node<'_>) -> Result<(), AllocError> {
        match node {
            Node::Program(program) => self.enter_program(program),
            Node::Stmt(stmt) => self.begin(part_of_stmt(stmt)),
            Node::Expr(expr) => self.enter_expr(expr),
            Node::Pat(pat) => self.enter_pat(pat),
            Node::Part(kind, _) => {
                let part = part_of_kind(kind, self.role());
                self.begin(part)
            }
            Node::Ident(ident) => {
                self.name(&ident.sym)?;
                self.stay()
            }
            _ => self.stay(),
        }
    }

    /// Keeps the want of memory.
    fn note(&mut self, done: Result<(), AllocError>) {
        if let Err(error) = done {
            self.failed = Some(error);
        }
    }
}

impl Watch for Scopes {
    ghost State = { Unit {0} };

    ghost step = { λ event s. s };

    ghost state = { λ scopes. tt };

    fn enter(&mut self, node: Node<'_>) {
        let done = self.enter_node(node);
        self.note(done);
    }

    fn leave(&mut self, _node: Node<'_>) {
        let done = self.end();
        self.note(done);
    }
}
