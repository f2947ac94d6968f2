//! Scripts, and what no text of a module has.
ghost use Rattle.tree_nodes.specs.Fits.{fits_module_item};

use crate::made::{atom, deep_stmt, name, ok};
use crate::told::program;
use base_token::DUMMY_SP;
use ecma_ast::Build;
use std::process::Abort;
use tree_nodes::{
    ExportDefaultSpecifier, ExportSpecifier, Module, ModuleDecl, ModuleItem, NamedExport, Program,
    ProgramKind, Script,
};

#[test]
fn scripts(rt: HostRuntime) {
    let b = &Build { alloc: rt.alloc() };
    let script = Script {
        span: DUMMY_SP,
        body: ok(&rt, vec![in b.alloc; deep_stmt(&rt, b)]),
        shebang: Some(atom(&rt, b)),
    };
    let kind = ProgramKind::Script(script);
    program(&rt, b, Program { kind }, "(4:4 (3:3 (2:2 (1:1))))");
}

/// A module of one part.
fn module(rt: &impl Abort, b: &Build, item: ModuleItem, want: &str)
    requires { fits_module_item (λ p. p) item }
{
    let module = Module {
        span: DUMMY_SP,
        body: ok(rt, vec![in b.alloc; item]),
        shebang: None,
    };
    let kind = ProgramKind::Module(module);
    program(rt, b, Program { kind }, want);
}

#[test]
fn default_specifiers(rt: HostRuntime) {
    let b = &Build { alloc: rt.alloc() };
    let default = ExportDefaultSpecifier {
        span: DUMMY_SP,
        exported: name(&rt, b),
    };
    let specifiers = vec![in b.alloc; ExportSpecifier::Default(default)];
    let export = NamedExport {
        span: DUMMY_SP,
        specifiers: ok(&rt, specifiers),
        src: None,
        with_: None,
    };
    let item = ModuleItem::ModuleDecl(ModuleDecl::ExportNamed(export));
    module(&rt, b, item, "(4:4 (3 (2 (1:1))))");
}
