//! The entries of a printer, with the comments of one source.
use crate::made::{bound, ok};
use crate::printer::placed::{comment, ident, name_stmt, span};
use crate::printer::printed::formatted;
use base_token::{BytePos, Counted, DUMMY_SP};
use ecma_ast::Build;
use ecma_codegen::{Config, EmitError, Emitter, JsWriter, NoPlaces, WriteJs, to_code};
use lex_comments::{CommentKind, Comments};
use std::alloc::Global;
use std::process::Abort;
use tree_nodes::{
    Module, ModuleExportName, ModuleItem, Script, StmtBox, VarDeclKind, VarDeclarator,
};

/// Prints two parts of a module, one after another.
fn print_items<W: WriteJs + Drop>(
    alloc: Global,
    comments: &mut Comments,
    wr: W,
    first: &ModuleItem,
    second: &ModuleItem,
) -> Result<(), EmitError> {
    let mut emitter = Emitter {
        alloc,
        cfg: Config::default(),
        cm: NoPlaces,
        comments: Some(comments),
        wr,
    };
    emitter.emit_module_item(first)?;
    emitter.emit_module_item(second)
}

/// Prints a script, a module and a name, one after another.
fn print_parts<W: WriteJs + Drop>(
    alloc: Global,
    comments: &mut Comments,
    wr: W,
    script: &Script,
    module: &Module,
    name: &ModuleExportName,
) -> Result<(), EmitError> {
    let mut emitter = Emitter {
        alloc,
        cfg: Config::default(),
        cm: NoPlaces,
        comments: Some(comments),
        wr,
    };
    emitter.emit_script(script)?;
    emitter.emit_module(module)?;
    emitter.emit_module_export_name(name)
}

/// A block comment before what begins at a place.
fn lead(
    rt: &impl Abort,
    alloc: Global,
    comments: &mut Comments,
    at: u32,
    lo: u32,
    hi: u32,
    text: &str,
) {
    let before = comment(rt, alloc, CommentKind::Block, lo, hi, text);
    ok(rt, comments.add_leading(BytePos(at), before));
}

// `a; // t` LF `/* l */ b;`
#[test]
fn parts_of_a_module_have_the_comments_up_to_their_ends(rt: HostRuntime) {
    let b = Build { alloc: rt.alloc() };
    let mut store = Comments::new(rt.alloc());
    let behind = comment(&rt, rt.alloc(), CommentKind::Line, 4, 8, " t");
    ok(&rt, store.add_trailing(BytePos(3), behind));
    lead(&rt, rt.alloc(), &mut store, 17, 9, 16, " l ");
    let first = ModuleItem::Stmt(name_stmt(&rt, &b, 1, 3, "a"));
    let second = ModuleItem::Stmt(name_stmt(&rt, &b, 17, 19, "b"));
    let mut out = Counted::new(Vec::new(rt.alloc()));
    let js = JsWriter::new(rt.alloc(), "\n", &mut out, None);
    ok(
        &rt,
        print_items(rt.alloc(), &mut store, js, &first, &second),
    );
    assert_eq!(rt; out.inner().as_slice(), b"a; // t\n/* l */ b;\n".as_slice());
}

// `/* s */ a`, behind it `/* m */ b`, and behind that `/* n */ c`
#[test]
fn scripts_modules_and_names_have_their_comments(rt: HostRuntime) {
    let b = Build { alloc: rt.alloc() };
    let mut store = Comments::new(rt.alloc());
    lead(&rt, rt.alloc(), &mut store, 9, 1, 8, " s ");
    lead(&rt, rt.alloc(), &mut store, 19, 11, 18, " m ");
    lead(&rt, rt.alloc(), &mut store, 29, 21, 28, " n ");
    let stmt = name_stmt(&rt, &b, 9, 10, "a");
    let script = Script {
        span: span(1, 10),
        body: ok(&rt, vec![in rt.alloc(); stmt]),
        shebang: None,
    };
    let item = ModuleItem::Stmt(name_stmt(&rt, &b, 19, 20, "b"));
    let module = Module {
        span: span(11, 20),
        body: ok(&rt, vec![in rt.alloc(); item]),
        shebang: None,
    };
    let name = ModuleExportName::Ident(ident(&rt, &b, 29, "c"));
    let mut out = Counted::new(Vec::new(rt.alloc()));
    let js = JsWriter::new(rt.alloc(), "\n", &mut out, None);
    ok(
        &rt,
        print_parts(rt.alloc(), &mut store, js, &script, &module, &name),
    );
    assert_eq!(rt;
        out.inner().as_slice(),
        b"/* s */ a;\n/* m */ b;\n/* n */ c".as_slice()
    );
}

/// `var a`, as a statement.
fn variables(rt: &impl Abort, b: &Build) -> StmtBox {
    let declarator = VarDeclarator {
        span: DUMMY_SP,
        name: bound(rt, b),
        init: None,
    };
    let declared = ok(rt, vec![in b.alloc; declarator]);
    ok(rt, b.var_decl(VarDeclKind::Var, declared))
}

/// `{}`, as a statement.
fn braces(rt: &impl Abort, b: &Build) -> StmtBox {
    ok(rt, b.block_stmt(Vec::new(b.alloc)))
}

/// Prints a statement alone: as it is, by an emitter, and as a part of a module.
fn print_alone(rt: &impl Abort, alloc: Global, stmt: StmtBox, wanted: &str) {
    let text = ok(rt, to_code(alloc, &stmt));
    let emitted = formatted(rt, alloc, None, &stmt);
    let item = ModuleItem::Stmt(stmt);
    let part = ok(rt, to_code(alloc, &item));
    let found = (text.as_str(), emitted.as_str(), part.as_str());
    assert_eq!(rt; found, (wanted, wanted, wanted));
}

#[test]
fn a_statement_printed_alone_has_its_end(rt: HostRuntime) {
    let b = Build { alloc: rt.alloc() };
    print_alone(&rt, rt.alloc(), variables(&rt, &b), "var a;\n");
    print_alone(&rt, rt.alloc(), name_stmt(&rt, &b, 1, 2, "a"), "a;\n");
    print_alone(&rt, rt.alloc(), braces(&rt, &b), "{}");
}

#[test]
fn parts_printed_one_after_another_are_the_program(rt: HostRuntime) {
    let b = Build { alloc: rt.alloc() };
    let first = ModuleItem::Stmt(variables(&rt, &b));
    let second = ModuleItem::Stmt(name_stmt(&rt, &b, 7, 8, "a"));
    let mut store = Comments::new(rt.alloc());
    let mut out = Counted::new(Vec::new(rt.alloc()));
    let js = JsWriter::new(rt.alloc(), "\n", &mut out, None);
    ok(
        &rt,
        print_items(rt.alloc(), &mut store, js, &first, &second),
    );
    let module = Module {
        span: span(1, 9),
        body: ok(&rt, vec![in rt.alloc(); first, second]),
        shebang: None,
    };
    let whole = ok(&rt, to_code(rt.alloc(), &module));
    assert_eq!(rt; out.inner().as_slice(), whole.as_bytes());
    assert_eq!(rt; whole.as_str(), "var a;\na;\n");
}
