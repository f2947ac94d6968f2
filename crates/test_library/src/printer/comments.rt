//! Comments of a source between what is printed. Whole texts with comments are asked by rows.
use crate::examples::build;
use crate::made::ok;
use crate::printer::placed::{comment, comments, name_stmt, script};
use crate::printer::printed::formatted;
use base_token::BytePos;
use ecma_ast::Build;
use ecma_codegen::{EmitError, NoPlaces, to_code, to_code_default, to_code_with_comments};
use lex_comments::{CommentKind, Comments};

#[test]
fn a_text_has_the_comments(rt: HostRuntime) {
    let program = script(&rt, rt.alloc());
    let wanted = "/** foo */ a; /* t */ \n";
    let mut store = comments(&rt, rt.alloc());
    let text = ok(
        &rt,
        to_code_with_comments(rt.alloc(), Some(&mut store), &program),
    );
    assert_eq!(rt; text.as_str(), wanted);
    let mut store = comments(&rt, rt.alloc());
    let text = ok(
        &rt,
        to_code_default(rt.alloc(), NoPlaces, Some(&mut store), &program),
    );
    assert_eq!(rt; text.as_str(), wanted);
}

#[test]
fn no_comment_is_written_twice(rt: HostRuntime) {
    let program = script(&rt, rt.alloc());
    let mut store = comments(&rt, rt.alloc());
    let first = formatted(&rt, rt.alloc(), Some(&mut store), &program);
    assert_eq!(rt; first.as_str(), "/** foo */ a; /* t */ \n");
    let again = formatted(&rt, rt.alloc(), Some(&mut store), &program);
    assert_eq!(rt; again.as_str(), "a;\n");
}

#[test]
fn without_comments_the_text_is_that_of_the_node(rt: HostRuntime) {
    let program = script(&rt, rt.alloc());
    let text = ok(&rt, to_code(rt.alloc(), &program));
    assert_eq!(rt; text.as_str(), "a;\n");
    let bare = ok(&rt, to_code_with_comments(rt.alloc(), None, &program));
    assert_eq!(rt; bare.as_str(), "a;\n");
    let bare = ok(&rt, to_code_default(rt.alloc(), NoPlaces, None, &program));
    assert_eq!(rt; bare.as_str(), "a;\n");
    let bare = formatted(&rt, rt.alloc(), None, &program);
    assert_eq!(rt; bare.as_str(), "a;\n");
}

#[test]
fn what_leads_the_end_of_a_program_is_written(rt: HostRuntime) {
    let program = script(&rt, rt.alloc());
    let mut store = Comments::new(rt.alloc());
    let last = comment(&rt, rt.alloc(), CommentKind::Block, 15, 22, " e ");
    ok(&rt, store.add_leading(BytePos(22), last));
    let text = formatted(&rt, rt.alloc(), Some(&mut store), &program);
    assert_eq!(rt; text.as_str(), "a;\n/* e */ ");
    assert!(rt; !store.has_leading(BytePos(22)));
}

// `a; // t` LF `// l` LF .., whose second comment leads what stands further on
#[test]
fn a_node_of_its_own_has_the_comments_behind_it(rt: HostRuntime) {
    let mut store = Comments::new(rt.alloc());
    let behind = comment(&rt, rt.alloc(), CommentKind::Line, 4, 8, " t");
    ok(&rt, store.add_trailing(BytePos(3), behind));
    let further = comment(&rt, rt.alloc(), CommentKind::Line, 10, 14, " l");
    ok(&rt, store.add_leading(BytePos(20), further));
    let stmt = name_stmt(&rt, &Build { alloc: rt.alloc() }, 1, 3, "a");
    let text = formatted(&rt, rt.alloc(), Some(&mut store), &stmt);
    assert_eq!(rt; text.as_str(), "a; // t\n");
    let lent = formatted(&rt, rt.alloc(), Some(&mut store), &&stmt);
    assert_eq!(rt; lent.as_str(), "a;\n");
    let there = formatted(&rt, rt.alloc(), Some(&mut store), &Some(stmt));
    assert_eq!(rt; there.as_str(), "a;\n");
    assert!(rt; store.has_leading(BytePos(20)));
}

#[test]
fn what_was_not_read_is_refused_with_comments(rt: HostRuntime) {
    let mut store = comments(&rt, rt.alloc());
    let invalid = ok(&rt, Build { alloc: rt.alloc() }.invalid());
    let outcome = to_code_with_comments(rt.alloc(), Some(&mut store), &invalid);
    assert!(rt; matches!(outcome, Err(EmitError::Node)));
}

#[test]
fn a_script_is_formatted(rt: HostRuntime) {
    let program = ok(&rt, build::script(rt.alloc()));
    let text = ok(&rt, to_code(rt.alloc(), &program));
    assert_eq!(rt; text.as_str(), "while(a + f(b))debugger;\n");
}

#[test]
fn what_was_not_read_is_refused(rt: HostRuntime) {
    let invalid = ok(&rt, Build { alloc: rt.alloc() }.invalid());
    let outcome = to_code(rt.alloc(), &invalid);
    assert!(rt; matches!(outcome, Err(EmitError::Node)));
}
