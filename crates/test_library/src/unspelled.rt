//! Which trees are the same program where no text has them.

use crate::made::ok;
use base_token::{Atom, StrValue};
use ecma_ast::Build;
use tree_same::Same;

#[test]
fn a_string_needs_no_spelling(rt: HostRuntime) {
    let b = &Build { alloc: rt.alloc() };
    let bare = ok(&rt, b.str(ok(&rt, StrValue::from_text(b.alloc, "a")), None));
    let spelling = ok(&rt, Atom::new(b.alloc, "'a'"));
    let spelled = ok(
        &rt,
        b.str(ok(&rt, StrValue::from_text(b.alloc, "a")), Some(spelling)),
    );
    let other = ok(&rt, b.str(ok(&rt, StrValue::from_text(b.alloc, "b")), None));
    assert!(rt; bare.same(&spelled));
    assert!(rt; spelled.same(&bare));
    assert!(rt; !bare.same(&other));
}

#[test]
fn what_could_not_be_read_is_the_same_as_itself(rt: HostRuntime) {
    let b = &Build { alloc: rt.alloc() };
    let invalid = ok(&rt, b.invalid());
    let other = ok(&rt, b.this_expr());
    assert!(rt; invalid.same(&ok(&rt, b.invalid())));
    assert!(rt; !invalid.same(&other));
    assert!(rt; !other.same(&invalid));
}
