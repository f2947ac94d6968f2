//! Patterns.

use crate::made::{bound, deep, deeper, name, ok};
use crate::told::pat;
use base_token::DUMMY_SP;
use ecma_ast::Build;
use tree_nodes::{ObjectPatProp, RestPat};

#[test]
fn patterns(rt: HostRuntime) {
    let b = &Build { alloc: rt.alloc() };
    pat(&rt, b, b.binding_ident(name(&rt, b)), "(2:1 (1:1))");
    pat(&rt, b, b.invalid_pat(), "(1:1)");
    pat(&rt, b, b.expr_pat(deep(&rt, b)), "(2:2 (2:2 (1:1)))");
    let tree = b.assign_pat(bound(&rt, b), deeper(&rt, b));
    pat(&rt, b, tree, "(6:4 (2:1 (1:1)) (5:3 (4:2 (3:1))))");
    let tree = b.rest_pat(DUMMY_SP, bound(&rt, b));
    pat(&rt, b, tree, "(3:2 (2:1 (1:1)))");
    let elems = ok(&rt, vec![in b.alloc; None, Some(bound(&rt, b))]);
    pat(&rt, b, b.array_pat(elems), "(3:2 (2:1 (1:1)))");
}

#[test]
fn objects(rt: HostRuntime) {
    let b = &Build { alloc: rt.alloc() };
    let part = RestPat {
        span: DUMMY_SP,
        dot3_token: DUMMY_SP,
        arg: bound(&rt, b),
    };
    let parts = ok(&rt, vec![in b.alloc; ObjectPatProp::Rest(part)]);
    pat(&rt, b, b.object_pat(parts), "(5:3 (3 (2:1 (1:1))))");
}
