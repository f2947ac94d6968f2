// Written by tools/tree/visit.py from tools/tree/tree.table. Don't edit this file.
//! Goes over literals (ECMA-262, 13.2.3, 13.2.7 and 13.2.8).
ghost use Rattle.tree_nodes.specs.View.{view_str, view_number, view_big_int};

use crate::watch::{Node, Walk, Watch};
use tree_nodes::{BigInt, Number, Str};

impl Walk for Str {
    ghost tree = { view_str };

    fn walk<V: Watch>(&self, visitor: &mut V) {
        visitor.enter(Node::Str(self));
        visitor.leave(Node::Str(self));
    }
}

impl Walk for Number {
    ghost tree = { view_number };

    fn walk<V: Watch>(&self, visitor: &mut V) {
        visitor.enter(Node::Number(self));
        visitor.leave(Node::Number(self));
    }
}

impl Walk for BigInt {
    ghost tree = { view_big_int };

    fn walk<V: Watch>(&self, visitor: &mut V) {
        visitor.enter(Node::BigInt(self));
        visitor.leave(Node::BigInt(self));
    }
}
