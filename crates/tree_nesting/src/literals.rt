// Written by tools/tree/nesting.py from tools/tree/tree.table. Don't edit this file.
//! How deep literals (ECMA-262, 13.2.3, 13.2.7 and 13.2.8) go.
ghost use Rattle.tree_nodes.specs.View.{view_lit, view_str, view_bool, view_null, view_number, view_big_int, view_regex};

use crate::counts::Nesting;
use tree_nodes::{BigInt, Bool, Lit, Null, Number, Regex, Str};

impl Nesting for Lit {
    ghost tree = { view_lit };

    fn nesting(&self) -> u32 {
        match self {
            Lit::Str(x) => x.nesting(),
            Lit::Bool(x) => x.nesting(),
            Lit::Null(x) => x.nesting(),
            Lit::Num(x) => x.nesting(),
            Lit::BigInt(x) => x.nesting(),
            Lit::Regex(x) => x.nesting(),
        }
    }
}

impl Nesting for Str {
    ghost tree = { view_str };

    fn nesting(&self) -> u32 {
        1
    }
}

impl Nesting for Bool {
    ghost tree = { view_bool };

    fn nesting(&self) -> u32 {
        1
    }
}

impl Nesting for Null {
    ghost tree = { view_null };

    fn nesting(&self) -> u32 {
        1
    }
}

impl Nesting for Number {
    ghost tree = { view_number };

    fn nesting(&self) -> u32 {
        1
    }
}

impl Nesting for BigInt {
    ghost tree = { view_big_int };

    fn nesting(&self) -> u32 {
        1
    }
}

impl Nesting for Regex {
    ghost tree = { view_regex };

    fn nesting(&self) -> u32 {
        1
    }
}
