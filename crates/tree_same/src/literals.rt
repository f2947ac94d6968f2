// Written by tools/tree/same.py from tools/tree/tree.table. Don't edit this file.
//! Whether literals (ECMA-262, 13.2.3, 13.2.7 and 13.2.8) say the same.
ghost use Rattle.tree_nodes.specs.View.{view_lit, view_str, view_bool, view_null, view_number, view_big_int, view_regex};

use crate::parts::{Present, Same};
use tree_nodes::{BigInt, Bool, Lit, Null, Number, Regex, Str};

impl Same for Lit {
    ghost tree = { view_lit };

    #[tactic(auto, using(crate::proofs::Apart::lit_apart))]
    fn same(&self, other: &Lit) -> bool {
        match (self, other) {
            (Lit::Str(x), Lit::Str(y)) => x.same(y),
            (Lit::Bool(x), Lit::Bool(y)) => x.same(y),
            (Lit::Null(x), Lit::Null(y)) => x.same(y),
            (Lit::Num(x), Lit::Num(y)) => x.same(y),
            (Lit::BigInt(x), Lit::BigInt(y)) => x.same(y),
            (Lit::Regex(x), Lit::Regex(y)) => x.same(y),
            _ => false,
        }
    }
}

impl Same for Str {
    ghost tree = { view_str };

    #[tactic(auto, using(crate::proofs::Spellings::str_lit_rule))]
    fn same(&self, other: &Str) -> bool {
        self.units == other.units
    }
}

impl Present for Str {
    fn is_left_out(&self) -> bool {
        false
    }
}

impl Same for Bool {
    ghost tree = { view_bool };

    #[tactic(auto, using(crate::proofs::Rules::bool_lit_rule))]
    fn same(&self, other: &Bool) -> bool {
        self.value == other.value
    }
}

impl Same for Null {
    ghost tree = { view_null };

    #[tactic(auto, using(crate::proofs::Rules::null_lit_rule))]
    fn same(&self, _other: &Null) -> bool {
        true
    }
}

impl Same for Number {
    ghost tree = { view_number };

    #[tactic(auto, using(crate::proofs::Spellings::number_rule))]
    fn same(&self, other: &Number) -> bool {
        self.value.is_same(&other.value)
    }
}

impl Same for BigInt {
    ghost tree = { view_big_int };

    #[tactic(auto, using(crate::proofs::Spellings::big_int_lit_rule))]
    fn same(&self, other: &BigInt) -> bool {
        self.radix == other.radix && self.digits == other.digits
    }
}

impl Same for Regex {
    ghost tree = { view_regex };

    #[tactic(auto, using(crate::proofs::Rules::regex_lit_rule))]
    fn same(&self, other: &Regex) -> bool {
        self.exp == other.exp && self.flags == other.flags
    }
}
