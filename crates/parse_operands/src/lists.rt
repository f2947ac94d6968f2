//! Lists that are being read.
use tree_nodes::{ExprBox, ExprOrSpread, TplElement};

/// The elements of an array so far, whether a comma follows the last, and whether the last is spread.
#[derive(Drop)]
pub struct Elements {
    pub items: Vec<Option<ExprOrSpread>>,
    pub comma: bool,
    pub rest: bool,
}

/// The arguments of a call so far, and whether a comma follows the last.
#[derive(Drop)]
pub struct Arguments {
    pub items: Vec<ExprOrSpread>,
    pub comma: bool,
}

/// What stands in a template so far, from left to right.
#[derive(Drop)]
pub struct Spans {
    pub exprs: Vec<ExprBox>,
    pub quasis: Vec<TplElement>,
}
