//! The properties of an object that is being read.
use tree_nodes::PropOrSpread;

/// The properties of an object so far, whether a comma follows the last, and whether the last is spread.
#[derive(Drop)]
pub struct Props {
    pub items: Vec<PropOrSpread>,
    pub comma: bool,
    pub rest: bool,
}
