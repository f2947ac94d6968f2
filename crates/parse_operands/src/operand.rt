//! An expression that was read.
ghost use Rattle.std.specs.Prelude.{◌≡◌};
ghost use Rattle.grammar_spec.specs.Tokens.Shape as shape;
ghost use Rattle.tree_nodes.specs.Placed.{in_expr, inner};

use tree_nodes::ExprBox;

/// An expression that was read, beside its level and the class of its last part. To find these in the tree would take a
/// walk at each operator.
#[derive(Drop)]
pub struct Operand {
    pub expr: ExprBox,
    pub level: u8,
    pub end: u8,
    ghost holds: { expr.part.value ≡ in_expr (inner expr.part.value) },
    ghost level_is: { level ≡ shape.level (inner expr.part.value) },
    ghost end_is: { end ≡ shape.ends (inner expr.part.value) },
}
