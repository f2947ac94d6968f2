//! Whether two operators, or two other words that stand in the tree, are the same.
ghost use Rattle.std.specs.Prelude.{◌≡◌, nat_eq};
ghost use Rattle.base_token.specs.OperatorKinds.{binary_op_kind, assign_op_kind};
ghost use Rattle.tree_nodes.specs.View.{unary_op_word, update_op_word, meta_prop_kind_word, var_decl_kind_word, method_kind_word};

use base_token::{AssignOp, BinaryOp};
use tree_nodes::{MetaPropKind, MethodKind, UnaryOp, UpdateOp, VarDeclKind};

pub(crate) fn same_binary_op(op: BinaryOp, other: BinaryOp) -> bool
    ensures { result ≡ nat_eq (binary_op_kind op) (binary_op_kind other) }
{
    op == other
}

pub(crate) fn same_assign_op(op: AssignOp, other: AssignOp) -> bool
    ensures { result ≡ nat_eq (assign_op_kind op) (assign_op_kind other) }
{
    op == other
}

pub(crate) fn same_unary_op(op: UnaryOp, other: UnaryOp) -> bool
    ensures { result ≡ nat_eq (unary_op_word op) (unary_op_word other) }
{
    op == other
}

pub(crate) fn same_update_op(op: UpdateOp, other: UpdateOp) -> bool
    ensures { result ≡ nat_eq (update_op_word op) (update_op_word other) }
{
    op == other
}

pub(crate) fn same_meta_prop_kind(kind: MetaPropKind, other: MetaPropKind) -> bool
    ensures { result ≡ nat_eq (meta_prop_kind_word kind) (meta_prop_kind_word other) }
{
    kind == other
}

pub(crate) fn same_var_decl_kind(kind: VarDeclKind, other: VarDeclKind) -> bool
    ensures { result ≡ nat_eq (var_decl_kind_word kind) (var_decl_kind_word other) }
{
    kind == other
}

pub(crate) fn same_method_kind(kind: MethodKind, other: MethodKind) -> bool
    ensures { result ≡ nat_eq (method_kind_word kind) (method_kind_word other) }
{
    kind == other
}
