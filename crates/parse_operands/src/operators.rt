//! Operators of the tree by the kinds of their tokens.
ghost use Rattle.std.specs.Prelude.{◌≡◌, false, true, MatchOption};
ghost use Rattle.grammar_spec.specs.Tokens.Operators as ops;
ghost use Rattle.base_token.specs.OperatorKinds.{assign_op_kind, binary_op_kind};
ghost use Rattle.tree_nodes.specs.View.{unary_op_word, update_op_word};
ghost use Rattle.grammar_spec.specs.Reader.Expressions.{is_unary};
ghost use Rattle.parse_state.specs.Codes.{code_of};
ghost use Rattle.base_token.specs.Kinds.{minus_minus_kind, plus_plus_kind};

use base_token::{AssignOp, BinaryOp};
use parse_state::{Around, kinds};
use tree_nodes::{UnaryOp, UpdateOp};

/// The operator that stands before its operand, of this kind.
pub fn unary_op(kind: u8) -> Option<UnaryOp>
    ensures { MatchOption result (is_unary kind ≡ false) (λ op. (is_unary kind ≡ true) × (unary_op_word op ≡ kind)) }
{
    match kind {
        kinds::SUB => Some(UnaryOp::Minus),
        kinds::ADD => Some(UnaryOp::Plus),
        kinds::BANG => Some(UnaryOp::Bang),
        kinds::TILDE => Some(UnaryOp::Tilde),
        kinds::TYPEOF => Some(UnaryOp::TypeOf),
        kinds::VOID => Some(UnaryOp::Void),
        kinds::DELETE => Some(UnaryOp::Delete),
        _ => None,
    }
}

/// `++` or `--`, of this kind.
pub fn update_op(kind: u8) -> Option<UpdateOp>
    ensures { MatchOption result (ops.between plus_plus_kind minus_minus_kind kind ≡ false)
        (λ op. (ops.between plus_plus_kind minus_minus_kind kind ≡ true)
        × (update_op_word op ≡ kind)) }
{
    match kind {
        kinds::PLUS_PLUS => Some(UpdateOp::PlusPlus),
        kinds::MINUS_MINUS => Some(UpdateOp::MinusMinus),
        _ => None,
    }
}

/// The operator between two operands here, of this kind.
pub fn binary_op(code: Around, kind: u8) -> Option<BinaryOp>
    ensures { MatchOption result (ops.operates (code_of code) kind ≡ false)
        (λ op. (ops.operates (code_of code) kind ≡ true) × (binary_op_kind op ≡ kind)) }
{
    match kind {
        kinds::EQ_EQ => Some(BinaryOp::EqEq),
        kinds::NOT_EQ => Some(BinaryOp::NotEq),
        kinds::EQ_EQ_EQ => Some(BinaryOp::EqEqEq),
        kinds::NOT_EQ_EQ => Some(BinaryOp::NotEqEq),
        kinds::LT => Some(BinaryOp::Lt),
        kinds::LT_EQ => Some(BinaryOp::LtEq),
        kinds::GT => Some(BinaryOp::Gt),
        kinds::GT_EQ => Some(BinaryOp::GtEq),
        kinds::LEFT_SHIFT => Some(BinaryOp::LShift),
        kinds::RIGHT_SHIFT => Some(BinaryOp::RShift),
        kinds::ZERO_FILL_RIGHT_SHIFT => Some(BinaryOp::ZeroFillRShift),
        kinds::ADD => Some(BinaryOp::Add),
        kinds::SUB => Some(BinaryOp::Sub),
        kinds::MUL => Some(BinaryOp::Mul),
        kinds::DIV => Some(BinaryOp::Div),
        kinds::MOD => Some(BinaryOp::Mod),
        kinds::BIT_OR => Some(BinaryOp::BitOr),
        kinds::BIT_XOR => Some(BinaryOp::BitXor),
        kinds::BIT_AND => Some(BinaryOp::BitAnd),
        kinds::LOGICAL_OR => Some(BinaryOp::LogicalOr),
        kinds::LOGICAL_AND => Some(BinaryOp::LogicalAnd),
        kinds::IN if code.context.include_in_expr => Some(BinaryOp::In),
        kinds::INSTANCEOF => Some(BinaryOp::InstanceOf),
        kinds::EXP => Some(BinaryOp::Exp),
        kinds::NULLISH_COALESCING => Some(BinaryOp::NullishCoalescing),
        _ => None,
    }
}

/// The operator that assigns, of this kind.
pub fn assign_op(kind: u8) -> Option<AssignOp>
    ensures { MatchOption result (ops.is_assign_op kind ≡ false)
        (λ op. (ops.is_assign_op kind ≡ true) × (assign_op_kind op ≡ kind)) }
{
    match kind {
        kinds::ASSIGN => Some(AssignOp::Assign),
        kinds::ADD_ASSIGN => Some(AssignOp::AddAssign),
        kinds::SUB_ASSIGN => Some(AssignOp::SubAssign),
        kinds::MUL_ASSIGN => Some(AssignOp::MulAssign),
        kinds::DIV_ASSIGN => Some(AssignOp::DivAssign),
        kinds::MOD_ASSIGN => Some(AssignOp::ModAssign),
        kinds::LEFT_SHIFT_ASSIGN => Some(AssignOp::LShiftAssign),
        kinds::RIGHT_SHIFT_ASSIGN => Some(AssignOp::RShiftAssign),
        kinds::ZERO_FILL_RIGHT_SHIFT_ASSIGN => Some(AssignOp::ZeroFillRShiftAssign),
        kinds::BIT_OR_ASSIGN => Some(AssignOp::BitOrAssign),
        kinds::BIT_XOR_ASSIGN => Some(AssignOp::BitXorAssign),
        kinds::BIT_AND_ASSIGN => Some(AssignOp::BitAndAssign),
        kinds::EXP_ASSIGN => Some(AssignOp::ExpAssign),
        kinds::AND_ASSIGN => Some(AssignOp::AndAssign),
        kinds::OR_ASSIGN => Some(AssignOp::OrAssign),
        kinds::NULLISH_ASSIGN => Some(AssignOp::NullishAssign),
        _ => None,
    }
}
