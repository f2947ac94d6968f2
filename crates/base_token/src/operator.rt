//! Operators with two operands (ECMA-262, 13.5 to 13.15).
ghost use Rattle.std.specs.Prelude.{◌≡◌};
ghost use Rattle.base_token.specs.Operators.{operator_text};

/// A punctuator that is a binary operator.
#[derive(Clone, Copy, Debug, PartialEq, Eq, Hash)]
pub enum BinOpToken {
    EqEq,
    NotEq,
    EqEqEq,
    NotEqEq,
    Lt,
    LtEq,
    Gt,
    GtEq,
    LShift,
    RShift,
    ZeroFillRShift,
    Add,
    Sub,
    Mul,
    Div,
    Mod,
    BitOr,
    BitXor,
    BitAnd,
    Exp,
    LogicalOr,
    LogicalAnd,
    NullishCoalescing,
}

/// A binary operator of an expression: a punctuator, `in` or `instanceof`.
#[derive(Clone, Copy, Debug, PartialEq, Eq, Hash)]
pub enum BinaryOp {
    EqEq,
    NotEq,
    EqEqEq,
    NotEqEq,
    Lt,
    LtEq,
    Gt,
    GtEq,
    LShift,
    RShift,
    ZeroFillRShift,
    Add,
    Sub,
    Mul,
    Div,
    Mod,
    BitOr,
    BitXor,
    BitAnd,
    LogicalOr,
    LogicalAnd,
    In,
    InstanceOf,
    Exp,
    NullishCoalescing,
}

/// An operator that assigns.
#[derive(Clone, Copy, Debug, PartialEq, Eq, Hash)]
pub enum AssignOp {
    Assign,
    AddAssign,
    SubAssign,
    MulAssign,
    DivAssign,
    ModAssign,
    LShiftAssign,
    RShiftAssign,
    ZeroFillRShiftAssign,
    BitOrAssign,
    BitXorAssign,
    BitAndAssign,
    ExpAssign,
    AndAssign,
    OrAssign,
    NullishAssign,
}

impl From<BinOpToken> for BinaryOp {
    ghost use Rattle.base_token.specs.OperatorKinds.{bin_op_kind, binary_op_kind};

    ghost from_gives = { λ token op. binary_op_kind op ≡ bin_op_kind token };

    fn from(token: BinOpToken) -> BinaryOp {
        match token {
            BinOpToken::EqEq => BinaryOp::EqEq,
            BinOpToken::NotEq => BinaryOp::NotEq,
            BinOpToken::EqEqEq => BinaryOp::EqEqEq,
            BinOpToken::NotEqEq => BinaryOp::NotEqEq,
            BinOpToken::Lt => BinaryOp::Lt,
            BinOpToken::LtEq => BinaryOp::LtEq,
            BinOpToken::Gt => BinaryOp::Gt,
            BinOpToken::GtEq => BinaryOp::GtEq,
            BinOpToken::LShift => BinaryOp::LShift,
            BinOpToken::RShift => BinaryOp::RShift,
            BinOpToken::ZeroFillRShift => BinaryOp::ZeroFillRShift,
            BinOpToken::Add => BinaryOp::Add,
            BinOpToken::Sub => BinaryOp::Sub,
            BinOpToken::Mul => BinaryOp::Mul,
            BinOpToken::Div => BinaryOp::Div,
            BinOpToken::Mod => BinaryOp::Mod,
            BinOpToken::BitOr => BinaryOp::BitOr,
            BinOpToken::BitXor => BinaryOp::BitXor,
            BinOpToken::BitAnd => BinaryOp::BitAnd,
            BinOpToken::Exp => BinaryOp::Exp,
            BinOpToken::LogicalOr => BinaryOp::LogicalOr,
            BinOpToken::LogicalAnd => BinaryOp::LogicalAnd,
            BinOpToken::NullishCoalescing => BinaryOp::NullishCoalescing,
        }
    }
}

impl BinaryOp {
    ghost use Rattle.base_token.specs.OperatorKinds.{binary_op_kind};

    /// Its text.
    #[tactic(auto, unfolding(crate::specs::Operators::operator_text))]
    pub fn as_str(self) -> &'static str
        ensures { result.now ≡ operator_text (binary_op_kind self) }
    {
        match self {
            BinaryOp::EqEq => "==",
            BinaryOp::NotEq => "!=",
            BinaryOp::EqEqEq => "===",
            BinaryOp::NotEqEq => "!==",
            BinaryOp::Lt => "<",
            BinaryOp::LtEq => "<=",
            BinaryOp::Gt => ">",
            BinaryOp::GtEq => ">=",
            BinaryOp::LShift => "<<",
            BinaryOp::RShift => ">>",
            BinaryOp::ZeroFillRShift => ">>>",
            BinaryOp::Add => "+",
            BinaryOp::Sub => "-",
            BinaryOp::Mul => "*",
            BinaryOp::Div => "/",
            BinaryOp::Mod => "%",
            BinaryOp::BitOr => "|",
            BinaryOp::BitXor => "^",
            BinaryOp::BitAnd => "&",
            BinaryOp::LogicalOr => "||",
            BinaryOp::LogicalAnd => "&&",
            BinaryOp::In => "in",
            BinaryOp::InstanceOf => "instanceof",
            BinaryOp::Exp => "**",
            BinaryOp::NullishCoalescing => "??",
        }
    }
}

impl AssignOp {
    ghost use Rattle.base_token.specs.OperatorKinds.{assign_op_kind};

    /// Its text.
    #[tactic(auto, unfolding(crate::specs::Operators::operator_text))]
    pub fn as_str(self) -> &'static str
        ensures { result.now ≡ operator_text (assign_op_kind self) }
    {
        match self {
            AssignOp::Assign => "=",
            AssignOp::AddAssign => "+=",
            AssignOp::SubAssign => "-=",
            AssignOp::MulAssign => "*=",
            AssignOp::DivAssign => "/=",
            AssignOp::ModAssign => "%=",
            AssignOp::LShiftAssign => "<<=",
            AssignOp::RShiftAssign => ">>=",
            AssignOp::ZeroFillRShiftAssign => ">>>=",
            AssignOp::BitOrAssign => "|=",
            AssignOp::BitXorAssign => "^=",
            AssignOp::BitAndAssign => "&=",
            AssignOp::ExpAssign => "**=",
            AssignOp::AndAssign => "&&=",
            AssignOp::OrAssign => "||=",
            AssignOp::NullishAssign => "??=",
        }
    }
}
