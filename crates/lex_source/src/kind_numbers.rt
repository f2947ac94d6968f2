//! The number of a token's kind.
ghost use Rattle.std.specs.Prelude.{◌≡◌, ◌<◌};
ghost use Rattle.base_token.specs.OperatorKinds.{assign_op_kind, bin_op_kind};
ghost use Rattle.base_token.specs.TokenViews.{token_kind_number, token_view};
ghost use Rattle.base_token.specs.WordKinds.{keyword_kind, known_kind};
ghost use Rattle.base_token.specs.WordViews.{word_kind_number, word_view};

use crate::kinds;
use base_token::{
    AssignOp, BinOpToken, IdentKind, IdentLike, Keyword, KnownIdent, Token, TokenKind, Word,
    WordKind,
};

fn keyword_number(keyword: Keyword) -> u8
    ensures { result ≡ keyword_kind keyword }
{
    match keyword {
        Keyword::Await => kinds::AWAIT,
        Keyword::Break => kinds::BREAK,
        Keyword::Case => kinds::CASE,
        Keyword::Catch => kinds::CATCH,
        Keyword::Continue => kinds::CONTINUE,
        Keyword::Debugger => kinds::DEBUGGER,
        Keyword::Default_ => kinds::DEFAULT,
        Keyword::Do => kinds::DO,
        Keyword::Else => kinds::ELSE,
        Keyword::Finally => kinds::FINALLY,
        Keyword::For => kinds::FOR,
        Keyword::Function => kinds::FUNCTION,
        Keyword::If => kinds::IF,
        Keyword::Return => kinds::RETURN,
        Keyword::Switch => kinds::SWITCH,
        Keyword::Throw => kinds::THROW,
        Keyword::Try => kinds::TRY,
        Keyword::Var => kinds::VAR,
        Keyword::Let => kinds::LET,
        Keyword::Const => kinds::CONST,
        Keyword::While => kinds::WHILE,
        Keyword::With => kinds::WITH,
        Keyword::New => kinds::NEW,
        Keyword::This => kinds::THIS,
        Keyword::Super => kinds::SUPER,
        Keyword::Class => kinds::CLASS,
        Keyword::Extends => kinds::EXTENDS,
        Keyword::Export => kinds::EXPORT,
        Keyword::Import => kinds::IMPORT,
        Keyword::Yield => kinds::YIELD,
        Keyword::In => kinds::IN,
        Keyword::InstanceOf => kinds::INSTANCEOF,
        Keyword::TypeOf => kinds::TYPEOF,
        Keyword::Void => kinds::VOID,
        Keyword::Delete => kinds::DELETE,
    }
}

fn known_number(known: KnownIdent) -> u8
    ensures { result ≡ known_kind known }
{
    match known {
        KnownIdent::Accessor => kinds::ACCESSOR,
        KnownIdent::As => kinds::AS,
        KnownIdent::Assert => kinds::ASSERT,
        KnownIdent::Async => kinds::ASYNC,
        KnownIdent::Enum => kinds::ENUM,
        KnownIdent::From => kinds::FROM,
        KnownIdent::Get => kinds::GET,
        KnownIdent::Implements => kinds::IMPLEMENTS,
        KnownIdent::Interface => kinds::INTERFACE,
        KnownIdent::Meta => kinds::META,
        KnownIdent::Of => kinds::OF,
        KnownIdent::Package => kinds::PACKAGE,
        KnownIdent::Private => kinds::PRIVATE,
        KnownIdent::Protected => kinds::PROTECTED,
        KnownIdent::Public => kinds::PUBLIC,
        KnownIdent::Set => kinds::SET,
        KnownIdent::Static => kinds::STATIC,
        KnownIdent::Target => kinds::TARGET,
        KnownIdent::Undefined => kinds::UNDEFINED,
        KnownIdent::Using => kinds::USING,
    }
}

/// The number of a word's kind.
pub fn word_number(word: &Word<'_>) -> u8
    ensures { result ≡ (word_view word.now).kind }
{
    match word {
        Word::Keyword(keyword) => keyword_number(*keyword),
        Word::Null => kinds::NULL,
        Word::True => kinds::TRUE,
        Word::False => kinds::FALSE,
        Word::Ident(IdentLike::Known(known)) => known_number(*known),
        Word::Ident(IdentLike::Other(_)) => kinds::NAME,
    }
}

fn binary_number(op: BinOpToken) -> u8
    ensures { result ≡ bin_op_kind op }
{
    match op {
        BinOpToken::EqEq => kinds::EQ_EQ,
        BinOpToken::NotEq => kinds::NOT_EQ,
        BinOpToken::EqEqEq => kinds::EQ_EQ_EQ,
        BinOpToken::NotEqEq => kinds::NOT_EQ_EQ,
        BinOpToken::Lt => kinds::LT,
        BinOpToken::LtEq => kinds::LT_EQ,
        BinOpToken::Gt => kinds::GT,
        BinOpToken::GtEq => kinds::GT_EQ,
        BinOpToken::LShift => kinds::LEFT_SHIFT,
        BinOpToken::RShift => kinds::RIGHT_SHIFT,
        BinOpToken::ZeroFillRShift => kinds::ZERO_FILL_RIGHT_SHIFT,
        BinOpToken::Add => kinds::ADD,
        BinOpToken::Sub => kinds::SUB,
        BinOpToken::Mul => kinds::MUL,
        BinOpToken::Div => kinds::DIV,
        BinOpToken::Mod => kinds::MOD,
        BinOpToken::BitOr => kinds::BIT_OR,
        BinOpToken::BitXor => kinds::BIT_XOR,
        BinOpToken::BitAnd => kinds::BIT_AND,
        BinOpToken::Exp => kinds::EXP,
        BinOpToken::LogicalOr => kinds::LOGICAL_OR,
        BinOpToken::LogicalAnd => kinds::LOGICAL_AND,
        BinOpToken::NullishCoalescing => kinds::NULLISH_COALESCING,
    }
}

fn assign_number(op: AssignOp) -> u8
    ensures { result ≡ assign_op_kind op }
{
    match op {
        AssignOp::Assign => kinds::ASSIGN,
        AssignOp::AddAssign => kinds::ADD_ASSIGN,
        AssignOp::SubAssign => kinds::SUB_ASSIGN,
        AssignOp::MulAssign => kinds::MUL_ASSIGN,
        AssignOp::DivAssign => kinds::DIV_ASSIGN,
        AssignOp::ModAssign => kinds::MOD_ASSIGN,
        AssignOp::LShiftAssign => kinds::LEFT_SHIFT_ASSIGN,
        AssignOp::RShiftAssign => kinds::RIGHT_SHIFT_ASSIGN,
        AssignOp::ZeroFillRShiftAssign => kinds::ZERO_FILL_RIGHT_SHIFT_ASSIGN,
        AssignOp::BitOrAssign => kinds::BIT_OR_ASSIGN,
        AssignOp::BitXorAssign => kinds::BIT_XOR_ASSIGN,
        AssignOp::BitAndAssign => kinds::BIT_AND_ASSIGN,
        AssignOp::ExpAssign => kinds::EXP_ASSIGN,
        AssignOp::AndAssign => kinds::AND_ASSIGN,
        AssignOp::OrAssign => kinds::OR_ASSIGN,
        AssignOp::NullishAssign => kinds::NULLISH_ASSIGN,
    }
}

/// The number of a token's kind.
pub fn token_number(token: &Token<'_>) -> u8
    ensures { result ≡ (token_view token.now).kind }
{
    match token {
        Token::Word(word) => word_number(word),
        Token::BinOp(op) => binary_number(*op),
        Token::AssignOp(op) => assign_number(*op),
        Token::Arrow => kinds::ARROW,
        Token::Hash => kinds::HASH,
        Token::At => kinds::AT,
        Token::Dot => kinds::DOT,
        Token::DotDotDot => kinds::DOT_DOT_DOT,
        Token::Bang => kinds::BANG,
        Token::LParen => kinds::LEFT_PAREN,
        Token::RParen => kinds::RIGHT_PAREN,
        Token::LBracket => kinds::LEFT_BRACKET,
        Token::RBracket => kinds::RIGHT_BRACKET,
        Token::LBrace => kinds::LEFT_BRACE,
        Token::RBrace => kinds::RIGHT_BRACE,
        Token::Semi => kinds::SEMICOLON,
        Token::Comma => kinds::COMMA,
        Token::BackQuote => kinds::BACK_QUOTE,
        Token::Template { .. } => kinds::TEMPLATE,
        Token::Colon => kinds::COLON,
        Token::DollarLBrace => kinds::DOLLAR_BRACE,
        Token::QuestionMark => kinds::QUESTION_MARK,
        Token::PlusPlus => kinds::PLUS_PLUS,
        Token::MinusMinus => kinds::MINUS_MINUS,
        Token::Tilde => kinds::TILDE,
        Token::Str { .. } => kinds::STR,
        Token::Regex(_, _) => kinds::REGEX,
        Token::Num { .. } => kinds::NUM,
        Token::BigInt { .. } => kinds::BIG_INT,
        Token::Shebang(_) => kinds::SHEBANG,
        Token::Error(_) => kinds::ERROR,
    }
}

/// The number of a word's kind, by the kind.
fn word_kind_number(word: WordKind) -> u8
    ensures { result ≡ word_kind_number word }
{
    match word {
        WordKind::Keyword(keyword) => keyword_number(keyword),
        WordKind::Null => kinds::NULL,
        WordKind::True => kinds::TRUE,
        WordKind::False => kinds::FALSE,
        WordKind::Ident(IdentKind::Known(known)) => known_number(known),
        WordKind::Ident(IdentKind::Other) => kinds::NAME,
    }
}

/// The number of a kind.
pub fn kind_number(kind: TokenKind) -> u8
    ensures { result ≡ token_kind_number kind }
{
    match kind {
        TokenKind::Word(word) => word_kind_number(word),
        TokenKind::BinOp(op) => binary_number(op),
        TokenKind::AssignOp(op) => assign_number(op),
        TokenKind::Arrow => kinds::ARROW,
        TokenKind::Hash => kinds::HASH,
        TokenKind::At => kinds::AT,
        TokenKind::Dot => kinds::DOT,
        TokenKind::DotDotDot => kinds::DOT_DOT_DOT,
        TokenKind::Bang => kinds::BANG,
        TokenKind::LParen => kinds::LEFT_PAREN,
        TokenKind::RParen => kinds::RIGHT_PAREN,
        TokenKind::LBracket => kinds::LEFT_BRACKET,
        TokenKind::RBracket => kinds::RIGHT_BRACKET,
        TokenKind::LBrace => kinds::LEFT_BRACE,
        TokenKind::RBrace => kinds::RIGHT_BRACE,
        TokenKind::Semi => kinds::SEMICOLON,
        TokenKind::Comma => kinds::COMMA,
        TokenKind::BackQuote => kinds::BACK_QUOTE,
        TokenKind::Template => kinds::TEMPLATE,
        TokenKind::Colon => kinds::COLON,
        TokenKind::DollarLBrace => kinds::DOLLAR_BRACE,
        TokenKind::QuestionMark => kinds::QUESTION_MARK,
        TokenKind::PlusPlus => kinds::PLUS_PLUS,
        TokenKind::MinusMinus => kinds::MINUS_MINUS,
        TokenKind::Tilde => kinds::TILDE,
        TokenKind::Str => kinds::STR,
        TokenKind::Regex => kinds::REGEX,
        TokenKind::Num => kinds::NUM,
        TokenKind::BigInt => kinds::BIG_INT,
        TokenKind::Shebang => kinds::SHEBANG,
        TokenKind::Error => kinds::ERROR,
    }
}
