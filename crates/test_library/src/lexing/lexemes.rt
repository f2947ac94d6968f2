//! Which tokens want memory, and that they find it where there is some.

use crate::lexing::reading::{end_of, read};
use base_token::operator::{AssignOp, BinOpToken};
use base_token::token::TokenKind;
use base_token::{IdentKind, Keyword, WordKind};
use lex_token::LexicalGoal::{self, Div, RegExp, TemplateEnd, TemplateTail};
use std::test::Fail;

/// A name that the grammar does not ask for.
const OTHER: WordKind = WordKind::Ident(IdentKind::Other);

/// Tokens for which memory is taken: with an escape, a separator, or more digits than a number has room for.
const WANTING: &[(LexicalGoal, &str, TokenKind)] = &[
    (Div, "'\\n'", TokenKind::Str),
    (TemplateTail, "\\n`", TokenKind::Template),
    (TemplateTail, "a\rb${", TokenKind::Template),
    (Div, "n\\u0061me", TokenKind::Word(OTHER)),
    (Div, "1_000n", TokenKind::BigInt),
    (Div, "0x1_fn", TokenKind::BigInt),
    (
        Div,
        "1234567890123456789012345678901234567890",
        TokenKind::Num,
    ),
    (Div, "0xFFFFFFFFFFFFFFFFFFFFFFFFFFFFFF", TokenKind::Num),
    (
        Div,
        "1e1234567890123456789012345678901234567890",
        TokenKind::Num,
    ),
];

/// Tokens for which none is taken.
const CONTENT: &[(LexicalGoal, &str, TokenKind)] = &[
    (Div, "name", TokenKind::Word(OTHER)),
    (Div, "\u{E9}", TokenKind::Word(OTHER)),
    (Div, "null", TokenKind::Word(WordKind::Null)),
    (Div, "var", TokenKind::Word(WordKind::Keyword(Keyword::Var))),
    (
        RegExp,
        ">>>=",
        TokenKind::AssignOp(AssignOp::ZeroFillRShiftAssign),
    ),
    (Div, "/", TokenKind::BinOp(BinOpToken::Div)),
    (Div, "}", TokenKind::RBrace),
    (Div, "0", TokenKind::Num),
    (Div, "1_000.5e3", TokenKind::Num),
    (Div, "0xFFFFFFFFFFFFFFFF", TokenKind::Num),
    (Div, "010", TokenKind::Num),
    (Div, "179769313486231570000", TokenKind::Num),
    (Div, "123456789012345678901234567890n", TokenKind::BigInt),
    (Div, "0xFFn", TokenKind::BigInt),
    (Div, "''", TokenKind::Str),
    (Div, "'\u{1F600} and more'", TokenKind::Str),
    (TemplateTail, "`", TokenKind::Template),
    (TemplateTail, "a\n$b${", TokenKind::Template),
    (TemplateEnd, "${", TokenKind::DollarLBrace),
    (TemplateEnd, "`", TokenKind::BackQuote),
    (RegExp, "/[/]\\//g", TokenKind::Regex),
];

#[test]
fn finds_memory_where_there_is_some(rt: HostRuntime) -> Result<(), Fail> {
    for (goal, text, kind) in WANTING.iter().chain(CONTENT.iter()) {
        let lexeme = read(rt.alloc(), *goal, text, end_of(text))?
            .ok()
            .ok_or("a fault")?
            .ok_or("no token")?;
        assert_eq!(rt; lexeme.token.kind(), *kind, "at {text}");
    }
    Ok(())
}

/// It passes where the first allocation fails.
#[test]
fn takes_no_memory(rt: HostRuntime) -> Result<(), Fail> {
    for (goal, text, kind) in CONTENT {
        let lexeme = read(rt.alloc(), *goal, text, end_of(text))?
            .ok()
            .ok_or("a fault")?
            .ok_or("no token")?;
        assert_eq!(rt; lexeme.token.kind(), *kind, "at {text}");
    }
    Ok(())
}
