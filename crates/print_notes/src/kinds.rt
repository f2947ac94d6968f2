//! Kinds of tokens that say what may stand beside them.
ghost use Rattle.std.specs.Prelude.{◌≡◌};
ghost use Rattle.print_notes.specs.Safe as safe;
ghost use Rattle.print_notes.specs.Spacing as spacing;

use lex_source::kinds;

/// Whether no line may end behind a word of this kind in some production (ECMA-262, 12.10.1).
fn is_tying(kind: u8) -> bool
    ensures { result ≡ safe.is_tying kind }
{
    kind == kinds::RETURN
        || (kind == kinds::BREAK
            || (kind == kinds::CONTINUE
                || (kind == kinds::THROW
                    || (kind == kinds::YIELD
                        || (kind == kinds::ASYNC
                            || (kind == kinds::ACCESSOR
                                || (kind == kinds::USING || kind == kinds::AWAIT)))))))
}

/// Whether no line may end before a token of this kind in some production.
fn is_held(kind: u8) -> bool
    ensures { result ≡ safe.is_held kind }
{
    kind == kinds::ARROW
        || (kind == kinds::PLUS_PLUS || (kind == kinds::MINUS_MINUS || kind == kinds::ASSERT))
}

/// Whether no line may end between tokens of these kinds.
pub(crate) fn is_tied(behind: u8, kind: u8) -> bool
    ensures { result ≡ safe.is_tied behind kind }
{
    is_tying(behind) || is_held(kind)
}

/// Whether nothing else may stand between tokens of these kinds.
pub(crate) fn touch(behind: u8, kind: u8) -> bool
    ensures { result ≡ safe.touch behind kind }
{
    behind == kinds::HASH
        || ((behind == kinds::QUESTION_MARK || behind == kinds::NUM) && kind == kinds::DOT)
}

/// Whether it is `(`, `[`, `{` or `${`.
pub(crate) fn is_opening(kind: u8) -> bool
    ensures { result ≡ spacing.is_opening kind }
{
    kind == kinds::LEFT_PAREN
        || (kind == kinds::LEFT_BRACKET
            || (kind == kinds::LEFT_BRACE || kind == kinds::DOLLAR_BRACE))
}

/// Whether it is `)`, `]` or `}`.
pub(crate) fn is_closing(kind: u8) -> bool
    ensures { result ≡ spacing.is_closing kind }
{
    kind == kinds::RIGHT_PAREN || (kind == kinds::RIGHT_BRACKET || kind == kinds::RIGHT_BRACE)
}

/// Whether it is `)`, `]`, `,` or `;`.
pub(crate) fn is_joined(kind: u8) -> bool
    ensures { result ≡ spacing.is_joined kind }
{
    kind == kinds::RIGHT_PAREN
        || (kind == kinds::RIGHT_BRACKET || (kind == kinds::COMMA || kind == kinds::SEMICOLON))
}
