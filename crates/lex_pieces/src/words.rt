//! Names as words: the token of a name, and which of them may have no escape.
ghost use Rattle.std.specs.Prelude.{◌≡◌, MatchOption};
ghost use Rattle.base_token.specs.Kinds.{name_kind};
ghost use Rattle.base_token.specs.Words.{kind_of, word_of};
ghost use Rattle.base_token.specs.WordViews.{word_view};
ghost use Rattle.lex_pieces.specs.Words.{is_escaped_reserved, name_bytes};

use crate::names::Name;
use base_token::{Context, IdentLike, Word};
use std::borrow::CowStr;

/// The word of a text that has a kind of its own, or nothing where the text is any other name.
fn own_word<'a>(text: &str) -> Option<Word<'a>>
    ensures { MatchOption result (kind_of text.now ≡ name_kind) (λ w. word_view w ≡ word_of text.now) }
{
    match Word::from_str(text) {
        Word::Keyword(keyword) => Some(Word::Keyword(keyword)),
        Word::Null => Some(Word::Null),
        Word::True => Some(Word::True),
        Word::False => Some(Word::False),
        Word::Ident(IdentLike::Known(known)) => Some(Word::Ident(IdentLike::Known(known))),
        Word::Ident(IdentLike::Other(_)) => None,
    }
}

/// The token of a name (ECMA-262, 12.7). A word with an escape is the word of its text without
/// escapes. It takes no memory: a text of its own is handed on.
pub fn word<'a>(name: Name<'a>) -> Word<'a>
    ensures { word_view result ≡ word_of (name_bytes name.entry) }
{
    match name {
        Name::Bare(text) => Word::from_str(text),
        Name::Escaped(text) => match own_word(text.as_str()) {
            Some(word) => word,
            None => Word::Ident(IdentLike::Other(CowStr::Owned(text))),
        },
    }
}

/// Whether a word is reserved here and is spelled with an escape (ECMA-262, 12.7.2 and 13.1.1). Such a
/// word stands only where any name may, reserved or not: as the name of a property, or in a list of
/// imports or exports. Elsewhere it is the fault `EscapeInReservedWord`.
pub fn is_escaped_reserved(context: Context, word: &Word<'_>, escaped: bool) -> bool
    ensures { result ≡ is_escaped_reserved context (word_view word.now).text escaped }
{
    escaped && context.is_reserved(word)
}
