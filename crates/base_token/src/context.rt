//! What a parser knows of the code around the token that it reads.
ghost use Rattle.std.specs.Prelude.{◌≡◌, ◌≢◌};
ghost use Rattle.base_token.specs.Kinds.{name_kind};
ghost use Rattle.base_token.specs.Words.{own_text};

use crate::word::{IdentKind, IdentLike, Keyword, KnownIdent, Word, WordKind};

/// Flags of the code around a token. All are off at first.
#[derive(Clone, Copy, Debug, Default, PartialEq, Eq)]
pub struct Context {
    /// In a module.
    pub module_: bool,
    /// In a text that may still turn out to be a module.
    pub can_be_module: bool,
    /// In strict code.
    pub strict: bool,
    /// Where `in` may be an operator.
    pub include_in_expr: bool,
    /// In an async function.
    pub in_async: bool,
    /// In a generator.
    pub in_generator: bool,
    /// In a static block of a class.
    pub in_static_block: bool,
    /// In a function.
    pub in_function: bool,
    /// Where `break` needs no label.
    pub is_break_allowed: bool,
    /// Where `continue` may stand.
    pub is_continue_allowed: bool,
    /// Where `super` may name a property.
    pub allow_super: bool,
    /// Where `super` may be called.
    pub allow_direct_super: bool,
    /// Where faults are not recorded.
    pub ignore_error: bool,
}

impl Context {
    ghost use Rattle.base_token.specs.WordKinds.{keyword_kind, known_kind};
    ghost use Rattle.base_token.specs.WordViews.{word_view, word_kind_number};
    ghost use Rattle.base_token.specs.Reserved.{is_reserved_in};

    /// Whether the word is no name here (ECMA-262, 12.7.2 and 13.1.1).
    pub fn is_reserved(self, word: &Word<'_>) -> bool
        ensures { result ≡ is_reserved_in self (word_view word.now).text }
    {
        match word {
            Word::Ident(IdentLike::Other(text)) => self.is_reserved_word(text.as_str()),
            _ => self.reserves(word.kind()),
        }
    }

    /// Whether the word of this text is no name here.
    pub fn is_reserved_word(self, text: &str) -> bool
        ensures { result ≡ is_reserved_in self text.now }
    {
        match Word::from_str(text) {
            Word::Ident(IdentLike::Other(_)) => false,
            word => self.reserves(word.kind()),
        }
    }

    fn reserves(self, kind: WordKind) -> bool
        ensures { word_kind_number kind ≢ name_kind → result ≡ is_reserved_in self (own_text (word_kind_number kind)) }
    {
        match kind {
            WordKind::Keyword(keyword) => self.reserves_keyword(keyword),
            WordKind::Null | WordKind::True | WordKind::False => true,
            WordKind::Ident(IdentKind::Known(known)) => self.reserves_name(known),
            WordKind::Ident(IdentKind::Other) => false,
        }
    }

    fn reserves_keyword(self, keyword: Keyword) -> bool
        ensures { result ≡ is_reserved_in self (own_text (keyword_kind keyword)) }
    {
        match keyword {
            Keyword::Let => self.strict,
            Keyword::Yield => self.strict || self.in_generator,
            Keyword::Await => self.in_async || self.in_static_block || self.module_,
            _ => true,
        }
    }

    fn reserves_name(self, known: KnownIdent) -> bool
        ensures { result ≡ is_reserved_in self (own_text (known_kind known)) }
    {
        match known {
            KnownIdent::Enum => true,
            KnownIdent::Implements
            | KnownIdent::Interface
            | KnownIdent::Package
            | KnownIdent::Private
            | KnownIdent::Protected
            | KnownIdent::Public
            | KnownIdent::Static => self.strict,
            _ => false,
        }
    }
}
