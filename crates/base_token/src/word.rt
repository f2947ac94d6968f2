//! Words: keywords, the words that are values, and names (ECMA-262, 12.7).
ghost use Rattle.std.specs.Prelude.{◌≡◌, false, Some};
ghost use Rattle.base_token.specs.Kinds.{name_kind};
ghost use Rattle.base_token.specs.Words.{keyword_words, known_words, kind_among, own_text, own_word, word_of, IsOwnName};

use crate::word_table::kind_of;
use std::borrow::CowStr;
use std::convert::AsStr;
use std::fmt;
use std::str::FromStr;

/// A keyword. `let`, `yield` and `await` are among them, though some contexts take them for names.
#[derive(Clone, Copy, Debug, PartialEq, Eq, Hash)]
pub enum Keyword {
    Await,
    Break,
    Case,
    Catch,
    Continue,
    Debugger,
    Default_,
    Do,
    Else,
    Finally,
    For,
    Function,
    If,
    Return,
    Switch,
    Throw,
    Try,
    Var,
    Let,
    Const,
    While,
    With,
    New,
    This,
    Super,
    Class,
    Extends,
    Export,
    Import,
    Yield,
    In,
    InstanceOf,
    TypeOf,
    Void,
    Delete,
}

impl Keyword {
    ghost use Rattle.base_token.specs.WordKinds.{keyword_kind};

    /// Its text.
    #[tactic(auto, unfolding(crate::specs::Words::own_text))]
    pub fn as_str(self) -> &'static str
        ensures { result.now ≡ own_text (keyword_kind self) }
    {
        match self {
            Keyword::Await => "await",
            Keyword::Break => "break",
            Keyword::Case => "case",
            Keyword::Catch => "catch",
            Keyword::Continue => "continue",
            Keyword::Debugger => "debugger",
            Keyword::Default_ => "default",
            Keyword::Do => "do",
            Keyword::Else => "else",
            Keyword::Finally => "finally",
            Keyword::For => "for",
            Keyword::Function => "function",
            Keyword::If => "if",
            Keyword::Return => "return",
            Keyword::Switch => "switch",
            Keyword::Throw => "throw",
            Keyword::Try => "try",
            Keyword::Var => "var",
            Keyword::Let => "let",
            Keyword::Const => "const",
            Keyword::While => "while",
            Keyword::With => "with",
            Keyword::New => "new",
            Keyword::This => "this",
            Keyword::Super => "super",
            Keyword::Class => "class",
            Keyword::Extends => "extends",
            Keyword::Export => "export",
            Keyword::Import => "import",
            Keyword::Yield => "yield",
            Keyword::In => "in",
            Keyword::InstanceOf => "instanceof",
            Keyword::TypeOf => "typeof",
            Keyword::Void => "void",
            Keyword::Delete => "delete",
        }
    }
}

/// A text that is not the word that it was to be.
#[derive(Clone, Copy, Debug, PartialEq, Eq)]
pub struct UnknownWord;

impl FromStr for Keyword {
    ghost use Rattle.base_token.specs.WordKinds.{keyword_found};

    type Err = UnknownWord;

    ghost from_str_gives = { λ text r. keyword_found r ≡ kind_among keyword_words text };

    fn from_str(text: &str) -> Result<Keyword, UnknownWord> {
        match text {
            "await" => Ok(Keyword::Await),
            "break" => Ok(Keyword::Break),
            "case" => Ok(Keyword::Case),
            "catch" => Ok(Keyword::Catch),
            "continue" => Ok(Keyword::Continue),
            "debugger" => Ok(Keyword::Debugger),
            "default" => Ok(Keyword::Default_),
            "do" => Ok(Keyword::Do),
            "else" => Ok(Keyword::Else),
            "finally" => Ok(Keyword::Finally),
            "for" => Ok(Keyword::For),
            "function" => Ok(Keyword::Function),
            "if" => Ok(Keyword::If),
            "return" => Ok(Keyword::Return),
            "switch" => Ok(Keyword::Switch),
            "throw" => Ok(Keyword::Throw),
            "try" => Ok(Keyword::Try),
            "var" => Ok(Keyword::Var),
            "let" => Ok(Keyword::Let),
            "const" => Ok(Keyword::Const),
            "while" => Ok(Keyword::While),
            "with" => Ok(Keyword::With),
            "new" => Ok(Keyword::New),
            "this" => Ok(Keyword::This),
            "super" => Ok(Keyword::Super),
            "class" => Ok(Keyword::Class),
            "extends" => Ok(Keyword::Extends),
            "export" => Ok(Keyword::Export),
            "import" => Ok(Keyword::Import),
            "yield" => Ok(Keyword::Yield),
            "in" => Ok(Keyword::In),
            "instanceof" => Ok(Keyword::InstanceOf),
            "typeof" => Ok(Keyword::TypeOf),
            "void" => Ok(Keyword::Void),
            "delete" => Ok(Keyword::Delete),
            _ => Err(UnknownWord),
        }
    }
}

/// A name that is no keyword, but that the grammar asks for by its text.
#[derive(Clone, Copy, Debug, PartialEq, Eq, Hash)]
pub enum KnownIdent {
    Accessor,
    As,
    Assert,
    Async,
    Enum,
    From,
    Get,
    Implements,
    Interface,
    Meta,
    Of,
    Package,
    Private,
    Protected,
    Public,
    Set,
    Static,
    Target,
    Undefined,
    Using,
}

impl AsStr for KnownIdent {
    ghost use Rattle.base_token.specs.WordKinds.{known_kind};

    ghost text = { λ known. own_text (known_kind known) };

    fn as_str(&self) -> &str {
        <&'static str>::from(*self)
    }
}

impl From<KnownIdent> for &'static str {
    ghost use Rattle.base_token.specs.WordKinds.{known_kind};

    ghost from_gives = { λ known s. s.now ≡ own_text (known_kind known) };

    #[tactic(auto, unfolding(crate::specs::Words::own_text))]
    fn from(known: KnownIdent) -> &'static str {
        match known {
            KnownIdent::Accessor => "accessor",
            KnownIdent::As => "as",
            KnownIdent::Assert => "assert",
            KnownIdent::Async => "async",
            KnownIdent::Enum => "enum",
            KnownIdent::From => "from",
            KnownIdent::Get => "get",
            KnownIdent::Implements => "implements",
            KnownIdent::Interface => "interface",
            KnownIdent::Meta => "meta",
            KnownIdent::Of => "of",
            KnownIdent::Package => "package",
            KnownIdent::Private => "private",
            KnownIdent::Protected => "protected",
            KnownIdent::Public => "public",
            KnownIdent::Set => "set",
            KnownIdent::Static => "static",
            KnownIdent::Target => "target",
            KnownIdent::Undefined => "undefined",
            KnownIdent::Using => "using",
        }
    }
}

impl FromStr for KnownIdent {
    ghost use Rattle.base_token.specs.WordKinds.{known_found};

    type Err = UnknownWord;

    ghost from_str_gives = { λ text r. known_found r ≡ kind_among known_words text };

    fn from_str(text: &str) -> Result<KnownIdent, UnknownWord> {
        match text {
            "accessor" => Ok(KnownIdent::Accessor),
            "as" => Ok(KnownIdent::As),
            "assert" => Ok(KnownIdent::Assert),
            "async" => Ok(KnownIdent::Async),
            "enum" => Ok(KnownIdent::Enum),
            "from" => Ok(KnownIdent::From),
            "get" => Ok(KnownIdent::Get),
            "implements" => Ok(KnownIdent::Implements),
            "interface" => Ok(KnownIdent::Interface),
            "meta" => Ok(KnownIdent::Meta),
            "of" => Ok(KnownIdent::Of),
            "package" => Ok(KnownIdent::Package),
            "private" => Ok(KnownIdent::Private),
            "protected" => Ok(KnownIdent::Protected),
            "public" => Ok(KnownIdent::Public),
            "set" => Ok(KnownIdent::Set),
            "static" => Ok(KnownIdent::Static),
            "target" => Ok(KnownIdent::Target),
            "undefined" => Ok(KnownIdent::Undefined),
            "using" => Ok(KnownIdent::Using),
            _ => Err(UnknownWord),
        }
    }
}

impl fmt::Display for KnownIdent {
    ghost use Rattle.base_token.specs.WordKinds.{known_kind};

    ghost output = { λ known. Some (own_text (known_kind known)) };

    fn fmt<W: fmt::Write>(&self, f: &mut fmt::Formatter<W>) -> fmt::Result {
        f.write_str(<&'static str>::from(*self))
    }
}

/// A name, with its text.
#[derive(Clone, Debug, Drop, PartialEq, Eq)]
pub enum IdentLike<'a> {
    /// One that the grammar knows.
    Known(KnownIdent),
    /// Any other, by its text with no escapes: a part of the text that was read, or, where that
    /// spells it with an escape, a text of its own.
    Other(CowStr<'a>),
}

/// A name, without its text.
#[derive(Clone, Copy, Debug, PartialEq, Eq, Hash)]
pub enum IdentKind {
    /// One that the grammar knows.
    Known(KnownIdent),
    /// Any other.
    Other,
}

impl AsStr for IdentLike<'_> {
    ghost use Rattle.base_token.specs.WordViews.{name_view};

    ghost text = { λ name. (name_view name).text };

    fn as_str(&self) -> &str {
        match self {
            IdentLike::Known(known) => known.as_str(),
            IdentLike::Other(text) => text.as_str(),
        }
    }
}

/// The name of a text, which is borrowed.
impl<'a> From<&'a str> for IdentLike<'a> {
    ghost use Rattle.base_token.specs.WordViews.{name_view};

    ghost from_gives = { λ text name. name_view name ≡ record { kind = kind_among known_words text.now; text = text.now } };

    fn from(text: &'a str) -> IdentLike<'a> {
        match text.parse::<KnownIdent>() {
            Ok(known) => IdentLike::Known(known),
            Err(_) => IdentLike::Other(CowStr::Borrowed(text)),
        }
    }
}

impl fmt::Display for IdentLike<'_> {
    ghost use Rattle.base_token.specs.WordViews.{name_view};

    ghost output = { λ name. Some (name_view name).text };

    fn fmt<W: fmt::Write>(&self, f: &mut fmt::Formatter<W>) -> fmt::Result {
        f.write_str(self.as_str())
    }
}

/// A word, with its text.
#[derive(Clone, Debug, Drop, PartialEq, Eq)]
pub enum Word<'a> {
    Keyword(Keyword),
    Null,
    True,
    False,
    Ident(IdentLike<'a>),
}

/// A word, without the text of a name.
#[derive(Clone, Copy, Debug, PartialEq, Eq, Hash)]
pub enum WordKind {
    Keyword(Keyword),
    Null,
    True,
    False,
    Ident(IdentKind),
}

impl<'a> Word<'a> {
    ghost use Rattle.base_token.specs.WordViews.{word_view, word_kind_number};

    /// The word of a text with no escapes, which is borrowed.
    #[inline(always)]
    pub fn from_str(text: &'a str) -> Word<'a>
        ensures { word_view result ≡ word_of text.now }
    {
        match kind_of(text) {
            WordKind::Keyword(keyword) => Word::Keyword(keyword),
            WordKind::Null => Word::Null,
            WordKind::True => Word::True,
            WordKind::False => Word::False,
            WordKind::Ident(IdentKind::Known(known)) => Word::Ident(IdentLike::Known(known)),
            WordKind::Ident(IdentKind::Other) => {
                Word::Ident(IdentLike::Other(CowStr::Borrowed(text)))
            }
        }
    }

    /// The word without the text of a name.
    pub fn kind(&self) -> WordKind
        ensures { word_kind_number result ≡ (word_view self.now).kind }
    {
        match self {
            Word::Keyword(keyword) => WordKind::Keyword(*keyword),
            Word::Null => WordKind::Null,
            Word::True => WordKind::True,
            Word::False => WordKind::False,
            Word::Ident(IdentLike::Known(known)) => WordKind::Ident(IdentKind::Known(*known)),
            Word::Ident(IdentLike::Other(_)) => WordKind::Ident(IdentKind::Other),
        }
    }
}

impl AsStr for Word<'_> {
    ghost use Rattle.base_token.specs.WordViews.{word_view};

    ghost text = { λ word. (word_view word).text };

    #[inline]
    #[tactic(auto, unfolding(crate::specs::Words::own_text))]
    fn as_str(&self) -> &str {
        match self {
            Word::Keyword(keyword) => keyword.as_str(),
            Word::Null => "null",
            Word::True => "true",
            Word::False => "false",
            Word::Ident(name) => name.as_str(),
        }
    }
}

impl From<Keyword> for Word<'_> {
    ghost use Rattle.base_token.specs.WordKinds.{keyword_kind};
    ghost use Rattle.base_token.specs.WordViews.{word_view};

    ghost from_gives = { λ keyword word. word_view word ≡ own_word (keyword_kind keyword) };

    fn from(keyword: Keyword) -> Self {
        Word::Keyword(keyword)
    }
}

impl From<Keyword> for WordKind {
    ghost use Rattle.base_token.specs.WordKinds.{keyword_kind};
    ghost use Rattle.base_token.specs.WordViews.{word_kind_number};

    ghost from_gives = { λ keyword kind. word_kind_number kind ≡ keyword_kind keyword };

    fn from(keyword: Keyword) -> WordKind {
        WordKind::Keyword(keyword)
    }
}

ghost use Rattle.base_token.specs.WordViews.{word_view};

/// Law: the word of a word's text is that word. A plain name that holds the text of another word,
/// which no text gives, is the exception.
#[tactic(auto, using(crate::proofs::WordLemmas::word_again))]
pub fn word_text_law(word: &Word<'_>)
    ensures { IsOwnName (word_view word.now) → word_of (word_view word.now).text ≡ word_view word.now }
{}
