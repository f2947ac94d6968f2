//! The table of the words that have a kind of their own. Each stands at a place of its own.
ghost use Rattle.std.specs.Prelude.{◌≡◌, MatchOption};
ghost use Rattle.base_token.specs.Kinds.{name_kind};
ghost use Rattle.base_token.specs.WordTable.{kind_at, place_of, text_at};
ghost use Rattle.base_token.specs.Words.{kind_of, own_words};
ghost use Rattle.base_token.specs.WordViews.{word_kind_number};

use crate::word::{IdentKind, Keyword, KnownIdent, WordKind};

/// The length of the longest of these words.
const LONGEST: usize = 10;

/// The place of a text in the table, by its first two bytes and its length, or nothing where it is longer or shorter
/// than any word there.
#[inline(always)]
fn place_of(text: &str) -> Option<usize>
    ensures { MatchOption result (kind_of text.now ≡ name_kind) (λ place. place ≡ place_of text.now) }
{
    let [first, second, ..] = text.as_bytes() else {
        return None;
    };
    let len = text.len();
    if len > LONGEST {
        return None;
    }
    Some((2 * *first as usize + 42 * *second as usize + len) % 256)
}

/// The text of the word at a place of the table.
#[inline(always)]
fn text_at(place: usize) -> &'static str
    ensures { result.now ≡ text_at own_words place }
{
    match place {
        0 => "do",
        1 => "const",
        3 => "while",
        4 => "continue",
        5 => "for",
        6 => "function",
        8 => "accessor",
        13 => "finally",
        18 => "null",
        24 => "public",
        29 => "super",
        38 => "void",
        44 => "with",
        49 => "yield",
        77 => "await",
        96 => "delete",
        97 => "default",
        98 => "debugger",
        99 => "get",
        109 => "let",
        112 => "meta",
        113 => "new",
        114 => "switch",
        123 => "set",
        124 => "return",
        125 => "break",
        128 => "export",
        129 => "extends",
        131 => "class",
        132 => "from",
        134 => "else",
        144 => "if",
        155 => "private",
        156 => "of",
        157 => "protected",
        159 => "try",
        160 => "true",
        162 => "as",
        165 => "async",
        166 => "assert",
        180 => "case",
        181 => "catch",
        186 => "import",
        187 => "false",
        190 => "implements",
        200 => "typeof",
        205 => "using",
        209 => "package",
        216 => "target",
        217 => "var",
        218 => "enum",
        224 => "in",
        231 => "interface",
        232 => "instanceof",
        244 => "static",
        252 => "this",
        253 => "throw",
        255 => "undefined",
        _ => "",
    }
}

/// The kind of the word at a place of the table.
#[inline(always)]
fn kind_at(place: usize) -> WordKind
    ensures { word_kind_number result ≡ kind_at own_words place }
{
    match place {
        0 => WordKind::Keyword(Keyword::Do),
        1 => WordKind::Keyword(Keyword::Const),
        3 => WordKind::Keyword(Keyword::While),
        4 => WordKind::Keyword(Keyword::Continue),
        5 => WordKind::Keyword(Keyword::For),
        6 => WordKind::Keyword(Keyword::Function),
        8 => WordKind::Ident(IdentKind::Known(KnownIdent::Accessor)),
        13 => WordKind::Keyword(Keyword::Finally),
        18 => WordKind::Null,
        24 => WordKind::Ident(IdentKind::Known(KnownIdent::Public)),
        29 => WordKind::Keyword(Keyword::Super),
        38 => WordKind::Keyword(Keyword::Void),
        44 => WordKind::Keyword(Keyword::With),
        49 => WordKind::Keyword(Keyword::Yield),
        77 => WordKind::Keyword(Keyword::Await),
        96 => WordKind::Keyword(Keyword::Delete),
        97 => WordKind::Keyword(Keyword::Default_),
        98 => WordKind::Keyword(Keyword::Debugger),
        99 => WordKind::Ident(IdentKind::Known(KnownIdent::Get)),
        109 => WordKind::Keyword(Keyword::Let),
        112 => WordKind::Ident(IdentKind::Known(KnownIdent::Meta)),
        113 => WordKind::Keyword(Keyword::New),
        114 => WordKind::Keyword(Keyword::Switch),
        123 => WordKind::Ident(IdentKind::Known(KnownIdent::Set)),
        124 => WordKind::Keyword(Keyword::Return),
        125 => WordKind::Keyword(Keyword::Break),
        128 => WordKind::Keyword(Keyword::Export),
        129 => WordKind::Keyword(Keyword::Extends),
        131 => WordKind::Keyword(Keyword::Class),
        132 => WordKind::Ident(IdentKind::Known(KnownIdent::From)),
        134 => WordKind::Keyword(Keyword::Else),
        144 => WordKind::Keyword(Keyword::If),
        155 => WordKind::Ident(IdentKind::Known(KnownIdent::Private)),
        156 => WordKind::Ident(IdentKind::Known(KnownIdent::Of)),
        157 => WordKind::Ident(IdentKind::Known(KnownIdent::Protected)),
        159 => WordKind::Keyword(Keyword::Try),
        160 => WordKind::True,
        162 => WordKind::Ident(IdentKind::Known(KnownIdent::As)),
        165 => WordKind::Ident(IdentKind::Known(KnownIdent::Async)),
        166 => WordKind::Ident(IdentKind::Known(KnownIdent::Assert)),
        180 => WordKind::Keyword(Keyword::Case),
        181 => WordKind::Keyword(Keyword::Catch),
        186 => WordKind::Keyword(Keyword::Import),
        187 => WordKind::False,
        190 => WordKind::Ident(IdentKind::Known(KnownIdent::Implements)),
        200 => WordKind::Keyword(Keyword::TypeOf),
        205 => WordKind::Ident(IdentKind::Known(KnownIdent::Using)),
        209 => WordKind::Ident(IdentKind::Known(KnownIdent::Package)),
        216 => WordKind::Ident(IdentKind::Known(KnownIdent::Target)),
        217 => WordKind::Keyword(Keyword::Var),
        218 => WordKind::Ident(IdentKind::Known(KnownIdent::Enum)),
        224 => WordKind::Keyword(Keyword::In),
        231 => WordKind::Ident(IdentKind::Known(KnownIdent::Interface)),
        232 => WordKind::Keyword(Keyword::InstanceOf),
        244 => WordKind::Ident(IdentKind::Known(KnownIdent::Static)),
        252 => WordKind::Keyword(Keyword::This),
        253 => WordKind::Keyword(Keyword::Throw),
        255 => WordKind::Ident(IdentKind::Known(KnownIdent::Undefined)),
        _ => WordKind::Ident(IdentKind::Other),
    }
}

/// The kind of a text with no escapes.
#[inline(always)]
pub(crate) fn kind_of(text: &str) -> WordKind
    ensures { word_kind_number result ≡ kind_of text.now }
{
    match place_of(text) {
        Some(place) if text_at(place) == text => kind_at(place),
        _ => WordKind::Ident(IdentKind::Other),
    }
}
