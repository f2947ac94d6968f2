//! The fixed texts of the language.
ghost use Rattle.std.specs.Prelude.{◌≡◌};
ghost use Rattle.print_pieces.specs.Texts.{bytes};

/// A fixed text.
#[derive(Clone, Copy, Debug, PartialEq, Eq)]
pub enum Text {
    /// `(`
    LeftParen,
    /// `)`
    RightParen,
    /// `[`
    LeftBracket,
    /// `]`
    RightBracket,
    /// `{`
    LeftBrace,
    /// `,`
    Comma,
    /// `;`
    Semicolon,
    /// `:`
    Colon,
    /// `.`
    Dot,
    /// `=`
    Equals,
    /// `?`
    Question,
    /// `?.`
    OptionalDot,
    /// `=>`
    Arrow,
    /// `...`
    Spread,
    /// A back quote.
    BackQuote,
    /// `${`
    Interpolation,
    /// `#`
    Hash,
    /// `#!`
    Hashbang,
    /// `@`
    At,
    /// `/`
    Slash,
    /// `*`
    Star,
    /// `accessor`
    Accessor,
    /// `as`
    As,
    /// `assert`
    Assert,
    /// `async`
    Async,
    /// `await`
    Await,
    /// `break`
    Break,
    /// `case`
    Case,
    /// `catch`
    Catch,
    /// `class`
    Class,
    /// `constructor`
    Constructor,
    /// `continue`
    Continue,
    /// `debugger`
    Debugger,
    /// `default`
    Default,
    /// `do`
    Do,
    /// `else`
    Else,
    /// `export`
    Export,
    /// `extends`
    Extends,
    /// `false`
    False,
    /// `finally`
    Finally,
    /// `for`
    For,
    /// `from`
    From,
    /// `function`
    Function,
    /// `get`
    Get,
    /// `if`
    If,
    /// `import`
    Import,
    /// `in`
    In,
    /// `new`
    New,
    /// `null`
    Null,
    /// `of`
    Of,
    /// `return`
    Return,
    /// `set`
    Set,
    /// `static`
    Static,
    /// `super`
    Super,
    /// `switch`
    Switch,
    /// `this`
    This,
    /// `throw`
    Throw,
    /// `true`
    True,
    /// `try`
    Try,
    /// `using`
    Using,
    /// `while`
    While,
    /// `with`
    With,
    /// `yield`
    Yield,
    /// `import.meta`
    ImportMeta,
    /// `new.target`
    NewTarget,
}

impl Text {
    /// Its letters.
    pub fn as_str(self) -> &'static str
        ensures { result.now ≡ bytes self }
    {
        match self {
            Text::LeftParen => "(",
            Text::RightParen => ")",
            Text::LeftBracket => "[",
            Text::RightBracket => "]",
            Text::LeftBrace => "{",
            Text::Comma => ",",
            Text::Semicolon => ";",
            Text::Colon => ":",
            Text::Dot => ".",
            Text::Equals => "=",
            Text::Question => "?",
            Text::OptionalDot => "?.",
            Text::Arrow => "=>",
            Text::Spread => "...",
            Text::BackQuote => "`",
            Text::Interpolation => "${",
            Text::Hash => "#",
            Text::Hashbang => "#!",
            Text::At => "@",
            Text::Slash => "/",
            Text::Star => "*",
            Text::Accessor => "accessor",
            Text::As => "as",
            Text::Assert => "assert",
            Text::Async => "async",
            Text::Await => "await",
            Text::Break => "break",
            Text::Case => "case",
            Text::Catch => "catch",
            Text::Class => "class",
            Text::Constructor => "constructor",
            Text::Continue => "continue",
            Text::Debugger => "debugger",
            Text::Default => "default",
            Text::Do => "do",
            Text::Else => "else",
            Text::Export => "export",
            Text::Extends => "extends",
            Text::False => "false",
            Text::Finally => "finally",
            Text::For => "for",
            Text::From => "from",
            Text::Function => "function",
            Text::Get => "get",
            Text::If => "if",
            Text::Import => "import",
            Text::In => "in",
            Text::New => "new",
            Text::Null => "null",
            Text::Of => "of",
            Text::Return => "return",
            Text::Set => "set",
            Text::Static => "static",
            Text::Super => "super",
            Text::Switch => "switch",
            Text::This => "this",
            Text::Throw => "throw",
            Text::True => "true",
            Text::Try => "try",
            Text::Using => "using",
            Text::While => "while",
            Text::With => "with",
            Text::Yield => "yield",
            Text::ImportMeta => "import.meta",
            Text::NewTarget => "new.target",
        }
    }
}
