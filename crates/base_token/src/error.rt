//! What is wrong with a text, and where.
ghost use Rattle.std.specs.Prelude.{◌≡◌, IsTrue, codes};
ghost use Rattle.base_token.specs.Messages.{is_line};

use crate::place::{Span, Spanned};
use thiserror::Error as FaultType;

/// A fault of a text: what it is, and the part of the text that it is about.
#[derive(Clone, Copy, Debug, PartialEq, Eq, FaultType)]
#[error("{}", .kind.msg())]
pub struct Error {
    pub span: Span,
    pub kind: SyntaxError,
}

impl Error {
    /// What the fault is.
    pub fn kind(&self) -> &SyntaxError
        ensures { result.now ≡ self.now.kind }
    {
        &self.kind
    }

    /// What the fault is, without its place.
    pub fn into_kind(self) -> SyntaxError
        ensures { result ≡ self.kind }
    {
        self.kind
    }
}

impl Spanned for Error {
    ghost span_of = { λ e. e.span };

    fn span(&self) -> Span {
        self.span
    }
}

/// The kinds of faults of a text.
#[derive(Clone, Copy, Debug, PartialEq, Eq)]
pub enum SyntaxError {
    /// The text ends where more is needed.
    Eof,
    /// A declaration where a statement alone may stand.
    DeclNotAllowed,
    /// A `using` declaration where none may stand.
    UsingDeclNotAllowed,
    /// A `using` declaration in a `for`-`in` head.
    UsingDeclNotAllowedForForInLoop,
    /// A `using` declaration while its flag is off.
    UsingDeclNotEnabled,
    /// A `using` declaration that binds something else than a name.
    InvalidNameInUsingDecl,
    /// A `using` declaration without a value.
    InitRequiredForUsingDecl,
    /// An import or an export in a script.
    ImportExportInScript,
    /// A private name of `super`.
    InvalidSuperPrivateName,
    /// `super` outside methods and class parts.
    InvalidSuper,
    /// A call of `super` outside the constructor of a derived class.
    InvalidSuperCall,
    /// `new.target` outside functions and class parts.
    InvalidNewTarget,
    /// `import` in an expression, neither called nor followed by `.meta`.
    InvalidImport,
    /// An arrow function where none may stand.
    ArrowNotAllowed,
    /// `export` where none may stand.
    ExportNotAllowed,
    /// A getter with parameters.
    GetterParam,
    /// A setter without exactly one parameter.
    SetterParam,
    /// A setter with no parameter.
    SetterParamRequired,
    /// A setter whose parameter takes the rest.
    RestPatInSetter,
    /// A second constructor of a class.
    DuplicateConstructor,
    /// A second `__proto__: v` of an object.
    DuplicateProto,
    /// `await` with an operand in a script, outside async functions.
    TopLevelAwaitInScript,
    /// `return` outside functions.
    ReturnNotAllowed,
    /// `break` with no label outside loops and `switch`.
    IllegalBreak,
    /// `continue` with no label outside loops.
    IllegalContinue,
    /// A jump to a label that does not enclose it.
    UndefinedLabel,
    /// A label inside a statement of the same label.
    DuplicateLabel,
    /// An update or an assignment of what is no target.
    NotSimpleAssign,
    /// `const` or a pattern without a value.
    InitRequired,
    /// A word that strict code reserves, as a name.
    InvalidIdentInStrict,
    /// `eval` or `arguments` bound, assigned or updated in strict code.
    EvalAndArgumentsInStrict,
    /// A `use strict` of its own in a function whose parameters are not all plain names.
    IllegalLanguageModeDirective,
    /// `with` in strict code.
    WithInStrict,
    /// An octal number or escape of the old form in strict code.
    LegacyOctal,
    /// A decimal number that starts with a zero, in strict code.
    LegacyDecimal,
    /// A character or an escape that no name has.
    InvalidIdentChar,
    /// A number with no digit where one is needed.
    ExpectedDigit,
    /// A number that ends where its exponent would stand.
    NumLitTerminatedWithExp,
    /// A `_` of a number that is not between two digits.
    NumericSeparatorIsAllowedOnlyBetweenTwoDigits,
    /// A name or a digit right after a number.
    IdentAfterNum,
    /// A block comment with no end.
    UnterminatedBlockComment,
    /// A string has no closing quote on its line.
    UnterminatedStrLit,
    /// A regular expression with no end on its line.
    UnterminatedRegExp,
    /// A template with no closing back quote.
    UnterminatedTpl,
    /// A backslash in a name that begins no Unicode escape.
    ExpectedUnicodeEscape,
    /// A reserved word spelled with an escape.
    EscapeInReservedWord,
    /// A character that begins no token.
    UnexpectedChar,
    /// An escape of a string that stands for nothing.
    InvalidStrEscape,
    /// A Unicode escape that stands for nothing.
    InvalidUnicodeEscape,
    /// An escape that stands for no character.
    BadCharacterEscapeSequence,
    /// A comment of the HTML form in a module.
    LegacyCommentInModule,
    /// Any other fault of grammar.
    Unexpected,
    /// Memory ran out.
    Memory,
    /// The text nests deeper than the limit allows.
    TooDeep,
}

impl SyntaxError {
    ghost use Rattle.base_token.specs.declared.error.SyntaxError.TheVariants.{ImportExportInScript};

    /// The fault in one line for a person, without its place.
    pub fn msg(&self) -> &'static str
        ensures one_line { IsTrue (is_line result.now) }
        ensures import_export { self.now ≡ ImportExportInScript → result.now ≡ codes "'import', and 'export' cannot be used outside of module code" }
    {
        match self {
            SyntaxError::Eof => "unexpected end of the text",
            SyntaxError::DeclNotAllowed => "a declaration may not stand here",
            SyntaxError::UsingDeclNotAllowed => "a 'using' declaration may not stand here",
            SyntaxError::UsingDeclNotAllowedForForInLoop => {
                "a 'using' declaration may not stand in a for-in head"
            }
            SyntaxError::UsingDeclNotEnabled => "'using' declarations are not enabled",
            SyntaxError::InvalidNameInUsingDecl => "a 'using' declaration binds plain names alone",
            SyntaxError::InitRequiredForUsingDecl => "a 'using' declaration needs an initial value",
            SyntaxError::ImportExportInScript => {
                "'import', and 'export' cannot be used outside of module code"
            }
            SyntaxError::InvalidSuperPrivateName => "'super' has no private names",
            SyntaxError::InvalidSuper => "'super' may not stand here",
            SyntaxError::InvalidSuperCall => "'super' may not be called here",
            SyntaxError::InvalidNewTarget => "'new.target' may not stand here",
            SyntaxError::InvalidImport => "'import' may not stand here",
            SyntaxError::ArrowNotAllowed => "an arrow function may not stand here",
            SyntaxError::ExportNotAllowed => "'export' may not stand here",
            SyntaxError::GetterParam => "a getter has no parameters",
            SyntaxError::SetterParam => "a setter has exactly one parameter",
            SyntaxError::SetterParamRequired => "a setter needs a parameter",
            SyntaxError::RestPatInSetter => "a setter's parameter may not be a rest parameter",
            SyntaxError::DuplicateConstructor => "a class has at most one constructor",
            SyntaxError::DuplicateProto => "an object literal sets '__proto__' at most once",
            SyntaxError::TopLevelAwaitInScript => {
                "'await' may stand at the top level of a module alone"
            }
            SyntaxError::ReturnNotAllowed => "'return' may stand in a function alone",
            SyntaxError::IllegalBreak => "'break' has nothing to leave",
            SyntaxError::IllegalContinue => "'continue' has no loop to go on with",
            SyntaxError::UndefinedLabel => "no such label encloses the jump",
            SyntaxError::DuplicateLabel => "the label is in use already",
            SyntaxError::NotSimpleAssign => "the target cannot be assigned to",
            SyntaxError::InitRequired => "the declaration needs an initial value",
            SyntaxError::InvalidIdentInStrict => "the word is reserved in strict code",
            SyntaxError::EvalAndArgumentsInStrict => {
                "'eval' and 'arguments' cannot be bound or assigned in strict code"
            }
            SyntaxError::IllegalLanguageModeDirective => {
                "'use strict' needs a function with plain parameters"
            }
            SyntaxError::WithInStrict => "'with' may not stand in strict code",
            SyntaxError::LegacyOctal => "legacy octal forms may not stand in strict code",
            SyntaxError::LegacyDecimal => {
                "a decimal number may not start with a zero in strict code"
            }
            SyntaxError::InvalidIdentChar => "the character may not stand in a name",
            SyntaxError::ExpectedDigit => "a digit is missing",
            SyntaxError::NumLitTerminatedWithExp => "the exponent of the number is missing",
            SyntaxError::NumericSeparatorIsAllowedOnlyBetweenTwoDigits => {
                "a numeric separator stands between two digits alone"
            }
            SyntaxError::IdentAfterNum => "a name or a digit may not follow a number directly",
            SyntaxError::UnterminatedBlockComment => "unterminated block comment",
            SyntaxError::UnterminatedStrLit => "unterminated string",
            SyntaxError::UnterminatedRegExp => "unterminated regular expression",
            SyntaxError::UnterminatedTpl => "unterminated template",
            SyntaxError::ExpectedUnicodeEscape => "a Unicode escape is missing",
            SyntaxError::EscapeInReservedWord => "a reserved word may not have an escape",
            SyntaxError::UnexpectedChar => "unexpected character",
            SyntaxError::InvalidStrEscape => "invalid escape in a string",
            SyntaxError::InvalidUnicodeEscape => "invalid Unicode escape",
            SyntaxError::BadCharacterEscapeSequence => "invalid character escape",
            SyntaxError::LegacyCommentInModule => {
                "comments of the HTML form may not stand in a module"
            }
            SyntaxError::Unexpected => "unexpected token",
            SyntaxError::Memory => "out of memory",
            SyntaxError::TooDeep => "nested too deeply",
        }
    }
}
