//! What every layer speaks of: places in a text, texts that own what they hold, the settings of a read, faults, and readers
//! and writers that count their failures.
#![tactic(auto)]

pub mod context;
pub mod counted;
pub mod error;
pub mod literal;
pub mod operator;
pub mod place;
pub mod syntax;
pub mod text;
pub mod token;
pub mod utf16;
pub mod version;
pub mod word;
mod word_table;

pub use base_number as number;
pub use base_number::NumValue;
pub use context::Context;
pub use counted::{Counted, CountedRead, CountedWrite, Failing};
pub use error::{Error, SyntaxError};
pub use literal::Units;
pub use operator::{AssignOp, BinOpToken, BinaryOp};
pub use place::{BytePos, DUMMY_SP, LineCol, Span, Spanned};
pub use syntax::{EsConfig, EsSyntax, Syntax};
pub use text::{Atom, StrValue};
pub use token::{Token, TokenAndSpan, TokenKind};
pub use version::{EsVersion, JscTarget};
pub use word::{IdentKind, IdentLike, Keyword, KnownIdent, UnknownWord, Word, WordKind};
