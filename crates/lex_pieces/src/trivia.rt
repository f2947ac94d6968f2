//! Trivia at the front of a text: white space, line terminators and comments.
ghost use Rattle.std.specs.Prelude.{◌≡◌, ◌==◌, ◌||◌, ◌&&◌, false, ◌<◌, ◌≤◌, length, option_map, IfOk, IfSome, IsUtf8, MatchOption, MatchResult};
ghost use Rattle.std.specs.Str.{chars};
ghost use Rattle.lex_pieces.specs.ReadingTrivia as reading;
ghost use Rattle.lex_pieces.specs.ReadingTrivia.{Agrees, Found, view};
ghost use Rattle.lex_pieces.specs.Trivia.{IsBlank, IsFault, IsFaultAfter, IsHashbang, IsPassed, IsPiece, IsSkipped, NoHashbang, NoPiece, NoTrivia, breaks};
ghost use Rattle.lex_pieces.specs.declared.trivia.Goal.{Goal};

use crate::bytes::{ByteClass, byte_class};
use crate::characters::{CharExt, first_byte, past_ascii, pop};
use crate::place::fault;
use crate::runs::{after_white_space, split_block, split_line, split_white_space, strip};
use base_token::{Error, SyntaxError};

/// The goal symbol under which a text is read (ECMA-262, clause 16).
#[derive(Clone, Copy, Debug, PartialEq, Eq)]
pub enum Goal {
    Script,
    Module,
}

/// What opens a comment of one line (ECMA-262, 12.4 and B.1.1).
#[derive(Clone, Copy, Debug, PartialEq, Eq)]
pub enum LineMark {
    /// `//`
    Slashes,
    /// `<!--`
    HtmlOpen,
    /// `-->`
    HtmlClose,
}

/// A piece of trivia, with the text of a comment between its marks.
#[derive(Clone, Copy, Debug, PartialEq, Eq)]
pub enum Trivia<'a> {
    /// White space as far as it goes (ECMA-262, 12.2).
    WhiteSpace,
    /// One line break (ECMA-262, 12.3).
    LineTerminator,
    /// A comment up to the end of its line (ECMA-262, 12.4).
    LineComment(LineMark, &'a str),
    /// A comment between `/*` and `*/` (ECMA-262, 12.4).
    BlockComment(&'a str),
}

impl Trivia<'_> {
    /// Whether it breaks the line. A block comment that holds a line terminator does.
    pub fn breaks_line(self) -> bool
        ensures { result ≡ breaks (view self.entry) }
    {
        match self {
            Trivia::LineTerminator => true,
            Trivia::BlockComment(text) => {
                let (_, rest) = split_line(text);
                !rest.is_empty()
            }
            Trivia::WhiteSpace | Trivia::LineComment(_, _) => false,
        }
    }
}

/// A piece and the text after it, or nothing.
type Piece<'a> = Result<Option<(Trivia<'a>, &'a str)>, Error>;

/// A comment of one line, after its mark.
fn line<'a>(mark: LineMark, text: &'a str) -> (Trivia<'a>, &'a str)
    ensures piece { Found (view result.0) (chars result.1.now) ≡ reading.line mark (chars text.now) }
    ensures rest { IsUtf8 result.1.now × (length result.1.now ≤ length text.now) }
{
    let (own, rest) = split_line(text);
    (Trivia::LineComment(mark, own), rest)
}

/// A block comment. `inner` follows its mark.
fn block<'a>(end: u32, text: &str, inner: &'a str) -> Piece<'a>
    requires { length text.now < end }
    ensures piece { Agrees end (chars text.now) (reading.block (chars inner.now)) result }
    ensures rest { IfOk result (λ o. IfSome o (λ x. IsUtf8 x.1.now × (length x.1.now ≤ length inner.now))) }
{
    match split_block(inner) {
        Some((own, rest)) => Ok(Some((Trivia::BlockComment(own), rest))),
        None => Err(fault(end, text, "", SyntaxError::UnterminatedBlockComment)),
    }
}

/// A comment that begins with a slash. `rest` follows the slash.
fn slash<'a>(end: u32, text: &str, rest: &'a str) -> Piece<'a>
    requires { length text.now < end }
    ensures piece { Agrees end (chars text.now) (reading.after_slash (chars rest.now)) result }
    ensures rest { IfOk result (λ o. IfSome o (λ x. IsUtf8 x.1.now × (length x.1.now ≤ length rest.now))) }
{
    match pop(rest) {
        Some(('/', inner)) => Ok(Some(line(LineMark::Slashes, inner))),
        Some(('*', inner)) => block(end, text, inner),
        _ => Ok(None),
    }
}

/// What follows the rest of `<!--`.
fn past_html_open(text: &str) -> Option<&str>
    ensures value { option_map (λ r. chars r.now) result ≡ reading.past_html_open (chars text.now) }
    ensures rest { IfSome result (λ x. IsUtf8 x.now × (length x.now ≤ length text.now)) }
{
    let text = strip(text, '!')?;
    let text = strip(text, '-')?;
    strip(text, '-')
}

/// What follows the rest of `-->`.
fn past_html_close(text: &str) -> Option<&str>
    ensures value { option_map (λ r. chars r.now) result ≡ reading.past_html_close (chars text.now) }
    ensures rest { IfSome result (λ x. IsUtf8 x.now × (length x.now ≤ length text.now)) }
{
    let text = strip(text, '-')?;
    strip(text, '>')
}

/// A comment of the HTML form, where `inner` follows its mark.
fn html<'a>(end: u32, goal: Goal, mark: LineMark, text: &str, inner: Option<&'a str>) -> Piece<'a>
    requires within { length text.now < end }
    requires order { IfSome inner (λ x. IsUtf8 x.now × (length x.now ≤ length text.now)) }
    ensures piece { Agrees end (chars text.now) (reading.html goal mark (option_map (λ r. chars r.now) inner.entry)) result }
    ensures rest { IfOk result (λ o. IfSome o (λ x. IsUtf8 x.1.now × IfSome inner.entry (λ y. length x.1.now ≤ length y.now))) }
{
    let Some(inner) = inner else {
        return Ok(None);
    };
    match goal {
        Goal::Script => Ok(Some(line(mark, inner))),
        Goal::Module => Err(fault(end, text, inner, SyntaxError::LegacyCommentInModule)),
    }
}

/// What follows a line break that begins with this line terminator.
fn after_break(first: char, text: &str) -> &str
    ensures value { chars result.now ≡ reading.after_break first (chars text.now) }
    ensures shorter { length result.now ≤ length text.now }
{
    match pop(text) {
        Some(('\n', rest)) if first == '\r' => rest,
        _ => text,
    }
}

/// A comment that begins with this byte, if one does. `rest` follows the byte.
fn mark<'a>(end: u32, goal: Goal, first: bool, byte: u8, text: &str, rest: &'a str) -> Piece<'a>
    requires within { length text.now < end }
    requires order { length rest.now < length text.now }
    ensures piece { Agrees end (chars text.now) (reading.mark goal first byte (chars rest.now)) result }
    ensures rest { IfOk result (λ o. IfSome o (λ x. IsUtf8 x.1.now × (length x.1.now ≤ length rest.now))) }
{
    match byte {
        b'/' => slash(end, text, rest),
        b'<' => html(end, goal, LineMark::HtmlOpen, text, past_html_open(rest)),
        b'-' if first => html(end, goal, LineMark::HtmlClose, text, past_html_close(rest)),
        _ => Ok(None),
    }
}

/// The white space or the line terminator at the front of a text, which begins past ASCII.
fn wide(text: &str) -> Option<(Trivia<'_>, &str)>
    ensures piece { MatchOption result (reading.wide (chars text.now) ≡ reading.Nothing)
        (λ x. reading.wide (chars text.now) ≡ Found (view x.0) (chars x.1.now)) }
    ensures rest { IfSome result (λ x. IsUtf8 x.1.now × (length x.1.now < length text.now)) }
{
    let (c, rest) = pop(text)?;
    if c.is_ws() {
        let (_, rest) = split_white_space(rest);
        Some((Trivia::WhiteSpace, rest))
    } else if c.is_line_terminator() {
        Some((Trivia::LineTerminator, rest))
    } else {
        None
    }
}

/// The reading of the front of a text. The class of its first byte tells whether there is any.
fn read<'a>(end: u32, goal: Goal, first: bool, text: &'a str) -> Piece<'a>
    requires { length text.now < end }
    ensures piece { Agrees end (chars text.now) (reading.read goal first (chars text.now)) result }
    ensures rest { IfOk result (λ o. IfSome o (λ x. IsUtf8 x.1.now × (length x.1.now < length text.now))) }
{
    let Some(byte) = first_byte(text) else {
        return Ok(None);
    };
    match byte_class(byte) {
        ByteClass::WhiteSpace => {
            let (_, rest) = split_white_space(past_ascii(text));
            Ok(Some((Trivia::WhiteSpace, rest)))
        }
        ByteClass::LineTerminator => {
            let rest = after_break(byte as char, past_ascii(text));
            Ok(Some((Trivia::LineTerminator, rest)))
        }
        ByteClass::Punctuator => mark(end, goal, first, byte, text, past_ascii(text)),
        ByteClass::NonAscii => Ok(wide(text)),
        _ => Ok(None),
    }
}

/// The piece of trivia at the front of a text, and what follows it, or nothing where none stands
/// there. The text runs to the place `end`. `first` says that only trivia stands before it since the
/// last line break or the start of the whole text.
///
/// An open block comment is a fault with its whole span, and so is a comment of the HTML form in a
/// module, with the span of its mark.
pub fn trivia_piece<'a>(
    end: u32,
    goal: Goal,
    first: bool,
    text: &'a str,
) -> Result<Option<(Trivia<'a>, &'a str)>, Error>
    requires { length text.now < end }
    ensures piece { MatchResult result
        (λ o. MatchOption o (NoTrivia goal first (chars text.now))
        (λ x. IsPiece goal first (chars text.now) (view x.0) (chars x.1.now)))
        (λ e. NoPiece goal first (chars text.now) × IsFault end goal first (chars text.now) e) }
    ensures rest { IfOk result (λ o. IfSome o (λ x. IsUtf8 x.1.now × (length x.1.now < length text.now))) }
{
    read(end, goal, first, text)
}

/// The white space or the one line break at the front of a text that begins with a character of ASCII:
/// whether it breaks the line, and what follows it.
#[inline(always)]
fn blank(text: &str) -> Option<(bool, &str)>
    ensures blank { IfSome result (λ x. IsBlank (chars text.now) x.0 (chars x.1.now)) }
    ensures rest { IfSome result (λ x. IsUtf8 x.1.now × (length x.1.now < length text.now)) }
{
    let byte = first_byte(text)?;
    match byte_class(byte) {
        ByteClass::WhiteSpace => Some((false, after_white_space(past_ascii(text)))),
        ByteClass::LineTerminator => Some((true, after_break(byte as char, past_ascii(text)))),
        _ => None,
    }
}

/// Whether a comment may begin with the byte.
#[inline(always)]
fn may_open(first: bool, byte: u8) -> bool
    ensures { result ≡ (byte == 47 || (byte == 60 || (byte == 45 && first))) }
{
    byte == b'/' || byte == b'<' || (byte == b'-' && first)
}

/// Whether trivia may stand at the front of a text, as far as the class of its first byte tells.
#[inline(always)]
fn may_begin(first: bool, text: &str) -> bool
    ensures { result ≡ false → (goal : Goal) → NoTrivia goal first (chars text.now) }
{
    let Some(byte) = first_byte(text) else {
        return false;
    };
    match byte_class(byte) {
        ByteClass::WhiteSpace | ByteClass::LineTerminator | ByteClass::NonAscii => true,
        ByteClass::Punctuator => may_open(first, byte),
        _ => false,
    }
}

/// Passes the blank or the comment at the front of a text: whether it breaks the line, and what follows it, or nothing
/// where none stands there. `first` and the faults are those of `trivia_piece`.
fn pass_piece<'a>(
    end: u32,
    goal: Goal,
    first: bool,
    text: &'a str,
) -> Result<Option<(bool, &'a str)>, Error>
    requires { length text.now < end }
    ensures piece { MatchResult result
        (λ o. MatchOption o (NoTrivia goal first (chars text.now))
        (λ x. IsPassed goal first (chars text.now) x.0 (chars x.1.now)))
        (λ e. NoPiece goal first (chars text.now) × IsFault end goal first (chars text.now) e) }
    ensures rest { IfOk result (λ o. IfSome o (λ x. IsUtf8 x.1.now × (length x.1.now < length text.now))) }
{
    if let Some((line_break, rest)) = blank(text) {
        return Ok(Some((line_break, rest)));
    }
    match trivia_piece(end, goal, first, text)? {
        Some((piece, rest)) => Ok(Some((piece.breaks_line(), rest))),
        None => Ok(None),
    }
}

/// Passes all trivia at the front of a text, a piece at a time, as `skip_trivia` does.
#[inline(never)]
fn skip_pieces<'a>(
    end: u32,
    goal: Goal,
    first: bool,
    text: &'a str,
) -> Result<(bool, &'a str), Error>
    requires { length text.now < end }
    ensures trivia { MatchResult result
        (λ x. IsSkipped goal first (chars text.now) x.0 (chars x.1.now))
        (λ e. IsFaultAfter end goal first (chars text.now) e) }
    ensures rest { IfOk result (λ x. IsUtf8 x.1.now × (length x.1.now ≤ length text.now)) }
{
    let mut rest = text;
    let mut broke = false;
    while let Some((breaks, more)) = pass_piece(end, goal, first | broke, rest)? {
        broke |= breaks;
        rest = more;
    }
    Ok((broke, rest))
}

/// Passes all trivia at the front of a text, which runs to the place `end`. Answers whether it breaks
/// the line, and the text after it. `first` and the faults are those of `trivia_piece`.
#[inline(always)]
pub fn skip_trivia<'a>(
    end: u32,
    goal: Goal,
    first: bool,
    text: &'a str,
) -> Result<(bool, &'a str), Error>
    requires { length text.now < end }
    ensures trivia { MatchResult result
        (λ x. IsSkipped goal first (chars text.now) x.0 (chars x.1.now))
        (λ e. IsFaultAfter end goal first (chars text.now) e) }
    ensures rest { IfOk result (λ x. IsUtf8 x.1.now × (length x.1.now ≤ length text.now)) }
{
    let mut rest = text;
    let mut broke = false;
    while let Some((line_break, more)) = blank(rest) {
        broke |= line_break;
        rest = more;
    }
    if may_begin(first | broke, rest) {
        return skip_pieces(end, goal, first, text);
    }
    Ok((broke, rest))
}

/// The text of a hashbang up to the end of its line (ECMA-262, 12.5), and what follows it, or nothing
/// where the text does not begin with `#!`. Only the start of a whole text has one.
pub fn hashbang(text: &str) -> Option<(&str, &str)>
    ensures hashbang { MatchOption result (NoHashbang (chars text.now))
        (λ x. IsHashbang (chars text.now) (chars x.0.now) (chars x.1.now)) }
    ensures rest { IfSome result (λ x. IsUtf8 x.1.now × (length x.1.now < length text.now)) }
{
    let inner = strip(strip(text, '#')?, '!')?;
    Some(split_line(inner))
}
