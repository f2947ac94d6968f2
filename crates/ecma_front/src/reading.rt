//! Reading a text as a program.
ghost use Rattle.std.specs.Prelude.{◌≡◌, ◌↔◌, ◌≤◌, ◌<◌, true, false, drop, length, IfErr, IsErrOf, IsUtf8};
ghost use Rattle.std.specs.Str.{chars};
ghost use Rattle.parse_laws.specs.Bounds.{characters_left};
ghost use Rattle.run_command.specs.Options.{are_refused, is_module};
ghost use Rattle.ecma_front.specs.Faults.{is_text_fault};
ghost use Rattle.ecma_front.specs.Formats.{Reads, longest_text};
ghost use Rattle.ecma_front.specs.Programs.{place_before, stops_at};
ghost use Rattle.ecma_front.specs.Steps.{Judges, ReadsBytes, fault_in};

use crate::fault::Fault;
use crate::input::LONGEST_TEXT;
use base_token::{BytePos, Error, Span};
use ecma_parser::{Failure, Lexer, Parser};
use print_writers::lines::pop;
use run_command::{Goal, Options};
use std::alloc::Global;
use tree_nodes::{Program, ProgramKind};

/// The deepest nesting that may be asked for.
const DEEPEST: u32 = Options::DEEPEST;

/// How many characters are left where so many tokens may come: behind the token at hand, or from it on where it is a slash.
fn characters_left(tokens: u64) -> u64
    ensures { result ≡ characters_left tokens }
{
    // One more than four for each character is told at the end behind a slash, and at a fault of the lexer.
    if tokens % 4 == 1 {
        return 0;
    }
    tokens.saturating_sub(1) / 4
}

/// How many characters a text has.
fn count(text: &str) -> u64
    ensures { result ≡ length (chars text.now) }
{
    text.chars().count() as u64
}

/// A text behind so many of its characters.
fn behind(text: &str, characters: u64) -> &str
    ensures rest { chars result.now ≡ drop characters (chars text.now) }
    ensures text { IsUtf8 result.now }
    ensures within { length result.now ≤ length text.now }
{
    let mut rest = text;
    let mut left = characters;
    'text: while let Some((_, after)) = pop(rest) {
        if left == 0 {
            break;
        }
        left -= 1;
        rest = after;
    }
    rest
}

/// The place in a text before its last characters, so many of them.
fn place_before(characters: u64, text: &str) -> u32
    requires fits { length text.now ≤ LONGEST_TEXT }
    ensures { result ≡ place_before characters (chars text.now) }
{
    let rest = behind(text, count(text).saturating_sub(characters));
    1 + (text.len() - rest.len()) as u32
}

/// What a failure of the parser is told as, where so many tokens of a text may come. It begins before the
/// characters that are left by that number.
fn told(failure: Failure, tokens: u64, text: &str) -> Fault
    requires fits { length text.now ≤ LONGEST_TEXT }
    ensures { result ≡ fault_in (stops_at tokens (chars text.now)) failure }
{
    match failure {
        Failure::Memory => Fault::Memory,
        Failure::TooDeep => Fault::TooDeep,
        Failure::Syntax(error) => {
            let latest = place_before(characters_left(tokens), text);
            Fault::Syntax(Error {
                span: Span {
                    lo: BytePos(error.span.lo.0.min(latest)),
                    hi: error.span.hi,
                },
                kind: error.kind,
            })
        }
    }
}

/// What was parsed of a text, where no fault was recorded; else the first of them.
fn judged<T: Drop>(
    parsed: Result<T, Failure>,
    recorded: &[Error],
    tokens: u64,
    text: &str,
) -> Result<T, Fault>
    requires fits { length text.now ≤ LONGEST_TEXT }
    ensures { Judges (stops_at tokens (chars text.now)) parsed recorded.now result }
{
    match parsed {
        Err(failure) => Err(told(failure, tokens, text)),
        Ok(node) => match recorded.first() {
            Some(error) => Err(Fault::Syntax(*error)),
            None => Ok(node),
        },
    }
}

/// The script that a text is.
fn script(alloc: Global, text: &str, options: Options) -> Result<Program, Fault>
    requires fits { length text.now ≤ LONGEST_TEXT }
    requires limit { options.nesting ≤ DEEPEST }
    requires goal { is_module options.goal ≡ false }
    ensures { Reads options (chars text.now) result }
{
    let mut parser: Parser<'_, Lexer<'_>> = Parser::new(alloc, options.syntax, text);
    parser.set_nesting(options.nesting);
    let parsed = parser.read_script();
    let left = parser.may_come();
    let recorded = parser.take_errors();
    match judged(parsed, recorded.as_slice(), left, text) {
        Ok(script) => Ok(Program {
            kind: ProgramKind::Script(script),
        }),
        Err(fault) => Err(fault),
    }
}

/// The module that a text is.
fn module(alloc: Global, text: &str, options: Options) -> Result<Program, Fault>
    requires fits { length text.now ≤ LONGEST_TEXT }
    requires limit { options.nesting ≤ DEEPEST }
    requires goal { is_module options.goal ≡ true }
    ensures { Reads options (chars text.now) result }
{
    let mut parser: Parser<'_, Lexer<'_>> = Parser::new(alloc, options.syntax, text);
    parser.set_nesting(options.nesting);
    let parsed = parser.read_module();
    let left = parser.may_come();
    let recorded = parser.take_errors();
    match judged(parsed, recorded.as_slice(), left, text) {
        Ok(module) => Ok(Program {
            kind: ProgramKind::Module(module),
        }),
        Err(fault) => Err(fault),
    }
}

/// The program that a text is, as the chosen script or module.
pub(crate) fn program(alloc: Global, text: &str, options: Options) -> Result<Program, Fault>
    requires fits { length text.now ≤ LONGEST_TEXT }
    requires limit { options.nesting ≤ DEEPEST }
    ensures { Reads options (chars text.now) result }
{
    match options.goal {
        Goal::Script => script(alloc, text, options),
        Goal::Module => module(alloc, text, options),
    }
}

/// The program that bytes are.
///
/// # Errors
///
/// `NotUtf8`, `Syntax` and `TooDeep` where they spell none within the limit of nesting; `Memory`.
pub(crate) fn program_in(alloc: Global, bytes: &[u8], options: Options) -> Result<Program, Fault>
    requires fits { length bytes.now ≤ LONGEST_TEXT }
    requires settings { are_refused options ≡ false }
    ensures answer { ReadsBytes options bytes.now result }
    ensures kinds { IfErr result (λ fault. is_text_fault fault ≡ true) }
{
    let text = match std::str::from_utf8(bytes) {
        Ok(text) => text,
        Err(error) => {
            return Err(Fault::NotUtf8 {
                valid_up_to: error.valid_up_to(),
            });
        }
    };
    program(alloc, text, options)
}

/// The program that a text is, as the chosen script or module. Of the settings it reads the goal, the syntax and the
/// nesting.
///
/// # Errors
///
/// `Options` where the settings are refused, which is judged first; `TooLong` for more than 4,294,967,294 bytes; `Syntax`
/// where the text is no program, with its first early error where that alone is wrong; `TooDeep` where it nests too deeply;
/// `Memory`.
pub fn read(alloc: Global, text: &str, options: Options) -> Result<Program, Fault>
    ensures settings { IsErrOf result Fault.Options ↔ (are_refused options ≡ true) }
    ensures long { IsErrOf result Fault.TooLong ↔ ((are_refused options ≡ false) × (longest_text < length text.now)) }
    ensures answer { are_refused options ≡ false → length text.now ≤ longest_text → Reads options (chars text.now) result }
{
    if options.are_refused() {
        return Err(Fault::Options);
    }
    if text.len() > LONGEST_TEXT {
        return Err(Fault::TooLong);
    }
    program(alloc, text, options)
}
