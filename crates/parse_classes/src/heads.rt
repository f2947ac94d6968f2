//! What tells members apart: the words before a key, with the token behind them.
ghost use Rattle.std.specs.Prelude.{◌≡◌, ◌<◌, IfErr, IfOk};
ghost use Rattle.grammar_spec.specs.Tokens.Shape as shape;
ghost use Rattle.grammar_spec.specs.Reader.Statements as reads;
ghost use Rattle.parse_state.specs.Answers.{IsMemory};
ghost use Rattle.parse_state.specs.Codes.{code_of};
ghost use Rattle.parse_state.specs.Cursors.{stream_of};
ghost use Rattle.parse_state.specs.States.{state_of};
ghost use Rattle.parse_classes.specs.Members.{before_key, starts_accessor};

use parse_operands::Nested;
use parse_state::operators::{ACCESSOR_END, KEY_END, STATIC_END, starts_key};
use parse_state::{Around, Failure, Parser, Tokens, kinds};

/// The class of a field that has no value, by the kind of its key's first token.
pub fn field_end(is_static: bool, kind: u8) -> u8
    ensures { result ≡ shape.field_end is_static kind }
{
    if kind == kinds::GET || kind == kinds::SET {
        ACCESSOR_END
    } else if kind == kinds::STATIC && !is_static {
        STATIC_END
    } else {
        KEY_END
    }
}

/// Whether a word of this kind comes before a key, as `get` and `set` do.
///
/// # Errors
///
/// Want of memory.
pub fn is_before_key<'a, I: Tokens<'a> + Drop, N: Nested<'a, I>>(
    p: &Parser<'a, I>,
    _nested: &N,
    kind: u8,
) -> Result<bool, Failure>
    requires { 0 < kind }
    ensures value { IfOk result (λ b. b ≡ before_key (stream_of I.machine)
        (N.reads _nested.now I.State I.machine) kind (state_of I.state p.now)) }
    ensures full { IfErr result IsMemory }
{
    if !p.at(kind) {
        return Ok(false);
    }
    let (second, _) = p.second()?;
    Ok(starts_key(second))
}

/// Whether `accessor` comes before a key on its line, and such members are on.
///
/// # Errors
///
/// Want of memory.
pub fn is_auto_accessor<'a, I: Tokens<'a> + Drop, N: Nested<'a, I>>(
    p: &Parser<'a, I>,
    _nested: &N,
    code: Around,
) -> Result<bool, Failure>
    ensures value { IfOk result (λ b. b ≡ starts_accessor (stream_of I.machine)
        (N.reads _nested.now I.State I.machine) (code_of code) (state_of I.state p.now)) }
    ensures full { IfErr result IsMemory }
{
    if !code.syntax.auto_accessors || !p.at(kinds::ACCESSOR) {
        return Ok(false);
    }
    let (second, breaks) = p.second()?;
    Ok(starts_key(second) && !breaks)
}

/// Whether `static` comes as a modifier: before a key, a star or a brace.
///
/// # Errors
///
/// Want of memory.
pub fn is_static<'a, I: Tokens<'a> + Drop, N: Nested<'a, I>>(
    p: &Parser<'a, I>,
    _nested: &N,
) -> Result<bool, Failure>
    ensures value { IfOk result (λ b. b ≡ reads.starts_static (stream_of I.machine)
        (N.reads _nested.now I.State I.machine) (state_of I.state p.now)) }
    ensures full { IfErr result IsMemory }
{
    if !p.at(kinds::STATIC) {
        return Ok(false);
    }
    let (second, _) = p.second()?;
    Ok(starts_key(second) || (second == kinds::MUL || second == kinds::LEFT_BRACE))
}
