//! What starts a declaration: the tokens behind the first one tell.
ghost use Rattle.std.specs.Prelude.{◌≡◌, ◌<◌, ◌||◌, ◌&&◌, true, false, IfErr, IfOk};
ghost use Rattle.grammar_spec.specs.Tokens.Input.{brk2, kind};
ghost use Rattle.grammar_spec.specs.Reader.Source as spec;
ghost use Rattle.grammar_spec.specs.Reader.Statements as reads;
ghost use Rattle.parse_state.specs.Answers.{IsMemory};
ghost use Rattle.parse_state.specs.Codes.{code_of};
ghost use Rattle.parse_state.specs.Cursors.{stream_of};
ghost use Rattle.parse_state.specs.States.{state_of};
ghost use Rattle.parse_state.specs.Reads.{at_hand};

use parse_operands::Nested;
use parse_state::kind_numbers::token_number;
use parse_state::operators::may_name;
use parse_state::{Around, Failure, Look, Parser, Tokens, kinds};

/// The kind of the second token, and whether a line break stands before it.
///
/// # Errors
///
/// Want of memory.
#[tactic(auto, using(parse_state::proofs::Taking::behinds), unfolding(parse_state::specs::Cursors::stream_of))]
pub fn behind<'a, I: Tokens<'a> + Drop>(p: &Parser<'a, I>) -> Result<(u8, bool), Failure>
    ensures kind { IfOk result (λ x. x.0 ≡ kind
        (spec.input (stream_of I.machine)
        (spec.past (stream_of I.machine) (state_of I.state p.now)))) }
    ensures breaks { IfOk result (λ x. x.1 ≡ brk2 (at_hand I.machine I.state p.now)) }
    ensures full { IfErr result IsMemory }
{
    if p.ahead.is_none() {
        return Ok((kinds::END, false));
    }
    match p.input.look(Look::Next) {
        Ok(Some(token)) => Ok((token_number(&token.token), token.had_line_break)),
        Ok(None) => Ok((kinds::END, false)),
        Err(_) => Err(Failure::Memory),
    }
}

/// Whether `async` comes before `function` on its line.
///
/// # Errors
///
/// Want of memory.
pub fn starts_async<'a, I: Tokens<'a> + Drop, N: Nested<'a, I>>(
    p: &Parser<'a, I>,
    _nested: &N,
) -> Result<bool, Failure>
    ensures value { IfOk result (λ b. b ≡ reads.starts_async (stream_of I.machine)
        (N.reads _nested.now I.State I.machine) (state_of I.state p.now)) }
    ensures full { IfErr result IsMemory }
{
    if !p.at(kinds::ASYNC) {
        return Ok(false);
    }
    let (second, breaks) = p.second()?;
    Ok(second == kinds::FUNCTION && !breaks)
}

/// Whether `let` starts a declaration: before a name, `[` and `{`.
///
/// # Errors
///
/// Want of memory.
pub fn starts_let<'a, I: Tokens<'a> + Drop, N: Nested<'a, I>>(
    p: &Parser<'a, I>,
    _nested: &N,
) -> Result<bool, Failure>
    ensures value { IfOk result (λ b. b ≡ reads.starts_let (stream_of I.machine)
        (N.reads _nested.now I.State I.machine) (state_of I.state p.now)) }
    ensures full { IfErr result IsMemory }
{
    if !p.at(kinds::LET) {
        return Ok(false);
    }
    let (second, _) = p.second()?;
    Ok(may_name(second) || (second == kinds::LEFT_BRACKET || second == kinds::LEFT_BRACE))
}

/// Whether variables are declared here: by `let` and `const` where a declaration may stand.
///
/// # Errors
///
/// Want of memory.
pub fn starts_variables<'a, I: Tokens<'a> + Drop, N: Nested<'a, I>>(
    p: &Parser<'a, I>,
    _nested: &N,
    code: Around,
) -> Result<bool, Failure>
    ensures value { IfOk result (λ b. b ≡ reads.starts_variables (stream_of I.machine)
        (N.reads _nested.now I.State I.machine) (code_of code) (state_of I.state p.now)) }
    ensures full { IfErr result IsMemory }
{
    if p.at(kinds::VAR) {
        return Ok(true);
    }
    if !code.listed {
        return Ok(false);
    }
    if p.at(kinds::CONST) {
        return Ok(true);
    }
    starts_let(p, _nested)
}

/// Whether `using` starts a declaration: before a name on its line.
///
/// # Errors
///
/// Want of memory.
pub fn starts_using<'a, I: Tokens<'a> + Drop, N: Nested<'a, I>>(
    p: &Parser<'a, I>,
    _nested: &N,
    code: Around,
) -> Result<bool, Failure>
    ensures value { IfOk result (λ b. b ≡ reads.starts_using (stream_of I.machine)
        (N.reads _nested.now I.State I.machine) (code_of code) (state_of I.state p.now)) }
    ensures full { IfErr result IsMemory }
{
    if !code.syntax.explicit_resource_management || !p.at(kinds::USING) {
        return Ok(false);
    }
    let (second, breaks) = p.second()?;
    Ok(may_name(second) && !breaks)
}

/// Whether `await using` starts a declaration: before a name on its line.
///
/// # Errors
///
/// Want of memory.
pub fn starts_await_using<'a, I: Tokens<'a> + Drop, N: Nested<'a, I>>(
    p: &Parser<'a, I>,
    _nested: &N,
    code: Around,
) -> Result<bool, Failure>
    ensures value { IfOk result (λ b. b ≡ reads.starts_await_using (stream_of I.machine)
        (N.reads _nested.now I.State I.machine) (code_of code) (state_of I.state p.now)) }
    ensures full { IfErr result IsMemory }
{
    if !code.context.in_async || !p.at(kinds::AWAIT) || p.is_barred(code.context) {
        return Ok(false);
    }
    let (second, breaks) = behind(p)?;
    if breaks || !code.syntax.explicit_resource_management || second != kinds::USING {
        return Ok(false);
    }
    let (name, apart) = p.third()?;
    Ok(may_name(name) && !apart)
}
