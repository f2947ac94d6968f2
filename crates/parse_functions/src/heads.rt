//! What tells an accessor and an `async` method from a key: the token behind the word.
ghost use Rattle.std.specs.Prelude.{◌≡◌, ◌<◌, IfErr, IfOk};
ghost use Rattle.grammar_spec.specs.Reader.Expressions as reads;
ghost use Rattle.parse_state.specs.Answers.{IsMemory};
ghost use Rattle.parse_state.specs.Cursors.{stream_of};
ghost use Rattle.parse_state.specs.States.{state_of};
ghost use Rattle.parse_state.specs.Reads.{NotLonger};
ghost use Rattle.parse_operands.specs.Rules.{ReadsBy};

use parse_operands::Nested;
use parse_state::operators::starts_key;
use parse_state::{Failure, Parser, Tokens, kinds};

/// Whether one of `get` and `set` comes, before a key.
///
/// # Errors
///
/// Want of memory.
pub fn is_accessor<'a, I: Tokens<'a> + Drop, N: Nested<'a, I>>(
    p: &Parser<'a, I>,
    _nested: &N,
    kind: u8,
) -> Result<bool, Failure>
    requires { 0 < kind }
    ensures value { IfOk result (λ b. b ≡ reads.is_accessor (stream_of I.machine)
        (N.reads _nested.now I.State I.machine) kind (state_of I.state p.now)) }
    ensures full { IfErr result IsMemory }
{
    if !p.at(kind) {
        return Ok(false);
    }
    let (second, _) = p.second()?;
    Ok(starts_key(second) && second != kinds::HASH)
}

/// Whether `async` comes, before a key or a star on its line.
///
/// # Errors
///
/// Want of memory.
pub fn is_async_head<'a, I: Tokens<'a> + Drop, N: Nested<'a, I>>(
    p: &Parser<'a, I>,
    _nested: &N,
) -> Result<bool, Failure>
    ensures value { IfOk result (λ b. b ≡ reads.is_async_head (stream_of I.machine)
        (N.reads _nested.now I.State I.machine) (state_of I.state p.now)) }
    ensures full { IfErr result IsMemory }
{
    if !p.at(kinds::ASYNC) {
        return Ok(false);
    }
    let (second, breaks) = p.second()?;
    Ok((starts_key(second) || second == kinds::MUL) && !breaks)
}

/// Takes a star if one comes, and tells whether one came.
///
/// # Errors
///
/// Want of memory.
#[tactic(auto, unfolding(grammar_spec::specs::Reader::Expressions::star))]
pub fn star<'a, I: Tokens<'a> + Drop, N: Nested<'a, I>>(
    p: &mut Parser<'a, I>,
    _nested: &N,
) -> Result<bool, Failure>
    ensures value { ReadsBy I.machine I.state (N.reads _nested.now) p.old p.new result
        (λ b. b) (λ m r. reads.star m r) }
    ensures not_longer { NotLonger I.machine I.state p.old p.new result }
{
    p.eat(kinds::MUL)
}
