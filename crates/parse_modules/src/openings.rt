//! What starts a declaration that may be exported.
ghost use Rattle.std.specs.Prelude.{◌≡◌, IfErr, IfOk};
ghost use Rattle.grammar_spec.specs.Reader.Modules as reads;
ghost use Rattle.parse_state.specs.Answers.{IsMemory};
ghost use Rattle.parse_state.specs.Codes.{code_of};
ghost use Rattle.parse_state.specs.Cursors.{stream_of};
ghost use Rattle.parse_state.specs.States.{state_of};

use parse_blocks::starts::{starts_async, starts_variables};
use parse_operands::Nested;
use parse_state::{Around, Failure, Parser, Tokens, kinds};

/// Whether a declaration that may be exported starts here (ECMA-262, 16.2.3).
pub fn starts_declaration<'a, I: Tokens<'a> + Drop, N: Nested<'a, I>>(
    p: &Parser<'a, I>,
    nested: &N,
    code: Around,
) -> Result<bool, Failure>
    ensures value { IfOk result (λ b. b ≡ reads.starts_declaration (stream_of I.machine)
        (N.reads nested.now I.State I.machine) (code_of code) (state_of I.state p.now)) }
    ensures full { IfErr result IsMemory }
{
    if p.at(kinds::FUNCTION) || p.at(kinds::CLASS) || starts_async(p, nested)? {
        return Ok(true);
    }
    starts_variables(p, nested, code)
}
