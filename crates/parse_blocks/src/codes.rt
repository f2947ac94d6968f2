//! What a rule tells the source; codes of fields and of static blocks.
ghost use Rattle.std.specs.Prelude.{◌≡◌};
ghost use Rattle.grammar_spec.specs.Tokens.Input as input;
ghost use Rattle.grammar_spec.specs.Reader.Source as spec;
ghost use Rattle.parse_state.specs.Codes.{code_of};
ghost use Rattle.parse_state.specs.Cursors.{stream_of};
ghost use Rattle.parse_state.specs.States.{state_of};
ghost use Rattle.parse_state.specs.Reads.{to_come};

use base_token::Context;
use parse_state::{Around, Parser, Tokens};

/// Tells the source behind the token that comes of the code around it.
#[tactic(auto, unfolding(parse_state::specs::Cursors::stream_of))]
pub fn turned<'a, I: Tokens<'a> + Drop>(p: &mut Parser<'a, I>, context: Context)
    ensures value { state_of I.state p.new ≡ spec.retold (stream_of I.machine) context (state_of I.state p.old) }
    ensures same { to_come I.machine I.state p.new ≡ to_come I.machine I.state p.old }
{
    p.input.set_ctx(context);
}

/// At the start of a field (ECMA-262, 15.7).
pub fn in_field(code: Around) -> Around
    ensures { code_of result ≡ input.in_field (code_of code) }
{
    let mut context = code.context;
    context.include_in_expr = true;
    context.in_generator = false;
    context.in_async = false;
    context.in_static_block = false;
    Around { context, ..code }
}

/// In a static block (ECMA-262, 15.7).
pub fn in_static(code: Around) -> Around
    ensures { code_of result ≡ input.in_static (code_of code) }
{
    let mut context = code.context;
    context.include_in_expr = true;
    context.in_generator = false;
    context.in_async = false;
    context.in_static_block = true;
    Around {
        context,
        listed: true,
        ..code
    }
}
