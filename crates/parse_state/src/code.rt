//! The code around a token.
ghost use Rattle.std.specs.Prelude.{◌≡◌};
ghost use Rattle.grammar_spec.specs.Tokens.Input as spec;
ghost use Rattle.parse_state.specs.Codes.{code_of};

use base_token::{Context, EsSyntax};

/// The code around a token: the optional parts of the language that are on, the flags of the context, and whether a
/// declaration may stand where a statement starts. It is handed from rule to rule, so no rule has to restore it.
#[derive(Clone, Copy, Debug)]
pub struct Around {
    pub syntax: EsSyntax,
    pub context: Context,
    pub listed: bool,
}

/// The same, where `in` is an operator.
pub fn with_in(code: Around) -> Around
    ensures { code_of result ≡ spec.with_in (code_of code) }
{
    let mut context = code.context;
    context.include_in_expr = true;
    Around { context, ..code }
}

/// The same, where `in` is none.
pub fn without_in(code: Around) -> Around
    ensures { code_of result ≡ spec.without_in (code_of code) }
{
    let mut context = code.context;
    context.include_in_expr = false;
    Around { context, ..code }
}

/// The same in strict code.
pub fn turned_strict(code: Around) -> Around
    ensures { code_of result ≡ spec.turned_strict (code_of code) }
{
    let mut context = code.context;
    context.strict = true;
    Around { context, ..code }
}

/// The same, where declarations may stand.
pub fn in_list(code: Around) -> Around
    ensures { code_of result ≡ spec.in_list (code_of code) }
{
    Around {
        listed: true,
        ..code
    }
}

/// The same, where statements alone may stand.
pub fn alone(code: Around) -> Around
    ensures { code_of result ≡ spec.alone (code_of code) }
{
    Around {
        listed: false,
        ..code
    }
}

/// The same by whether `yield` and `await` are operators.
pub fn by(generator: bool, is_async: bool, code: Around) -> Around
    ensures { code_of result ≡ spec.by generator is_async (code_of code) }
{
    let mut context = code.context;
    context.include_in_expr = true;
    context.in_generator = generator;
    context.in_async = is_async;
    context.in_static_block = false;
    Around { context, ..code }
}

/// In a function's parameters and body.
pub fn in_body(generator: bool, is_async: bool, code: Around) -> Around
    ensures { code_of result ≡ spec.in_body generator is_async (code_of code) }
{
    let mut context = code.context;
    context.include_in_expr = true;
    context.in_generator = generator;
    context.in_async = is_async;
    context.in_static_block = false;
    context.in_function = true;
    Around {
        context,
        listed: true,
        ..code
    }
}

/// In an arrow's body.
pub fn in_arrow(is_async: bool, code: Around) -> Around
    ensures { code_of result ≡ spec.in_arrow is_async (code_of code) }
{
    let mut context = code.context;
    context.in_generator = false;
    context.in_async = is_async;
    context.in_static_block = false;
    context.in_function = true;
    Around { context, ..code }
}
