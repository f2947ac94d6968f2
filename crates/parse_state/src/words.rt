//! Which words are names, by their kinds.
ghost use Rattle.std.specs.Prelude.{◌≡◌};
ghost use Rattle.grammar_spec.specs.Tokens.Input as spec;

use crate::kinds;
use base_token::Context;

/// Whether a word is a name in no code.
pub fn always_reserved(kind: u8) -> bool
    ensures { result ≡ spec.always_reserved kind }
{
    (kinds::NULL <= kind && kind <= kinds::FALSE)
        || ((kinds::BREAK <= kind
            && kind <= kinds::DELETE
            && kind != kinds::LET
            && kind != kinds::YIELD)
            || kind == kinds::ENUM)
}

/// Whether strict code reserves a word.
pub fn strict_reserved(kind: u8) -> bool
    ensures { result ≡ spec.strict_reserved kind }
{
    matches!(
        kind,
        kinds::LET
            | kinds::YIELD
            | kinds::STATIC
            | kinds::IMPLEMENTS
            | kinds::INTERFACE
            | kinds::PACKAGE
            | kinds::PRIVATE
            | kinds::PROTECTED
            | kinds::PUBLIC
    )
}

/// Whether a word is no name here.
pub fn no_name(context: Context, kind: u8) -> bool
    ensures { result ≡ spec.no_name context kind }
{
    always_reserved(kind)
        || (kind == kinds::YIELD && context.in_generator)
        || (kind == kinds::AWAIT
            && (context.in_async || context.in_static_block || context.module_))
}

/// Whether a token of this kind may start the operand of `await` (ECMA-262, 15.8) and can't follow a name.
pub fn starts_operand(kind: u8) -> bool {
    match kind {
        kinds::BANG | kinds::TILDE | kinds::LEFT_BRACE => true,
        kinds::STR | kinds::NUM | kinds::BIG_INT => true,
        kinds::NULL | kinds::TRUE | kinds::FALSE => true,
        kinds::AWAIT | kinds::LET | kinds::YIELD => true,
        kinds::FUNCTION | kinds::CLASS | kinds::NEW => true,
        kinds::THIS | kinds::SUPER | kinds::IMPORT => true,
        kinds::TYPEOF | kinds::VOID | kinds::DELETE => true,
        _ => kind >= kinds::ACCESSOR && kind != kinds::ENUM,
    }
}
