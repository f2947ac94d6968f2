//! Functions as expressions (15.2).
ghost use Rattle.std.specs.Prelude.{◌≡◌, false, true, IfOk};
ghost use Rattle.tree_nodes.specs.Fits.{fits_fn_expr};
ghost use Rattle.tree_nodes.specs.Placed.{inner};
ghost use Rattle.tree_nodes.specs.View.{view_fn_expr};
ghost use Rattle.grammar_spec.specs.Reader.Expressions as reads;
ghost use Rattle.parse_state.specs.Codes.{code_of};
ghost use Rattle.parse_state.specs.Reads.{Shorter};
ghost use Rattle.parse_operands.specs.Operands.{tree_of};
ghost use Rattle.parse_operands.specs.Rules.{ReadsBy};

use crate::made;
use base_token::BytePos;
use parse_functions::functions::function;
use parse_functions::heads::star;
use parse_operands::{Nested, Operand};
use parse_state::code::by;
use parse_state::{Around, Failure, Parser, Tokens, kinds};
use tree_nodes::{FnExpr, Ident};

/// What follows `function` and its star: a name or none, parameters and a body.
#[inline(always)]
#[tactic(auto, unfolding(grammar_spec::specs::Reader::Expressions::function_expr_name))]
pub fn function_expr_name<'a, I: Tokens<'a> + Drop, N: Nested<'a, I>>(
    p: &mut Parser<'a, I>,
    nested: &N,
    code: Around,
    start: BytePos,
    generator: bool,
    is_async: bool,
) -> Result<FnExpr, Failure>
    requires ready { N.ready nested.now }
    ensures value { ReadsBy I.machine I.state (N.reads nested.now) p.old p.new result
        (view_fn_expr inner)
        (λ m r. reads.function_expr_name m r (code_of code) start.0 generator is_async) }
    ensures fits { IfOk result (λ x. fits_fn_expr (λ p. p) x) }
    ensures shorter { Shorter I.machine I.state p.old p.new result }
{
    let ident = if p.at(kinds::LEFT_PAREN) {
        None
    } else {
        let span = p.place();
        let sym = p.name(by(generator, is_async, code))?;
        Some(Ident { span, sym })
    };
    let function = function(p, nested, code, start, generator, is_async)?;
    Ok(FnExpr {
        span: p.since(start),
        ident,
        function,
    })
}

/// A function from its word on, which begins at a start.
#[inline(always)]
#[tactic(auto, unfolding(grammar_spec::specs::Reader::Expressions::function_expr_by))]
pub fn function_expr<'a, I: Tokens<'a> + Drop, N: Nested<'a, I>>(
    p: &mut Parser<'a, I>,
    nested: &N,
    code: Around,
    start: BytePos,
    is_async: bool,
) -> Result<FnExpr, Failure>
    requires ready { N.ready nested.now }
    ensures value { ReadsBy I.machine I.state (N.reads nested.now) p.old p.new result
        (view_fn_expr inner)
        (λ m r. reads.function_expr_by m r (code_of code) start.0 is_async) }
    ensures fits { IfOk result (λ x. fits_fn_expr (λ p. p) x) }
    ensures shorter { Shorter I.machine I.state p.old p.new result }
{
    p.eat_word(code, kinds::FUNCTION)?;
    let generator = star(p, nested)?;
    function_expr_name(p, nested, code, start, generator, is_async)
}

/// A function as an operand.
#[inline(never)]
pub fn function_operand<'a, I: Tokens<'a> + Drop, N: Nested<'a, I>>(
    p: &mut Parser<'a, I>,
    nested: &N,
    code: Around,
    start: BytePos,
    is_async: bool,
) -> Result<Operand, Failure>
    requires ready { N.ready nested.now }
    ensures value { ReadsBy I.machine I.state (N.reads nested.now) p.old p.new result
        tree_of (λ m r. reads.function_expr_by m r (code_of code) start.0 is_async) }
    ensures shorter { Shorter I.machine I.state p.old p.new result }
{
    let node = function_expr(p, nested, code, start, is_async)?;
    made::fn_expr(p.alloc, node)
}
