//! Declarations of functions.
ghost use Rattle.std.specs.Prelude.{IfOk};
ghost use Rattle.tree_nodes.specs.Placed.{holds_stmt};
ghost use Rattle.grammar_spec.specs.Reader.Statements as reads;
ghost use Rattle.parse_state.specs.Codes.{code_of};
ghost use Rattle.parse_state.specs.Reads.{Shorter};
ghost use Rattle.parse_operands.specs.Rules.{ReadsBy};
ghost use Rattle.parse_operands.specs.Operands.{tree_in};

use crate::functions::function;
use crate::heads::star;
use crate::made;
use base_token::BytePos;
use parse_operands::Nested;
use parse_state::{Around, Failure, Parser, Tokens, kinds};
use tree_nodes::{Ident, StmtBox};

/// A function with its name, from `function` on. Before it `async` may stand.
#[inline(never)]
#[tactic(auto, unfolding(grammar_spec::specs::Reader::Statements::function_decl_by))]
pub fn function_decl<'a, I: Tokens<'a> + Drop, N: Nested<'a, I>>(
    p: &mut Parser<'a, I>,
    nested: &N,
    code: Around,
    start: BytePos,
    is_async: bool,
) -> Result<StmtBox, Failure>
    requires ready { N.ready nested.now }
    ensures value { ReadsBy I.machine I.state (N.reads nested.now) p.old p.new result
        tree_in (λ m r. reads.function_decl_by m r (code_of code) start.0 is_async) }
    ensures holds { IfOk result (λ x. holds_stmt x.part.value) }
    ensures shorter { Shorter I.machine I.state p.old p.new result }
{
    p.eat_word(code, kinds::FUNCTION)?;
    let generator = star(p, nested)?;
    let span = p.place();
    let sym = p.name(code)?;
    let read = function(p, nested, code, start, generator, is_async)?;
    made::fn_decl(p.alloc, p.since(start), Ident { span, sym }, read)
}
