//! `while` and `do` (ECMA-262, 14.7.2 and 14.7.3).
ghost use Rattle.std.specs.Prelude.{false, IfOk};
ghost use Rattle.tree_nodes.specs.Placed.{holds_stmt};
ghost use Rattle.grammar_spec.specs.Reader.Statements as reads;
ghost use Rattle.parse_state.specs.Codes.{code_of};
ghost use Rattle.parse_state.specs.Reads.{Shorter};
ghost use Rattle.parse_operands.specs.Rules.{ReadsBy};
ghost use Rattle.parse_operands.specs.Operands.{tree_in};

use crate::made;
use parse_blocks::parts::{in_parens, sub};
use parse_operands::Nested;
use parse_state::{Around, Failure, Parser, Tokens, kinds};
use tree_nodes::StmtBox;

/// `while`.
#[inline(never)]
#[tactic(auto, unfolding(grammar_spec::specs::Reader::Statements::while_by))]
pub fn while_loop<'a, I: Tokens<'a> + Drop, N: Nested<'a, I>>(
    p: &mut Parser<'a, I>,
    nested: &N,
    code: Around,
) -> Result<StmtBox, Failure>
    requires ready { N.ready nested.now }
    ensures value { ReadsBy I.machine I.state (N.reads nested.now) p.old p.new result
        tree_in (λ m r. reads.while_by m r (code_of code)) }
    ensures holds { IfOk result (λ x. holds_stmt x.part.value) }
    ensures shorter { Shorter I.machine I.state p.old p.new result }
{
    let start = p.lo();
    p.eat_word(code, kinds::WHILE)?;
    let test = in_parens(p, nested, code)?;
    let body = sub(p, nested, code, false)?;
    made::while_stmt(p.alloc, p.since(start), test, body)
}

/// `do`, with a semicolon behind it or with none.
#[inline(never)]
#[tactic(auto, unfolding(grammar_spec::specs::Reader::Statements::do_by))]
pub fn do_loop<'a, I: Tokens<'a> + Drop, N: Nested<'a, I>>(
    p: &mut Parser<'a, I>,
    nested: &N,
    code: Around,
) -> Result<StmtBox, Failure>
    requires ready { N.ready nested.now }
    ensures value { ReadsBy I.machine I.state (N.reads nested.now) p.old p.new result
        tree_in (λ m r. reads.do_by m r (code_of code)) }
    ensures holds { IfOk result (λ x. holds_stmt x.part.value) }
    ensures shorter { Shorter I.machine I.state p.old p.new result }
{
    let start = p.lo();
    p.eat_word(code, kinds::DO)?;
    let body = sub(p, nested, code, false)?;
    p.eat_word(code, kinds::WHILE)?;
    let test = in_parens(p, nested, code)?;
    // For the proof: the two ways stay apart, as in the definition, though both go on alike.
    if p.eat(kinds::SEMICOLON)? {
        return made::do_while_stmt(p.alloc, p.since(start), test, body);
    }
    made::do_while_stmt(p.alloc, p.since(start), test, body)
}
