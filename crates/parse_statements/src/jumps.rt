//! Statements that leave a place: `return`, `throw`, `break`, `continue`; and `debugger`.
ghost use Rattle.std.specs.Prelude.{◌≡◌, None, ◌||◌, IfOk};
ghost use Rattle.base_token.specs.Kinds.{break_kind, continue_kind};
ghost use Rattle.tree_nodes.specs.Placed.{holds_stmt};
ghost use Rattle.tree_nodes.specs.View.{view_ident};
ghost use Rattle.tree_spec.specs.Tree.{break_stmt, continue_stmt, part_by};
ghost use Rattle.grammar_spec.specs.Reader.Statements as reads;
ghost use Rattle.parse_state.specs.Codes.{code_of};
ghost use Rattle.parse_state.specs.Cursors.{stream_of};
ghost use Rattle.parse_state.specs.States.{state_of};
ghost use Rattle.parse_state.specs.Reads.{Shorter, NotLonger};
ghost use Rattle.parse_operands.specs.Rules.{ReadsBy};
ghost use Rattle.parse_operands.specs.Operands.{tree_in};

use parse_blocks::made;
use parse_operands::Nested;
use parse_state::operators::{EXPRESSION, PLAIN_END};
use parse_state::{Around, Failure, Parser, Tokens, kinds};
use tree_nodes::{Ident, StmtBox};

/// Whether nothing of the statement follows on its line.
fn ends_here<'a, I: Tokens<'a> + Drop, N: Nested<'a, I>>(
    p: &Parser<'a, I>,
    _nested: &N,
    code: Around,
) -> bool
    ensures { result ≡ reads.ends_here (stream_of I.machine) (N.reads _nested.now I.State I.machine)
        (code_of code) (state_of I.state p.now) }
{
    p.at(kinds::SEMICOLON) || (p.at(kinds::RIGHT_BRACE) || (p.at(kinds::END) || p.breaks()))
}

/// `return`.
#[inline(never)]
#[tactic(auto, unfolding(grammar_spec::specs::Reader::Statements::return_by))]
pub fn return_stmt<'a, I: Tokens<'a> + Drop, N: Nested<'a, I>>(
    p: &mut Parser<'a, I>,
    nested: &N,
    code: Around,
) -> Result<StmtBox, Failure>
    requires ready { N.ready nested.now }
    ensures value { ReadsBy I.machine I.state (N.reads nested.now) p.old p.new result
        tree_in (λ m r. reads.return_by m r (code_of code)) }
    ensures holds { IfOk result (λ x. holds_stmt x.part.value) }
    ensures shorter { Shorter I.machine I.state p.old p.new result }
{
    let start = p.lo();
    p.eat_word(code, kinds::RETURN)?;
    if ends_here(p, nested, code) {
        p.end_of(code, PLAIN_END)?;
        return made::return_stmt(p.alloc, p.since(start), None);
    }
    let arg = nested.expr(p, code, EXPRESSION)?;
    p.end_of(code, arg.end)?;
    made::return_stmt(p.alloc, p.since(start), Some(arg))
}

/// `throw`, with its operand on its line.
#[inline(never)]
#[tactic(auto, unfolding(grammar_spec::specs::Reader::Statements::throw_by))]
pub fn throw_stmt<'a, I: Tokens<'a> + Drop, N: Nested<'a, I>>(
    p: &mut Parser<'a, I>,
    nested: &N,
    code: Around,
) -> Result<StmtBox, Failure>
    requires ready { N.ready nested.now }
    ensures value { ReadsBy I.machine I.state (N.reads nested.now) p.old p.new result
        tree_in (λ m r. reads.throw_by m r (code_of code)) }
    ensures holds { IfOk result (λ x. holds_stmt x.part.value) }
    ensures shorter { Shorter I.machine I.state p.old p.new result }
{
    let start = p.lo();
    p.eat_word(code, kinds::THROW)?;
    if p.breaks() {
        return Err(p.unexpected());
    }
    let arg = nested.expr(p, code, EXPRESSION)?;
    p.end_of(code, arg.end)?;
    made::throw_stmt(p.alloc, p.since(start), arg)
}

/// A label on its line, or none.
#[inline(never)]
#[tactic(auto, unfolding(grammar_spec::specs::Reader::Statements::label_by))]
pub fn label<'a, I: Tokens<'a> + Drop, N: Nested<'a, I>>(
    p: &mut Parser<'a, I>,
    _nested: &N,
    code: Around,
) -> Result<Option<Ident>, Failure>
    requires ready { N.ready _nested.now }
    ensures value { ReadsBy I.machine I.state (N.reads _nested.now) p.old p.new result
        (part_by view_ident) (λ m r. reads.label_by m r (code_of code)) }
    ensures not_longer { NotLonger I.machine I.state p.old p.new result }
{
    if ends_here(p, _nested, code) {
        return Ok(None);
    }
    let span = p.place();
    let sym = p.name(code)?;
    Ok(Some(Ident { span, sym }))
}

/// `break`.
#[inline(never)]
#[tactic(auto, unfolding(grammar_spec::specs::Reader::Statements::jump_by))]
pub fn break_stmt<'a, I: Tokens<'a> + Drop, N: Nested<'a, I>>(
    p: &mut Parser<'a, I>,
    nested: &N,
    code: Around,
) -> Result<StmtBox, Failure>
    requires ready { N.ready nested.now }
    ensures value { ReadsBy I.machine I.state (N.reads nested.now) p.old p.new result
        tree_in (λ m r. reads.jump_by m r break_kind break_stmt (code_of code)) }
    ensures holds { IfOk result (λ x. holds_stmt x.part.value) }
    ensures shorter { Shorter I.machine I.state p.old p.new result }
{
    let start = p.lo();
    p.eat_word(code, kinds::BREAK)?;
    let to = label(p, nested, code)?;
    p.end_of(code, PLAIN_END)?;
    made::break_stmt(p.alloc, p.since(start), to)
}

/// `continue`.
#[inline(never)]
#[tactic(auto, unfolding(grammar_spec::specs::Reader::Statements::jump_by))]
pub fn continue_stmt<'a, I: Tokens<'a> + Drop, N: Nested<'a, I>>(
    p: &mut Parser<'a, I>,
    nested: &N,
    code: Around,
) -> Result<StmtBox, Failure>
    requires ready { N.ready nested.now }
    ensures value { ReadsBy I.machine I.state (N.reads nested.now) p.old p.new result
        tree_in (λ m r. reads.jump_by m r continue_kind continue_stmt (code_of code)) }
    ensures holds { IfOk result (λ x. holds_stmt x.part.value) }
    ensures shorter { Shorter I.machine I.state p.old p.new result }
{
    let start = p.lo();
    p.eat_word(code, kinds::CONTINUE)?;
    let to = label(p, nested, code)?;
    p.end_of(code, PLAIN_END)?;
    made::continue_stmt(p.alloc, p.since(start), to)
}

/// `debugger`.
#[inline(never)]
#[tactic(auto, unfolding(grammar_spec::specs::Reader::Statements::debugger_by))]
pub fn debugger_stmt<'a, I: Tokens<'a> + Drop, N: Nested<'a, I>>(
    p: &mut Parser<'a, I>,
    _nested: &N,
    code: Around,
) -> Result<StmtBox, Failure>
    requires ready { N.ready _nested.now }
    ensures value { ReadsBy I.machine I.state (N.reads _nested.now) p.old p.new result
        tree_in (λ m r. reads.debugger_by m r (code_of code)) }
    ensures holds { IfOk result (λ x. holds_stmt x.part.value) }
    ensures shorter { Shorter I.machine I.state p.old p.new result }
{
    let start = p.lo();
    p.eat_word(code, kinds::DEBUGGER)?;
    p.end_of(code, PLAIN_END)?;
    made::debugger_stmt(p.alloc, p.since(start))
}
