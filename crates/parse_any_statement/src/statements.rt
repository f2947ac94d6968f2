//! A statement of any kind.
ghost use Rattle.std.specs.Prelude.{◌≡◌, ◌&&◌, true, false, IfErr, IfOk};
ghost use Rattle.tree_nodes.specs.Placed.{holds_stmt, inner};
ghost use Rattle.grammar_spec.specs.Reader.Statements as reads;
ghost use Rattle.parse_state.specs.Answers.{IsMemory};
ghost use Rattle.tree_spec.specs.Tree.{empty_stmt};
ghost use Rattle.parse_state.specs.Codes.{code_of};
ghost use Rattle.parse_state.specs.Reads.{Shorter};
ghost use Rattle.parse_operands.specs.Rules.{ReadsBy};
ghost use Rattle.parse_operands.specs.Operands.{tree_in};
ghost use Rattle.parse_any_statement.specs.Parts.{declared_stmt, jump_stmt, variable_stmt};

use base_token::{Error, Span, SyntaxError};
use parse_blocks::Nested;
use parse_blocks::blocks::block;
use parse_blocks::declarations::{using, variables};
use parse_blocks::made::stmt;
use parse_blocks::parts::not_allowed;
use parse_blocks::starts::{starts_async, starts_await_using, starts_let, starts_using};
use parse_classes::classes::class_decl;
use parse_classes::function_decl;
use parse_loops::fors::for_loop;
use parse_loops::whiles::{do_loop, while_loop};
use parse_state::operators::may_name;
use parse_state::{Around, Failure, Parser, Tokens, kinds};
use parse_statements::ifs::if_stmt;
use parse_statements::jumps::{break_stmt, continue_stmt, debugger_stmt, return_stmt, throw_stmt};
use parse_statements::simple::{expression, with};
use parse_statements::switches::switch;
use parse_statements::tries::try_stmt;
use std::alloc::Global;
use tree_nodes::{EmptyStmt, StmtBox, StmtKind, VarDeclKind};

/// What is wrong with a statement that begins here, if it is none: `const`, `let` before what it declares, and `using` before a name
/// on its line begin declarations.
///
/// # Errors
///
/// Want of memory.
fn barred<'a, I: Tokens<'a> + Drop, N: Nested<'a, I>>(
    p: &Parser<'a, I>,
    nested: &N,
    code: Around,
) -> Result<Option<SyntaxError>, Failure>
    ensures full { IfErr result IsMemory }
{
    if p.at(kinds::CONST) || starts_let(p, nested)? {
        return Ok(Some(SyntaxError::DeclNotAllowed));
    }
    if !p.at(kinds::USING) {
        return Ok(None);
    }
    let (second, breaks) = p.second()?;
    if breaks || !may_name(second) {
        return Ok(None);
    }
    if code.syntax.explicit_resource_management {
        return Ok(Some(SyntaxError::DeclNotAllowed));
    }
    Ok(Some(SyntaxError::UsingDeclNotEnabled))
}

/// An expression that starts a statement; where a declaration stands in its place, that is the fault.
#[inline(never)]
fn told_expression<'a, I: Tokens<'a> + Drop, N: Nested<'a, I>>(
    p: &mut Parser<'a, I>,
    nested: &N,
    code: Around,
) -> Result<StmtBox, Failure>
    requires ready { N.ready nested.now }
    ensures value { ReadsBy I.machine I.state (N.reads nested.now) p.old p.new result
        tree_in (λ m r. reads.expression_by m r (code_of code)) }
    ensures holds { IfOk result (λ x. holds_stmt x.part.value) }
    ensures shorter { Shorter I.machine I.state p.old p.new result }
{
    let kind = barred(p, nested, code)?;
    match (expression(p, nested, code), kind) {
        (Err(Failure::Syntax(error)), Some(kind)) => {
            let span = error.span;
            Err(Failure::Syntax(Error { span, kind }))
        }
        (read, _) => read,
    }
}

/// What declares variables, or an expression.
#[inline(never)]
pub fn variables_or_expression<'a, I: Tokens<'a> + Drop, N: Nested<'a, I>>(
    p: &mut Parser<'a, I>,
    nested: &N,
    code: Around,
) -> Result<StmtBox, Failure>
    requires ready { N.ready nested.now }
    ensures value { ReadsBy I.machine I.state (N.reads nested.now) p.old p.new result
        tree_in (λ m r. variable_stmt m r (code_of code)) }
    ensures holds { IfOk result (λ x. holds_stmt x.part.value) }
    ensures shorter { Shorter I.machine I.state p.old p.new result }
{
    let start = p.lo();
    if p.at(kinds::VAR) {
        return variables(p, nested, code, VarDeclKind::Var);
    }
    if !code.listed {
        return told_expression(p, nested, code);
    }
    if p.at(kinds::CONST) {
        return variables(p, nested, code, VarDeclKind::Const);
    }
    if starts_let(p, nested)? {
        return variables(p, nested, code, VarDeclKind::Let);
    }
    if starts_using(p, nested, code)? {
        return using(p, nested, code, start, false);
    }
    if starts_await_using(p, nested, code)? {
        p.bump()?;
        return using(p, nested, code, start, true);
    }
    told_expression(p, nested, code)
}

/// A function, a class, or what no word starts alone.
#[inline(always)]
pub fn declared<'a, I: Tokens<'a> + Drop, N: Nested<'a, I>>(
    p: &mut Parser<'a, I>,
    nested: &N,
    code: Around,
) -> Result<StmtBox, Failure>
    requires ready { N.ready nested.now }
    ensures value { ReadsBy I.machine I.state (N.reads nested.now) p.old p.new result
        tree_in (λ m r. declared_stmt m r (code_of code)) }
    ensures holds { IfOk result (λ x. holds_stmt x.part.value) }
    ensures shorter { Shorter I.machine I.state p.old p.new result }
{
    let start = p.lo();
    if p.at(kinds::FUNCTION) {
        return function_decl(p, nested, code, start, false);
    }
    if p.at(kinds::CLASS) {
        if !code.listed {
            return Err(not_allowed(p.place()));
        }
        return class_decl(p, nested, code);
    }
    if starts_async(p, nested)? {
        if !code.listed {
            return Err(not_allowed(p.place()));
        }
        p.bump()?;
        return function_decl(p, nested, code, start, true);
    }
    variables_or_expression(p, nested, code)
}

/// A statement that leaves a place, or one of the others.
#[inline(never)]
pub fn jump<'a, I: Tokens<'a> + Drop, N: Nested<'a, I>>(
    p: &mut Parser<'a, I>,
    nested: &N,
    code: Around,
) -> Result<StmtBox, Failure>
    requires ready { N.ready nested.now }
    ensures value { ReadsBy I.machine I.state (N.reads nested.now) p.old p.new result
        tree_in (λ m r. jump_stmt m r (code_of code)) }
    ensures holds { IfOk result (λ x. holds_stmt x.part.value) }
    ensures shorter { Shorter I.machine I.state p.old p.new result }
{
    match p.kind() {
        kinds::THROW => throw_stmt(p, nested, code),
        kinds::BREAK => break_stmt(p, nested, code),
        kinds::CONTINUE => continue_stmt(p, nested, code),
        kinds::WITH => with(p, nested, code),
        kinds::DEBUGGER => debugger_stmt(p, nested, code),
        _ => declared(p, nested, code),
    }
}

/// A statement that a word starts, or an expression. Not inlined: its frame is wide, and blocks and functions in one another go past it.
#[inline(never)]
#[tactic(auto, unfolding(grammar_spec::specs::Reader::Statements::keyword_stmt))]
pub fn keyword<'a, I: Tokens<'a> + Drop, N: Nested<'a, I>>(
    p: &mut Parser<'a, I>,
    nested: &N,
    code: Around,
) -> Result<StmtBox, Failure>
    requires ready { N.ready nested.now }
    ensures value { ReadsBy I.machine I.state (N.reads nested.now) p.old p.new result
        tree_in (λ m r. reads.keyword_stmt m r (code_of code)) }
    ensures holds { IfOk result (λ x. holds_stmt x.part.value) }
    ensures shorter { Shorter I.machine I.state p.old p.new result }
{
    match p.kind() {
        kinds::IF => if_stmt(p, nested, code),
        kinds::RETURN => return_stmt(p, nested, code),
        kinds::FOR => for_loop(p, nested, code),
        kinds::WHILE => while_loop(p, nested, code),
        kinds::DO => do_loop(p, nested, code),
        kinds::SWITCH => switch(p, nested, code),
        kinds::TRY => try_stmt(p, nested, code),
        _ => jump(p, nested, code),
    }
}

/// An empty statement (ECMA-262, 14.4).
#[inline(never)]
fn empty_stmt(alloc: Global, span: Span) -> Result<StmtBox, Failure>
    ensures value { IfOk result (λ x. inner x.part.value ≡ empty_stmt span) }
    ensures holds { IfOk result (λ x. holds_stmt x.part.value) }
    ensures full { IfErr result IsMemory }
{
    stmt(alloc, StmtKind::Empty(EmptyStmt { span }))
}

/// A block as a statement (ECMA-262, 14.2).
#[inline(never)]
fn block_stmt<'a, I: Tokens<'a> + Drop, N: Nested<'a, I>>(
    p: &mut Parser<'a, I>,
    nested: &N,
    code: Around,
) -> Result<StmtBox, Failure>
    requires ready { N.ready nested.now }
    ensures value { ReadsBy I.machine I.state (N.reads nested.now) p.old p.new result
        tree_in (λ m r. reads.block_by m r (code_of code)) }
    ensures holds { IfOk result (λ x. holds_stmt x.part.value) }
    ensures shorter { Shorter I.machine I.state p.old p.new result }
{
    let read = block(p, nested, code)?;
    stmt(p.alloc, StmtKind::Block(read))
}

/// A statement, from a token on that is no slash.
#[inline(always)]
#[tactic(auto, unfolding(grammar_spec::specs::Reader::Statements::stmt_by, grammar_spec::specs::Reader::Statements::keyword_stmt))]
pub fn any_stmt<'a, I: Tokens<'a> + Drop, N: Nested<'a, I>>(
    p: &mut Parser<'a, I>,
    nested: &N,
    code: Around,
) -> Result<StmtBox, Failure>
    requires ready { N.ready nested.now }
    ensures value { ReadsBy I.machine I.state (N.reads nested.now) p.old p.new result
        tree_in (λ m r. reads.stmt_by m r (code_of code)) }
    ensures holds { IfOk result (λ x. holds_stmt x.part.value) }
    ensures shorter { Shorter I.machine I.state p.old p.new result }
{
    if p.at(kinds::SEMICOLON) {
        let span = p.place();
        p.bump()?;
        return empty_stmt(p.alloc, span);
    }
    if p.at(kinds::LEFT_BRACE) {
        return block_stmt(p, nested, code);
    }
    let start = p.lo();
    match p.kind() {
        kinds::FUNCTION => function_decl(p, nested, code, start, false),
        _ => keyword(p, nested, code),
    }
}

/// A statement; where the code says so, a declaration. A slash that comes starts a regular expression.
#[inline(never)]
#[tactic(auto, unfolding(grammar_spec::specs::Reader::Statements::stmt_from))]
pub fn statement<'a, I: Tokens<'a> + Drop, N: Nested<'a, I>>(
    p: &mut Parser<'a, I>,
    nested: &N,
    code: Around,
) -> Result<StmtBox, Failure>
    requires ready { N.ready nested.now }
    ensures value { ReadsBy I.machine I.state (N.reads nested.now) p.old p.new result
        tree_in (λ m r. reads.stmt_from m r (code_of code)) }
    ensures holds { IfOk result (λ x. holds_stmt x.part.value) }
    ensures shorter { Shorter I.machine I.state p.old p.new result }
{
    p.operand()?;
    any_stmt(p, nested, code)
}
