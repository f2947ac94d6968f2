//! Parts of statements: a test in its parentheses, and a statement as a part of another.
ghost use Rattle.std.specs.Prelude.{◌≡◌, ◌||◌, ◌&&◌, true, false, IfOk};
ghost use Rattle.grammar_spec.specs.Tokens.Shape as shape;
ghost use Rattle.tree_nodes.specs.Placed.{holds_stmt};
ghost use Rattle.grammar_spec.specs.Reader.Statements as reads;
ghost use Rattle.parse_state.specs.Answers.{IsSyntax};
ghost use Rattle.parse_state.specs.Codes.{code_of};
ghost use Rattle.parse_state.specs.Reads.{Shorter};
ghost use Rattle.parse_operands.specs.Operands.{tree_of, tree_in};
ghost use Rattle.parse_operands.specs.Rules.{ReadsBy};

use base_token::{Error, Span, Spanned, SyntaxError};
use parse_operands::{Nested, Operand};
use parse_state::code::alone;
use parse_state::operators::EXPRESSION;
use parse_state::{Around, Failure, Parser, Tokens, kinds};
use tree_nodes::{Decl, Stmt, StmtBox, StmtKind, VarDeclKind};

/// Whether a statement is one, and no declaration (ECMA-262, clause 14).
fn is_statement(stmt: &Stmt) -> bool
    ensures { result ≡ shape.is_statement stmt.now }
{
    match &stmt.kind {
        StmtKind::Decl(Decl::Var(x)) => matches!(x.kind, VarDeclKind::Var),
        StmtKind::Decl(_) => false,
        _ => true,
    }
}

/// Whether a statement is a plain function, neither async nor a generator (ECMA-262, B.3.1, B.3.3).
fn is_plain_function(stmt: &Stmt) -> bool
    ensures { result ≡ shape.is_plain_function stmt.now }
{
    match &stmt.kind {
        StmtKind::Decl(Decl::Fn(x)) => !x.function.is_generator && !x.function.is_async,
        _ => false,
    }
}

/// A test in its parentheses.
#[inline(never)]
#[tactic(auto, unfolding(grammar_spec::specs::Reader::Statements::in_parens))]
pub fn in_parens<'a, I: Tokens<'a> + Drop, N: Nested<'a, I>>(
    p: &mut Parser<'a, I>,
    nested: &N,
    code: Around,
) -> Result<Operand, Failure>
    requires ready { N.ready nested.now }
    ensures value { ReadsBy I.machine I.state (N.reads nested.now) p.old p.new result
        tree_of (λ m r. reads.in_parens m r (code_of code)) }
    ensures shorter { Shorter I.machine I.state p.old p.new result }
{
    p.expect(kinds::LEFT_PAREN)?;
    let test = nested.expr(p, code, EXPRESSION)?;
    p.expect(kinds::RIGHT_PAREN)?;
    Ok(test)
}

/// What is said of a declaration where none may stand, at its place.
pub fn not_allowed(span: Span) -> Failure
    ensures { IsSyntax result }
{
    Failure::Syntax(Error {
        span,
        kind: SyntaxError::DeclNotAllowed,
    })
}

/// A statement as a part of another one; where it may be a plain function, that.
#[inline(always)]
#[tactic(auto, unfolding(grammar_spec::specs::Reader::Statements::sub_by))]
pub fn sub<'a, I: Tokens<'a> + Drop, N: Nested<'a, I>>(
    p: &mut Parser<'a, I>,
    nested: &N,
    code: Around,
    functions: bool,
) -> Result<StmtBox, Failure>
    requires ready { N.ready nested.now }
    ensures value { ReadsBy I.machine I.state (N.reads nested.now) p.old p.new result
        tree_in (λ m r. reads.sub_by m r (code_of code) functions) }
    ensures holds { IfOk result (λ x. holds_stmt x.part.value) }
    ensures shorter { Shorter I.machine I.state p.old p.new result }
{
    let read = nested.stmt(p, alone(code))?;
    if is_statement(read.get())
        || (functions && !code.context.strict && is_plain_function(read.get()))
    {
        return Ok(read);
    }
    Err(not_allowed(read.get().span()))
}
