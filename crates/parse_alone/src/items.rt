//! Finished statements and items: they nest no deeper than the limit, which is looked at first, and nothing of a cover is
//! left.
ghost use Rattle.std.specs.Prelude.{◌≡◌, ◌<◌, IfOk};
ghost use Rattle.tree_nodes.specs.Fits.{fits_module_item};
ghost use Rattle.tree_nodes.specs.Placed.{holds_stmt, inner};
ghost use Rattle.tree_nodes.specs.View.{view_module_item};
ghost use Rattle.grammar_spec.specs.Tokens.Shape as shape;
ghost use Rattle.parse_state.specs.Codes.{code_of};
ghost use Rattle.parse_state.specs.Reads.{ReadsAs, NotLonger};
ghost use Rattle.parse_operands.specs.Operands.{tree_in};
ghost use Rattle.parse_alone.specs.Items as parts;

use crate::settle::{left_over, settle};
use base_token::SyntaxError;
use parse_modules::items::module_item;
use parse_recursion::Depth;
use parse_recursion::tie::parse_stmt;
use parse_state::code::{alone, in_list};
use parse_state::{Around, Failure, Parser, Tokens};
use tree_nodes::{Decl, ModuleItem, Stmt, StmtBox, StmtKind, VarDeclKind};

/// Whether a statement is one, and no declaration (ECMA-262, clause 14).
fn is_statement(stmt: &Stmt) -> bool
    ensures { result ≡ shape.is_statement stmt.now }
{
    match &stmt.kind {
        StmtKind::Decl(Decl::Var(x)) => matches!(x.kind, VarDeclKind::Var),
        StmtKind::Decl(_) => false,
        _ => true,
    }
}

/// A statement that is no declaration.
///
/// # Errors
///
/// Want of memory, a text that nests deeper, or a fault of the text.
#[tactic(auto, unfolding(crate::specs::Items::statement_part))]
pub fn statement_part<'a, I: Tokens<'a> + Drop>(
    p: &mut Parser<'a, I>,
    limit: u32,
    code: Around,
) -> Result<StmtBox, Failure>
    requires { limit < 4294967295 }
    ensures value { ReadsAs I.machine I.state p.old p.new result
        tree_in (λ m. parts.statement_part m limit (code_of code)) }
    ensures holds { IfOk result (λ x. holds_stmt x.part.value) }
    ensures not_longer { NotLonger I.machine I.state p.old p.new result }
{
    let start = p.lo();
    let stmt = parse_stmt(p, limit, alone(code))?;
    if !is_statement(stmt.get()) {
        return Err(left_over(p, start, SyntaxError::DeclNotAllowed));
    }
    settle(p, start, limit, stmt)
}

/// A statement or a declaration.
///
/// # Errors
///
/// Want of memory, a text that nests deeper, or a fault of the text.
#[tactic(auto, unfolding(crate::specs::Items::list_item_part))]
pub fn list_item_part<'a, I: Tokens<'a> + Drop>(
    p: &mut Parser<'a, I>,
    limit: u32,
    code: Around,
) -> Result<StmtBox, Failure>
    requires { limit < 4294967295 }
    ensures value { ReadsAs I.machine I.state p.old p.new result
        tree_in (λ m. parts.list_item_part m limit (code_of code)) }
    ensures holds { IfOk result (λ x. holds_stmt x.part.value) }
    ensures not_longer { NotLonger I.machine I.state p.old p.new result }
{
    let start = p.lo();
    let stmt = parse_stmt(p, limit, in_list(code))?;
    settle(p, start, limit, stmt)
}

/// An item of a module: an import, an export, a statement or a declaration.
///
/// # Errors
///
/// Want of memory, a text that nests deeper, or a fault of the text.
#[tactic(auto, unfolding(crate::specs::Items::module_item_part))]
pub fn module_item_part<'a, I: Tokens<'a> + Drop>(
    p: &mut Parser<'a, I>,
    limit: u32,
    code: Around,
) -> Result<ModuleItem, Failure>
    requires { limit < 4294967295 }
    ensures value { ReadsAs I.machine I.state p.old p.new result
        (view_module_item inner) (λ m. parts.module_item_part m limit (code_of code)) }
    ensures fits { IfOk result (λ x. fits_module_item (λ p. p) x) }
    ensures not_longer { NotLonger I.machine I.state p.old p.new result }
{
    let start = p.lo();
    p.operand()?;
    let item = module_item(p, &Depth { levels: limit }, in_list(code))?;
    settle(p, start, limit, item)
}
