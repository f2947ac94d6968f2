//! The default export.
ghost use Rattle.std.specs.Prelude.{◌≡◌, false, true, IfOk};
ghost use Rattle.tree_nodes.specs.Fits.{fits_module_decl};
ghost use Rattle.tree_nodes.specs.Placed.{inner};
ghost use Rattle.tree_nodes.specs.View.{view_module_decl};
ghost use Rattle.grammar_spec.specs.Reader.Modules as reads;
ghost use Rattle.parse_state.specs.Codes.{code_of};
ghost use Rattle.parse_state.specs.Reads.{Shorter};
ghost use Rattle.parse_operands.specs.Rules.{ReadsBy};
ghost use Rattle.parse_modules.specs.Steps.{default_expr_by, default_fn_by, default_other_by};

use base_token::BytePos;
use parse_arrows::function_expressions::function_expr;
use parse_blocks::starts::starts_async;
use parse_classes::classes::class_expr;
use parse_operands::Nested;
use parse_state::operators::ASSIGNMENT;
use parse_state::{Around, Failure, Parser, Tokens, kinds};
use tree_nodes::{DefaultDecl, ExportDefaultDecl, ExportDefaultExpr, ModuleDecl};

/// A function that is the default export, which begins at its own start.
#[inline(never)]
pub fn default_fn<'a, I: Tokens<'a> + Drop, N: Nested<'a, I>>(
    p: &mut Parser<'a, I>,
    nested: &N,
    code: Around,
    start: BytePos,
    begin: BytePos,
    is_async: bool,
) -> Result<ModuleDecl, Failure>
    requires ready { N.ready nested.now }
    ensures value { ReadsBy I.machine I.state (N.reads nested.now) p.old p.new result
        (view_module_decl inner)
        (λ m r. default_fn_by m r (code_of code) start.0 begin.0 is_async) }
    ensures fits { IfOk result (λ x. fits_module_decl (λ p. p) x) }
    ensures shorter { Shorter I.machine I.state p.old p.new result }
{
    let function = function_expr(p, nested, code, begin, is_async)?;
    Ok(ModuleDecl::ExportDefaultDecl(ExportDefaultDecl {
        span: p.since(start),
        decl: DefaultDecl::Fn(function),
    }))
}

/// An expression that is the default export.
#[inline(never)]
pub fn default_expr<'a, I: Tokens<'a> + Drop, N: Nested<'a, I>>(
    p: &mut Parser<'a, I>,
    nested: &N,
    code: Around,
    start: BytePos,
) -> Result<ModuleDecl, Failure>
    requires ready { N.ready nested.now }
    ensures value { ReadsBy I.machine I.state (N.reads nested.now) p.old p.new result
        (view_module_decl inner) (λ m r. default_expr_by m r (code_of code) start.0) }
    ensures fits { IfOk result (λ x. fits_module_decl (λ p. p) x) }
    ensures shorter { Shorter I.machine I.state p.old p.new result }
{
    let read = nested.expr(p, code, ASSIGNMENT)?;
    p.end_of(code, read.end)?;
    Ok(ModuleDecl::ExportDefaultExpr(ExportDefaultExpr {
        span: p.since(start),
        expr: read.expr,
    }))
}

/// A class or an expression that is the default export.
#[inline(never)]
pub fn default_other<'a, I: Tokens<'a> + Drop, N: Nested<'a, I>>(
    p: &mut Parser<'a, I>,
    nested: &N,
    code: Around,
    start: BytePos,
) -> Result<ModuleDecl, Failure>
    requires ready { N.ready nested.now }
    ensures value { ReadsBy I.machine I.state (N.reads nested.now) p.old p.new result
        (view_module_decl inner) (λ m r. default_other_by m r (code_of code) start.0) }
    ensures fits { IfOk result (λ x. fits_module_decl (λ p. p) x) }
    ensures shorter { Shorter I.machine I.state p.old p.new result }
{
    if !p.at(kinds::CLASS) {
        return default_expr(p, nested, code, start);
    }
    let class = class_expr(p, nested, code)?;
    Ok(ModuleDecl::ExportDefaultDecl(ExportDefaultDecl {
        span: p.since(start),
        decl: DefaultDecl::Class(class),
    }))
}

/// The default export, behind its words.
#[inline(never)]
#[tactic(auto, unfolding(grammar_spec::specs::Reader::Modules::export_default))]
pub fn export_default<'a, I: Tokens<'a> + Drop, N: Nested<'a, I>>(
    p: &mut Parser<'a, I>,
    nested: &N,
    code: Around,
    start: BytePos,
) -> Result<ModuleDecl, Failure>
    requires ready { N.ready nested.now }
    ensures value { ReadsBy I.machine I.state (N.reads nested.now) p.old p.new result
        (view_module_decl inner) (λ m r. reads.export_default m r (code_of code) start.0) }
    ensures fits { IfOk result (λ x. fits_module_decl (λ p. p) x) }
    ensures shorter { Shorter I.machine I.state p.old p.new result }
{
    let begin = p.lo();
    if p.at(kinds::FUNCTION) {
        return default_fn(p, nested, code, start, begin, false);
    }
    if starts_async(p, nested)? {
        p.bump()?;
        return default_fn(p, nested, code, start, begin, true);
    }
    default_other(p, nested, code, start)
}
