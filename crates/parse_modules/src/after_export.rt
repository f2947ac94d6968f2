//! What follows `export`.
ghost use Rattle.std.specs.Prelude.{◌≡◌, false, true, IfOk};
ghost use Rattle.tree_nodes.specs.Fits.{fits_module_decl};
ghost use Rattle.tree_nodes.specs.Placed.{inner};
ghost use Rattle.tree_nodes.specs.View.{view_module_decl};
ghost use Rattle.grammar_spec.specs.Reader.Modules as reads;
ghost use Rattle.parse_state.specs.Codes.{code_of};
ghost use Rattle.parse_state.specs.Reads.{Shorter};
ghost use Rattle.parse_operands.specs.Rules.{ReadsBy};
ghost use Rattle.parse_modules.specs.Steps.{after_by, decl_by, listed_by};

use crate::default_exports::export_default;
use crate::exportable::exportable;
use crate::exports::{export_list, export_star};
use crate::openings::starts_declaration;
use base_token::BytePos;
use parse_operands::Nested;
use parse_state::code::in_list;
use parse_state::{Around, Failure, Parser, Tokens, kinds};
use tree_nodes::{ExportDecl, ModuleDecl};

/// A declaration that is exported.
#[inline(never)]
#[tactic(auto, unfolding(crate::specs::Steps::decl_by))]
pub fn export_decl<'a, I: Tokens<'a> + Drop, N: Nested<'a, I>>(
    p: &mut Parser<'a, I>,
    nested: &N,
    code: Around,
    start: BytePos,
) -> Result<ModuleDecl, Failure>
    requires ready { N.ready nested.now }
    ensures value { ReadsBy I.machine I.state (N.reads nested.now) p.old p.new result
        (view_module_decl inner) (λ m r. decl_by m r (code_of code) start.0) }
    ensures fits { IfOk result (λ x. fits_module_decl (λ p. p) x) }
    ensures shorter { Shorter I.machine I.state p.old p.new result }
{
    let stmt = nested.stmt(p, in_list(code))?;
    match exportable(stmt.into_inner()) {
        Some(decl) => Ok(ModuleDecl::ExportDecl(ExportDecl {
            span: p.since(start),
            decl,
        })),
        None => Err(p.unexpected()),
    }
}

/// A star, names in braces, or a declaration.
#[inline(never)]
#[tactic(auto, unfolding(crate::specs::Steps::listed_by))]
pub fn export_listed<'a, I: Tokens<'a> + Drop, N: Nested<'a, I>>(
    p: &mut Parser<'a, I>,
    nested: &N,
    code: Around,
    start: BytePos,
) -> Result<ModuleDecl, Failure>
    requires ready { N.ready nested.now }
    ensures value { ReadsBy I.machine I.state (N.reads nested.now) p.old p.new result
        (view_module_decl inner) (λ m r. listed_by m r (code_of code) start.0) }
    ensures fits { IfOk result (λ x. fits_module_decl (λ p. p) x) }
    ensures shorter { Shorter I.machine I.state p.old p.new result }
{
    if p.at(kinds::MUL) {
        return export_star(p, nested, code, start);
    }
    if p.at(kinds::LEFT_BRACE) {
        return export_list(p, nested, code, start);
    }
    if starts_declaration(p, nested, in_list(code))? {
        export_decl(p, nested, code, start)
    } else {
        Err(p.unexpected())
    }
}

/// What follows `export`.
#[inline(never)]
#[tactic(auto, unfolding(crate::specs::Steps::after_by))]
pub fn after_export<'a, I: Tokens<'a> + Drop, N: Nested<'a, I>>(
    p: &mut Parser<'a, I>,
    nested: &N,
    code: Around,
    start: BytePos,
) -> Result<ModuleDecl, Failure>
    requires ready { N.ready nested.now }
    ensures value { ReadsBy I.machine I.state (N.reads nested.now) p.old p.new result
        (view_module_decl inner) (λ m r. after_by m r (code_of code) start.0) }
    ensures fits { IfOk result (λ x. fits_module_decl (λ p. p) x) }
    ensures shorter { Shorter I.machine I.state p.old p.new result }
{
    if !p.at(kinds::DEFAULT) {
        return export_listed(p, nested, code, start);
    }
    p.eat_word(code, kinds::DEFAULT)?;
    p.operand()?;
    export_default(p, nested, code, start)
}

/// An export.
#[tactic(auto, using(crate::proofs::Exported::export_is))]
pub fn export<'a, I: Tokens<'a> + Drop, N: Nested<'a, I>>(
    p: &mut Parser<'a, I>,
    nested: &N,
    code: Around,
) -> Result<ModuleDecl, Failure>
    requires ready { N.ready nested.now }
    ensures value { ReadsBy I.machine I.state (N.reads nested.now) p.old p.new result
        (view_module_decl inner) (λ m r. reads.export_by m r (code_of code)) }
    ensures fits { IfOk result (λ x. fits_module_decl (λ p. p) x) }
    ensures shorter { Shorter I.machine I.state p.old p.new result }
{
    let start = p.lo();
    p.eat_word(code, kinds::EXPORT)?;
    after_export(p, nested, code, start)
}
