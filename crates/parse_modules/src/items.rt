//! The items of scripts and modules.
ghost use Rattle.std.specs.Prelude.{◌≡◌, ◌<◌, false, true, IfErr, IfOk, IsTrue};
ghost use Rattle.grammar_spec.specs.Tokens.Shape as shape;
ghost use Rattle.tree_nodes.specs.Fits.{fits_module_item};
ghost use Rattle.tree_nodes.specs.Placed.{holds_stmt, inner};
ghost use Rattle.tree_nodes.specs.View.{view_module_item};
ghost use Rattle.grammar_spec.specs.Reader.Source as spec;
ghost use Rattle.grammar_spec.specs.Reader.Modules as reads;
ghost use Rattle.parse_state.specs.Answers.{going_on, IsMemory, IsSyntax};
ghost use Rattle.parse_state.specs.Codes.{code_of};
ghost use Rattle.parse_state.specs.Cursors.{stream_of};
ghost use Rattle.parse_state.specs.States.{state_of};
ghost use Rattle.parse_state.specs.Reads.{to_come, Shorter, NotLonger};
ghost use Rattle.parse_operands.specs.Rules.{ReadsBy};
ghost use Rattle.parse_operands.specs.Operands.{tree_in};
ghost use Rattle.parse_modules.specs.Items.{items_by, items_of, FitItems};

use crate::after_export::export;
use crate::imports::import_decl;
use base_token::{Error, Span, SyntaxError};
use parse_blocks::body::{is_directive, is_use_strict};
use parse_blocks::codes::turned;
use parse_operands::Nested;
use parse_state::code::{in_list, turned_strict};
use parse_state::{Around, Failure, Parser, Tokens, kinds};
use tree_nodes::{ModuleDecl, ModuleItem, StmtBox};

/// The items of a module so far, the code after them, and whether its directives may go on.
#[derive(Drop)]
pub struct ItemsSoFar {
    pub items: Vec<ModuleItem>,
    pub code: Around,
    pub starts: bool,
}

/// Whether no token is to come.
#[tactic(auto, using(parse_state::proofs::Firsts::firsts), unfolding(parse_state::specs::Cursors::stream_of))]
pub fn ended<'a, I: Tokens<'a> + Drop>(p: &Parser<'a, I>) -> bool
    ensures { result ≡ spec.ended (stream_of I.machine) (state_of I.state p.now) }
{
    p.ahead.is_none()
}

/// Whether `import` starts a declaration here, but no call and no `import.meta`.
pub fn starts_import<'a, I: Tokens<'a> + Drop, N: Nested<'a, I>>(
    p: &Parser<'a, I>,
    _nested: &N,
) -> Result<bool, Failure>
    ensures value { IfOk result (λ b. b ≡ reads.starts_import (stream_of I.machine)
        (N.reads _nested.now I.State I.machine) (state_of I.state p.now)) }
    ensures full { IfErr result IsMemory }
{
    if !p.at(kinds::IMPORT) {
        return Ok(false);
    }
    let (second, _) = p.second()?;
    Ok(second != kinds::LEFT_PAREN && second != kinds::DOT)
}

/// What is said of an import or an export in a script, where it has no tree.
fn module_declaration(span: Span) -> Failure
    ensures { IsSyntax result }
{
    Failure::Syntax(Error {
        span,
        kind: SyntaxError::ImportExportInScript,
    })
}

/// A statement of a script, where no import and no export may stand.
#[inline(never)]
#[tactic(auto, unfolding(grammar_spec::specs::Reader::Modules::item_by))]
pub fn script_item<'a, I: Tokens<'a> + Drop, N: Nested<'a, I>>(
    p: &mut Parser<'a, I>,
    nested: &N,
    code: Around,
) -> Result<StmtBox, Failure>
    requires ready { N.ready nested.now }
    ensures value { ReadsBy I.machine I.state (N.reads nested.now) p.old p.new result
        tree_in (λ m r. reads.item_by m r false (code_of code)) }
    ensures holds { IfOk result (λ x. holds_stmt x.part.value) }
    ensures shorter { Shorter I.machine I.state p.old p.new result }
{
    if starts_import(p, nested)? || p.at(kinds::EXPORT) {
        return Err(module_declaration(p.place()));
    }
    nested.stmt(p, code)
}

/// An item of a module: an import, an export or a statement.
#[inline(never)]
#[tactic(auto, unfolding(grammar_spec::specs::Reader::Modules::item_by))]
pub fn module_item<'a, I: Tokens<'a> + Drop, N: Nested<'a, I>>(
    p: &mut Parser<'a, I>,
    nested: &N,
    code: Around,
) -> Result<ModuleItem, Failure>
    requires ready { N.ready nested.now }
    ensures value { ReadsBy I.machine I.state (N.reads nested.now) p.old p.new result
        (view_module_item inner) (λ m r. reads.item_by m r true (code_of code)) }
    ensures fits { IfOk result (λ x. fits_module_item (λ p. p) x) }
    ensures shorter { Shorter I.machine I.state p.old p.new result }
{
    if starts_import(p, nested)? {
        let decl = import_decl(p, nested, code)?;
        return Ok(ModuleItem::ModuleDecl(ModuleDecl::Import(decl)));
    }
    if p.at(kinds::EXPORT) {
        let decl = export(p, nested, code)?;
        return Ok(ModuleItem::ModuleDecl(decl));
    }
    let stmt = nested.stmt(p, code)?;
    Ok(ModuleItem::Stmt(stmt))
}

/// Whether an item is the directive `use strict`.
fn turns_strict(item: &ModuleItem) -> bool
    requires { fits_module_item (λ p. p) item.now }
    ensures { result ≡ shape.is_use_strict (view_module_item inner item.now) }
{
    match item {
        ModuleItem::Stmt(stmt) => is_use_strict(stmt.get()),
        ModuleItem::ModuleDecl(_) => false,
    }
}

/// Whether an item may be a directive.
fn may_direct(item: &ModuleItem) -> bool
    requires { fits_module_item (λ p. p) item.now }
    ensures { result ≡ shape.is_directive (view_module_item inner item.now) }
{
    match item {
        ModuleItem::Stmt(stmt) => is_directive(stmt.get()),
        ModuleItem::ModuleDecl(_) => false,
    }
}

/// One more item of a module. A directive may turn what follows strict.
#[inline(never)]
#[tactic(auto, unfolding(grammar_spec::specs::Reader::Modules::program_item))]
pub fn next_item<'a, I: Tokens<'a> + Drop, N: Nested<'a, I>>(
    p: &mut Parser<'a, I>,
    nested: &N,
    body: &mut ItemsSoFar,
) -> Result<(), Failure>
    requires ready { N.ready nested.now }
    requires fits { FitItems body.old }
    ensures value { ReadsBy I.machine I.state (N.reads nested.now) p.old p.new result
        (λ _. spec.go_on (items_of body.new))
        (λ m r. reads.program_item m r true (items_of body.old)) }
    ensures fits { IfOk result (λ _. FitItems body.new) }
    ensures shorter { Shorter I.machine I.state p.old p.new result }
{
    let item = module_item(p, nested, in_list(body.code))?;
    if body.starts && turns_strict(&item) {
        body.code = turned_strict(body.code);
        turned(p, body.code.context);
    } else {
        body.starts = body.starts && may_direct(&item);
    }
    body.items.push(item)?;
    Ok(())
}

/// One more item of a module, or its end. Whether another may follow.
#[inline(never)]
#[tactic(auto, unfolding(grammar_spec::specs::Reader::Modules::program_step))]
pub fn item_turn<'a, I: Tokens<'a> + Drop, N: Nested<'a, I>>(
    p: &mut Parser<'a, I>,
    nested: &N,
    body: &mut ItemsSoFar,
) -> Result<bool, Failure>
    requires ready { N.ready nested.now }
    requires fits { FitItems body.old }
    ensures value { ReadsBy I.machine I.state (N.reads nested.now) p.old p.new result
        (λ x. going_on x (items_of body.new))
        (λ m r. reads.program_step m r true (items_of body.old)) }
    ensures fits { IfOk result (λ _. FitItems body.new) }
    ensures shorter { IfOk result (λ b. IsTrue b → to_come I.machine I.state p.new < to_come I.machine I.state p.old) }
    ensures not_longer { NotLonger I.machine I.state p.old p.new result }
{
    if ended(p) {
        return Ok(false);
    }
    p.operand()?;
    next_item(p, nested, body)?;
    Ok(true)
}

/// The items of a module.
#[inline(never)]
#[tactic(auto, using(parse_state::proofs::Iterate::iterates), unfolding(crate::specs::Items::items_by))]
pub fn module_items<'a, I: Tokens<'a> + Drop, N: Nested<'a, I>>(
    p: &mut Parser<'a, I>,
    nested: &N,
    code: Around,
) -> Result<ItemsSoFar, Failure>
    requires ready { N.ready nested.now }
    ensures value { ReadsBy I.machine I.state (N.reads nested.now) p.old p.new result
        items_of (λ m r. items_by m r true (code_of code)) }
    ensures fits { IfOk result (λ x. FitItems x) }
    ensures not_longer { NotLonger I.machine I.state p.old p.new result }
{
    let mut read = ItemsSoFar {
        items: Vec::new(p.alloc),
        code,
        starts: true,
    };
    'turns: while item_turn(p, nested, &mut read)? {}
    Ok(read)
}
