//! Exports (ECMA-262, 16.2.3).
ghost use Rattle.std.specs.Prelude.{◌≡◌, false, true, IfOk, map};
ghost use Rattle.tree_nodes.specs.Fits.{fits_module_decl};
ghost use Rattle.tree_nodes.specs.Placed.{inner};
ghost use Rattle.tree_nodes.specs.View.{view_export_specifier, view_module_decl};
ghost use Rattle.grammar_spec.specs.Reader.Modules as reads;
ghost use Rattle.parse_state.specs.Answers.{going_on};
ghost use Rattle.parse_state.specs.Codes.{code_of};
ghost use Rattle.parse_state.specs.Reads.{Shorter};
ghost use Rattle.parse_operands.specs.Rules.{ReadsBy};
ghost use Rattle.parse_modules.specs.Steps.{namespace_by};

use crate::names::{export_name, source};
use base_token::BytePos;
use parse_operands::Nested;
use parse_state::operators::EXPORTS_END;
use parse_state::{Around, Failure, Parser, Tokens, kinds};
use tree_nodes::{
    ExportAll, ExportNamedSpecifier, ExportNamespaceSpecifier, ExportSpecifier, ModuleDecl,
    NamedExport,
};

/// In braces: a name, and perhaps `as` another.
#[inline(never)]
#[tactic(auto, unfolding(grammar_spec::specs::Reader::Modules::named_export_item))]
pub fn named_export<'a, I: Tokens<'a> + Drop, N: Nested<'a, I>>(
    p: &mut Parser<'a, I>,
    nested: &N,
    code: Around,
) -> Result<ExportSpecifier, Failure>
    ensures value { ReadsBy I.machine I.state (N.reads nested.now) p.old p.new result
        view_export_specifier (λ m r. reads.named_export_item m r (code_of code)) }
    ensures shorter { Shorter I.machine I.state p.old p.new result }
{
    let start = p.lo();
    let orig = export_name(p, nested)?;
    let exported = if p.at(kinds::AS) {
        p.eat_word(code, kinds::AS)?;
        Some(export_name(p, nested)?)
    } else {
        None
    };
    Ok(ExportSpecifier::Named(ExportNamedSpecifier {
        span: p.since(start),
        orig,
        exported,
    }))
}

/// One more name in braces, or their end. Whether another may follow.
#[inline(never)]
#[tactic(auto, unfolding(grammar_spec::specs::Reader::Modules::specifier_step))]
pub fn export_turn<'a, I: Tokens<'a> + Drop, N: Nested<'a, I>>(
    p: &mut Parser<'a, I>,
    nested: &N,
    code: Around,
    list: &mut Vec<ExportSpecifier>,
) -> Result<bool, Failure>
    ensures value { ReadsBy I.machine I.state (N.reads nested.now) p.old p.new result
        (λ x. going_on x (map view_export_specifier list.new.items))
        (λ m r. reads.specifier_step m r false (code_of code) (map view_export_specifier list.old.items)) }
    ensures shorter { Shorter I.machine I.state p.old p.new result }
{
    if p.eat(kinds::RIGHT_BRACE)? {
        return Ok(false);
    }
    let item = named_export(p, nested, code)?;
    list.push(item)?;
    if p.eat(kinds::COMMA)? {
        return Ok(true);
    }
    p.expect(kinds::RIGHT_BRACE)?;
    Ok(false)
}

/// What stands in braces, after the first.
#[inline(never)]
#[tactic(auto, using(parse_state::proofs::Iterate::iterates), unfolding(grammar_spec::specs::Reader::Modules::specifiers_by))]
pub fn named_exports<'a, I: Tokens<'a> + Drop, N: Nested<'a, I>>(
    p: &mut Parser<'a, I>,
    nested: &N,
    code: Around,
) -> Result<Vec<ExportSpecifier>, Failure>
    ensures value { ReadsBy I.machine I.state (N.reads nested.now) p.old p.new result
        (λ x. map view_export_specifier x.items)
        (λ m r. reads.specifiers_by m r false (code_of code)) }
    ensures shorter { Shorter I.machine I.state p.old p.new result }
{
    let mut list = Vec::new(p.alloc);
    'turns: while export_turn(p, nested, code, &mut list)? {}
    Ok(list)
}

/// What another module exports, under one name.
#[inline(never)]
#[tactic(auto, unfolding(crate::specs::Steps::namespace_by))]
pub fn export_namespace<'a, I: Tokens<'a> + Drop, N: Nested<'a, I>>(
    p: &mut Parser<'a, I>,
    nested: &N,
    code: Around,
    start: BytePos,
    star: BytePos,
) -> Result<ModuleDecl, Failure>
    requires ready { N.ready nested.now }
    ensures value { ReadsBy I.machine I.state (N.reads nested.now) p.old p.new result
        (view_module_decl inner)
        (λ m r. namespace_by m r (code_of code) start.0 star.0) }
    ensures fits { IfOk result (λ x. fits_module_decl (λ p. p) x) }
    ensures shorter { Shorter I.machine I.state p.old p.new result }
{
    p.eat_word(code, kinds::AS)?;
    let name = export_name(p, nested)?;
    let span = p.since(star);
    p.eat_word(code, kinds::FROM)?;
    let from = source(p, nested, code)?;
    let mut specifiers = Vec::new(p.alloc);
    specifiers.push(ExportSpecifier::Namespace(ExportNamespaceSpecifier { span, name }))?;
    Ok(ModuleDecl::ExportNamed(NamedExport {
        span: p.since(start),
        specifiers,
        src: Some(from.src),
        with_: from.with_,
    }))
}

/// `*`: what another module exports, under its names or under one.
#[inline(never)]
#[tactic(auto, unfolding(grammar_spec::specs::Reader::Modules::export_star, crate::specs::Steps::namespace_by))]
pub fn export_star<'a, I: Tokens<'a> + Drop, N: Nested<'a, I>>(
    p: &mut Parser<'a, I>,
    nested: &N,
    code: Around,
    start: BytePos,
) -> Result<ModuleDecl, Failure>
    requires ready { N.ready nested.now }
    ensures value { ReadsBy I.machine I.state (N.reads nested.now) p.old p.new result
        (view_module_decl inner) (λ m r. reads.export_star m r (code_of code) start.0) }
    ensures fits { IfOk result (λ x. fits_module_decl (λ p. p) x) }
    ensures shorter { Shorter I.machine I.state p.old p.new result }
{
    let star = p.lo();
    p.expect(kinds::MUL)?;
    if p.at(kinds::AS) {
        return export_namespace(p, nested, code, start, star);
    }
    p.eat_word(code, kinds::FROM)?;
    let from = source(p, nested, code)?;
    Ok(ModuleDecl::ExportAll(ExportAll {
        span: p.since(start),
        src: from.src,
        with_: from.with_,
    }))
}

/// Names in braces, of this module or another.
#[inline(never)]
#[tactic(auto, using(parse_operands::proofs::Packs::packs), unfolding(grammar_spec::specs::Reader::Modules::export_list))]
pub fn export_list<'a, I: Tokens<'a> + Drop, N: Nested<'a, I>>(
    p: &mut Parser<'a, I>,
    nested: &N,
    code: Around,
    start: BytePos,
) -> Result<ModuleDecl, Failure>
    requires ready { N.ready nested.now }
    ensures value { ReadsBy I.machine I.state (N.reads nested.now) p.old p.new result
        (view_module_decl inner) (λ m r. reads.export_list m r (code_of code) start.0) }
    ensures fits { IfOk result (λ x. fits_module_decl (λ p. p) x) }
    ensures shorter { Shorter I.machine I.state p.old p.new result }
{
    p.expect(kinds::LEFT_BRACE)?;
    let specifiers = named_exports(p, nested, code)?;
    if p.at(kinds::FROM) {
        p.eat_word(code, kinds::FROM)?;
        let from = source(p, nested, code)?;
        return Ok(ModuleDecl::ExportNamed(NamedExport {
            span: p.since(start),
            specifiers,
            src: Some(from.src),
            with_: from.with_,
        }));
    }
    p.end_of(code, EXPORTS_END)?;
    Ok(ModuleDecl::ExportNamed(NamedExport {
        span: p.since(start),
        specifiers,
        src: None,
        with_: None,
    }))
}
