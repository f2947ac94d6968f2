//! Names of exports, names that are bound, and names of modules.
ghost use Rattle.std.specs.Prelude.{◌≡◌, false, true, IfOk};
ghost use Rattle.tree_nodes.specs.Fits.{fits_object_lit};
ghost use Rattle.tree_nodes.specs.Placed.{inner};
ghost use Rattle.tree_nodes.specs.View.{view_ident, view_module_export_name, view_object_lit, view_str};
ghost use Rattle.grammar_spec.specs.Reader.Modules as reads;
ghost use Rattle.parse_state.specs.Codes.{code_of};
ghost use Rattle.parse_state.specs.Reads.{Shorter};
ghost use Rattle.parse_operands.specs.Rules.{ReadsBy};
ghost use Rattle.parse_modules.specs.Sources.{from_of, FitSourced};

use crate::made;
use crate::questions::attributes_in;
use base_token::Token;
use parse_objects::objects::object;
use parse_operands::Nested;
use parse_state::operators::{PLAIN_END, SOURCE_END};
use parse_state::{Around, Failure, Parser, Tokens, kinds};
use tree_nodes::{Ident, ModuleExportName, ObjectLit, Str};

/// A module's name and its attributes.
#[derive(Drop)]
pub struct Sourced {
    pub src: Box<Str>,
    pub with_: Option<Box<ObjectLit>>,
}

/// A string.
#[inline(never)]
#[tactic(auto, unfolding(grammar_spec::specs::Reader::Modules::string_by, grammar_spec::specs::Reader::Expressions::literal_by, parse_state::specs::Cursors::stream_of))]
pub fn string<'a, I: Tokens<'a> + Drop, N: Nested<'a, I>>(
    p: &mut Parser<'a, I>,
    _nested: &N,
) -> Result<Str, Failure>
    ensures value { ReadsBy I.machine I.state (N.reads _nested.now) p.old p.new result
        view_str (λ m r. reads.string_by m r) }
    ensures shorter { Shorter I.machine I.state p.old p.new result }
{
    let span = p.place();
    let fault = p.unexpected();
    if !p.at(kinds::STR) {
        return Err(fault);
    }
    let Some(token) = p.take()? else {
        return Err(fault);
    };
    match token.into_token() {
        Token::Str { units, raw } => made::text(p.alloc, span, units, raw),
        _ => Err(fault),
    }
}

/// The name of an export: any word, or a string.
#[inline(never)]
#[tactic(auto, unfolding(grammar_spec::specs::Reader::Modules::export_name_by, grammar_spec::specs::Reader::Modules::string_by))]
pub fn export_name<'a, I: Tokens<'a> + Drop, N: Nested<'a, I>>(
    p: &mut Parser<'a, I>,
    nested: &N,
) -> Result<ModuleExportName, Failure>
    ensures value { ReadsBy I.machine I.state (N.reads nested.now) p.old p.new result
        view_module_export_name (λ m r. reads.export_name_by m r) }
    ensures shorter { Shorter I.machine I.state p.old p.new result }
{
    if p.at(kinds::STR) {
        let text = string(p, nested)?;
        return Ok(ModuleExportName::Str(text));
    }
    let span = p.place();
    let sym = p.any_word()?;
    Ok(ModuleExportName::Ident(Ident { span, sym }))
}

/// A name that is bound here.
#[tactic(auto, unfolding(grammar_spec::specs::Reader::Modules::local_by))]
pub fn local<'a, I: Tokens<'a> + Drop, N: Nested<'a, I>>(
    p: &mut Parser<'a, I>,
    _nested: &N,
    code: Around,
) -> Result<Ident, Failure>
    ensures value { ReadsBy I.machine I.state (N.reads _nested.now) p.old p.new result
        view_ident (λ m r. reads.local_by m r (code_of code)) }
    ensures shorter { Shorter I.machine I.state p.old p.new result }
{
    let span = p.place();
    let sym = p.name(code)?;
    Ok(Ident { span, sym })
}

/// The attributes of a module's name.
#[inline(never)]
#[tactic(auto, unfolding(grammar_spec::specs::Reader::Modules::attributes_by))]
pub fn attributes<'a, I: Tokens<'a> + Drop, N: Nested<'a, I>>(
    p: &mut Parser<'a, I>,
    nested: &N,
    code: Around,
) -> Result<Box<ObjectLit>, Failure>
    requires ready { N.ready nested.now }
    ensures value { ReadsBy I.machine I.state (N.reads nested.now) p.old p.new result
        (λ x. view_object_lit inner x.value) (λ m r. reads.attributes_by m r (code_of code)) }
    ensures fits { IfOk result (λ x. fits_object_lit (λ p. p) x.value) }
    ensures shorter { Shorter I.machine I.state p.old p.new result }
{
    if !p.at(kinds::LEFT_BRACE) {
        return Err(p.unexpected());
    }
    let read = object(p, nested, code)?;
    match attributes_in(read) {
        Some(object) => Ok(Box::new(p.alloc, object)?),
        None => Err(p.unexpected()),
    }
}

/// A module's name, its attributes where these are on, and its end.
#[inline(never)]
#[tactic(auto, unfolding(grammar_spec::specs::Reader::Modules::source_by))]
pub fn source<'a, I: Tokens<'a> + Drop, N: Nested<'a, I>>(
    p: &mut Parser<'a, I>,
    nested: &N,
    code: Around,
) -> Result<Sourced, Failure>
    requires ready { N.ready nested.now }
    ensures value { ReadsBy I.machine I.state (N.reads nested.now) p.old p.new result
        from_of (λ m r. reads.source_by m r (code_of code)) }
    ensures fits { IfOk result (λ x. FitSourced x) }
    ensures shorter { Shorter I.machine I.state p.old p.new result }
{
    let text = string(p, nested)?;
    let src = Box::new(p.alloc, text)?;
    let kind = p.kind();
    let starts = kind == kinds::WITH || (kind == kinds::ASSERT && !p.breaks());
    if code.syntax.import_attributes && starts {
        p.eat_word(code, kind)?;
        let with_ = attributes(p, nested, code)?;
        p.end_of(code, PLAIN_END)?;
        return Ok(Sourced {
            src,
            with_: Some(with_),
        });
    }
    p.end_of(code, SOURCE_END)?;
    Ok(Sourced { src, with_: None })
}
