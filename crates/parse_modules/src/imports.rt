//! Imports (ECMA-262, 16.2.2).
ghost use Rattle.std.specs.Prelude.{◌≡◌, ◌++◌, false, true, IfErr, IfOk, map};
ghost use Rattle.base_token.specs.Kinds.{mul_kind};
ghost use Rattle.tree_nodes.specs.Fits.{fits_import_decl};
ghost use Rattle.tree_nodes.specs.Placed.{inner};
ghost use Rattle.tree_nodes.specs.View.{view_import_decl, view_import_specifier};
ghost use Rattle.grammar_spec.specs.Reader.Source as spec;
ghost use Rattle.grammar_spec.specs.Reader.Modules as reads;
ghost use Rattle.parse_state.specs.Answers.{going_on, IsMemory};
ghost use Rattle.parse_state.specs.Codes.{code_of};
ghost use Rattle.parse_state.specs.Cursors.{stream_of};
ghost use Rattle.parse_state.specs.States.{state_of};
ghost use Rattle.parse_state.specs.Reads.{Shorter};
ghost use Rattle.parse_operands.specs.Rules.{ReadsBy};
ghost use Rattle.parse_modules.specs.Firsts.{first_of};

use crate::names::{export_name, local, source};
use base_token::BytePos;
use parse_operands::Nested;
use parse_state::{Around, Failure, Parser, Tokens, kinds};
use tree_nodes::{
    Ident, ImportDecl, ImportDefaultSpecifier, ImportNamedSpecifier, ImportSpecifier,
    ImportStarAsSpecifier, ModuleExportName,
};

/// A name that can't be bound, `as` one that is.
#[inline(never)]
#[tactic(auto, unfolding(grammar_spec::specs::Reader::Modules::named_import, grammar_spec::specs::Reader::Modules::local_by, grammar_spec::specs::Reader::Source::name, grammar_spec::specs::Reader::Source::eat_word))]
pub fn renamed_import<'a, I: Tokens<'a> + Drop, N: Nested<'a, I>>(
    p: &mut Parser<'a, I>,
    nested: &N,
    code: Around,
) -> Result<ImportSpecifier, Failure>
    requires unnamed { spec.is_name (stream_of I.machine) (code_of code) (state_of I.state p.old) ≡ false }
    ensures value { ReadsBy I.machine I.state (N.reads nested.now) p.old p.new result
        view_import_specifier (λ m r. reads.named_import m r (code_of code)) }
    ensures shorter { Shorter I.machine I.state p.old p.new result }
{
    let start = p.lo();
    let imported = export_name(p, nested)?;
    p.eat_word(code, kinds::AS)?;
    let local = local(p, nested, code)?;
    Ok(ImportSpecifier::Named(ImportNamedSpecifier {
        span: p.since(start),
        local,
        imported: Some(imported),
    }))
}

/// A name that can be bound, and perhaps `as` another.
#[inline(never)]
#[tactic(auto, unfolding(grammar_spec::specs::Reader::Modules::named_import, grammar_spec::specs::Reader::Modules::export_name_by, grammar_spec::specs::Reader::Modules::local_by, grammar_spec::specs::Reader::Source::name, grammar_spec::specs::Reader::Source::any_word))]
pub fn bound_import<'a, I: Tokens<'a> + Drop, N: Nested<'a, I>>(
    p: &mut Parser<'a, I>,
    nested: &N,
    code: Around,
) -> Result<ImportSpecifier, Failure>
    requires named { spec.is_name (stream_of I.machine) (code_of code) (state_of I.state p.old) ≡ true }
    ensures value { ReadsBy I.machine I.state (N.reads nested.now) p.old p.new result
        view_import_specifier (λ m r. reads.named_import m r (code_of code)) }
    ensures shorter { Shorter I.machine I.state p.old p.new result }
{
    let start = p.lo();
    let span = p.place();
    let sym = p.any_word()?;
    let first = Ident { span, sym };
    if p.at(kinds::AS) {
        p.eat_word(code, kinds::AS)?;
        let local = local(p, nested, code)?;
        return Ok(ImportSpecifier::Named(ImportNamedSpecifier {
            span: p.since(start),
            local,
            imported: Some(ModuleExportName::Ident(first)),
        }));
    }
    Ok(ImportSpecifier::Named(ImportNamedSpecifier {
        span: p.since(start),
        local: first,
        imported: None,
    }))
}

/// In braces: a binding, or a name `as` one.
pub fn named_import<'a, I: Tokens<'a> + Drop, N: Nested<'a, I>>(
    p: &mut Parser<'a, I>,
    nested: &N,
    code: Around,
) -> Result<ImportSpecifier, Failure>
    ensures value { ReadsBy I.machine I.state (N.reads nested.now) p.old p.new result
        view_import_specifier (λ m r. reads.named_import m r (code_of code)) }
    ensures shorter { Shorter I.machine I.state p.old p.new result }
{
    if p.is_name(code) {
        bound_import(p, nested, code)
    } else {
        renamed_import(p, nested, code)
    }
}

/// One more name in braces, or their end. Whether another may follow.
#[inline(never)]
#[tactic(auto, unfolding(grammar_spec::specs::Reader::Modules::specifier_step))]
pub fn import_turn<'a, I: Tokens<'a> + Drop, N: Nested<'a, I>>(
    p: &mut Parser<'a, I>,
    nested: &N,
    code: Around,
    list: &mut Vec<ImportSpecifier>,
) -> Result<bool, Failure>
    ensures value { ReadsBy I.machine I.state (N.reads nested.now) p.old p.new result
        (λ x. going_on x (map view_import_specifier list.new.items))
        (λ m r. reads.specifier_step m r true (code_of code) (map view_import_specifier list.old.items)) }
    ensures shorter { Shorter I.machine I.state p.old p.new result }
{
    if p.eat(kinds::RIGHT_BRACE)? {
        return Ok(false);
    }
    let item = named_import(p, nested, code)?;
    list.push(item)?;
    if p.eat(kinds::COMMA)? {
        return Ok(true);
    }
    p.expect(kinds::RIGHT_BRACE)?;
    Ok(false)
}

/// What stands in braces, after the first.
#[inline(never)]
#[tactic(auto, using(parse_state::proofs::Iterate::iterates), unfolding(grammar_spec::specs::Reader::Modules::specifiers_by))]
pub fn named_imports<'a, I: Tokens<'a> + Drop, N: Nested<'a, I>>(
    p: &mut Parser<'a, I>,
    nested: &N,
    code: Around,
) -> Result<Vec<ImportSpecifier>, Failure>
    ensures value { ReadsBy I.machine I.state (N.reads nested.now) p.old p.new result
        (λ x. map view_import_specifier x.items)
        (λ m r. reads.specifiers_by m r true (code_of code)) }
    ensures shorter { Shorter I.machine I.state p.old p.new result }
{
    let mut list = Vec::new(p.alloc);
    'turns: while import_turn(p, nested, code, &mut list)? {}
    Ok(list)
}

/// `* as` a name.
#[inline(never)]
#[tactic(auto, unfolding(grammar_spec::specs::Reader::Modules::star_import))]
pub fn star_import<'a, I: Tokens<'a> + Drop, N: Nested<'a, I>>(
    p: &mut Parser<'a, I>,
    nested: &N,
    code: Around,
) -> Result<ImportSpecifier, Failure>
    ensures value { ReadsBy I.machine I.state (N.reads nested.now) p.old p.new result
        view_import_specifier (λ m r. reads.star_import m r (code_of code)) }
    ensures shorter { Shorter I.machine I.state p.old p.new result }
{
    let start = p.lo();
    p.expect(kinds::MUL)?;
    p.eat_word(code, kinds::AS)?;
    let local = local(p, nested, code)?;
    Ok(ImportSpecifier::Namespace(ImportStarAsSpecifier {
        span: p.since(start),
        local,
    }))
}

/// `from` and a module's name.
#[inline(never)]
#[tactic(auto, using(parse_operands::proofs::Packs::packs), unfolding(grammar_spec::specs::Reader::Modules::import_end))]
pub fn import_end<'a, I: Tokens<'a> + Drop, N: Nested<'a, I>>(
    p: &mut Parser<'a, I>,
    nested: &N,
    code: Around,
    start: BytePos,
    specifiers: Vec<ImportSpecifier>,
) -> Result<ImportDecl, Failure>
    requires ready { N.ready nested.now }
    ensures value { ReadsBy I.machine I.state (N.reads nested.now) p.old p.new result
        (view_import_decl inner)
        (λ m r. reads.import_end m r (code_of code) start.0 (map view_import_specifier specifiers.items)) }
    ensures fits { IfOk result (λ x. fits_import_decl (λ p. p) x) }
    ensures shorter { Shorter I.machine I.state p.old p.new result }
{
    p.eat_word(code, kinds::FROM)?;
    let from = source(p, nested, code)?;
    Ok(ImportDecl {
        span: p.since(start),
        specifiers,
        src: from.src,
        with_: from.with_,
    })
}

/// A star, after what stands before it.
#[inline(never)]
#[tactic(auto, unfolding(grammar_spec::specs::Reader::Modules::import_rest))]
pub fn import_star<'a, I: Tokens<'a> + Drop, N: Nested<'a, I>>(
    p: &mut Parser<'a, I>,
    nested: &N,
    code: Around,
    start: BytePos,
    first: Option<ImportSpecifier>,
) -> Result<ImportDecl, Failure>
    requires ready { N.ready nested.now }
    requires star { spec.at (stream_of I.machine) mul_kind (state_of I.state p.old) ≡ true }
    ensures value { ReadsBy I.machine I.state (N.reads nested.now) p.old p.new result
        (view_import_decl inner)
        (λ m r. reads.import_rest m r (code_of code) start.0 (first_of first)) }
    ensures fits { IfOk result (λ x. fits_import_decl (λ p. p) x) }
    ensures shorter { Shorter I.machine I.state p.old p.new result }
{
    let star = star_import(p, nested, code)?;
    let mut specifiers = Vec::new(p.alloc);
    if let Some(first) = first {
        specifiers.push(first)?;
    }
    specifiers.push(star)?;
    import_end(p, nested, code, start, specifiers)
}

/// What stands in front of a list, put in front of it.
pub fn in_front(
    first: Option<ImportSpecifier>,
    mut specifiers: Vec<ImportSpecifier>,
) -> Result<Vec<ImportSpecifier>, Failure>
    ensures value { IfOk result (λ x. map view_import_specifier x.items ≡ first_of first
        ++ map view_import_specifier specifiers.items) }
    ensures full { IfErr result IsMemory }
{
    if let Some(first) = first {
        specifiers.insert(0, first)?;
    }
    Ok(specifiers)
}

/// A star or a list, after what stands before them.
#[inline(never)]
#[tactic(auto, unfolding(grammar_spec::specs::Reader::Modules::import_rest))]
pub fn import_rest<'a, I: Tokens<'a> + Drop, N: Nested<'a, I>>(
    p: &mut Parser<'a, I>,
    nested: &N,
    code: Around,
    start: BytePos,
    first: Option<ImportSpecifier>,
) -> Result<ImportDecl, Failure>
    requires ready { N.ready nested.now }
    ensures value { ReadsBy I.machine I.state (N.reads nested.now) p.old p.new result
        (view_import_decl inner)
        (λ m r. reads.import_rest m r (code_of code) start.0 (first_of first)) }
    ensures fits { IfOk result (λ x. fits_import_decl (λ p. p) x) }
    ensures shorter { Shorter I.machine I.state p.old p.new result }
{
    if p.at(kinds::MUL) {
        return import_star(p, nested, code, start, first);
    }
    p.expect(kinds::LEFT_BRACE)?;
    let list = named_imports(p, nested, code)?;
    import_end(p, nested, code, start, in_front(first, list)?)
}

/// A name for the default export, and perhaps more.
#[inline(never)]
#[tactic(auto, unfolding(grammar_spec::specs::Reader::Modules::import_default))]
pub fn import_default<'a, I: Tokens<'a> + Drop, N: Nested<'a, I>>(
    p: &mut Parser<'a, I>,
    nested: &N,
    code: Around,
    start: BytePos,
) -> Result<ImportDecl, Failure>
    requires ready { N.ready nested.now }
    ensures value { ReadsBy I.machine I.state (N.reads nested.now) p.old p.new result
        (view_import_decl inner) (λ m r. reads.import_default m r (code_of code) start.0) }
    ensures fits { IfOk result (λ x. fits_import_decl (λ p. p) x) }
    ensures shorter { Shorter I.machine I.state p.old p.new result }
{
    let span = p.place();
    let local = local(p, nested, code)?;
    let first = ImportSpecifier::Default(ImportDefaultSpecifier { span, local });
    if p.eat(kinds::COMMA)? {
        return import_rest(p, nested, code, start, Some(first));
    }
    let mut specifiers = Vec::new(p.alloc);
    specifiers.push(first)?;
    import_end(p, nested, code, start, specifiers)
}

/// An import.
#[inline(never)]
#[tactic(auto, unfolding(grammar_spec::specs::Reader::Modules::import_decl_by))]
pub fn import_decl<'a, I: Tokens<'a> + Drop, N: Nested<'a, I>>(
    p: &mut Parser<'a, I>,
    nested: &N,
    code: Around,
) -> Result<ImportDecl, Failure>
    requires ready { N.ready nested.now }
    ensures value { ReadsBy I.machine I.state (N.reads nested.now) p.old p.new result
        (view_import_decl inner) (λ m r. reads.import_decl_by m r (code_of code)) }
    ensures fits { IfOk result (λ x. fits_import_decl (λ p. p) x) }
    ensures shorter { Shorter I.machine I.state p.old p.new result }
{
    let start = p.lo();
    p.eat_word(code, kinds::IMPORT)?;
    if p.at(kinds::STR) {
        let from = source(p, nested, code)?;
        return Ok(ImportDecl {
            span: p.since(start),
            specifiers: Vec::new(p.alloc),
            src: from.src,
            with_: from.with_,
        });
    }
    if p.is_word() {
        import_default(p, nested, code, start)
    } else {
        import_rest(p, nested, code, start, None)
    }
}
