//! `import` in an expression: a call, or `import.meta` (ECMA-262, 13.3.10 and 13.3.12).
ghost use Rattle.std.specs.Prelude.{◌≡◌, false, true};
ghost use Rattle.grammar_spec.specs.Reader.Expressions as reads;
ghost use Rattle.parse_state.specs.Codes.{code_of};
ghost use Rattle.parse_state.specs.Cursors.{stream_of};
ghost use Rattle.parse_state.specs.Reads.{Shorter};
ghost use Rattle.parse_operands.specs.Operands.{tree_of};
ghost use Rattle.parse_operands.specs.Lists.{arguments_of};
ghost use Rattle.parse_operands.specs.Rules.{ReadsBy};

use base_token::SyntaxError;
use parse_operands::elements::group_items;
use parse_operands::lists::Arguments;
use parse_operands::{Nested, Operand, made};
use parse_state::{Around, Failure, Parser, Tokens, kinds};
use tree_nodes::MetaPropKind;

/// Whether a call of `import` takes these arguments: one, which no dots spread; with import attributes two, and a last comma.
pub fn fits_import<'a, I: Tokens<'a> + Drop, N: Nested<'a, I>>(
    _p: &Parser<'a, I>,
    _nested: &N,
    code: Around,
    list: &Arguments,
) -> bool
    ensures { result ≡ reads.fits_import (stream_of I.machine)
        (N.reads _nested.now I.State I.machine) (code_of code) (arguments_of list.now) }
{
    let attributes = code.syntax.import_attributes;
    match list.items.as_slice() {
        [one] => one.spread.is_none() && (attributes || !list.comma),
        [one, two] => attributes && one.spread.is_none() && two.spread.is_none(),
        _ => false,
    }
}

/// `import` with its arguments, or `import.meta`.
#[inline(never)]
#[tactic(auto, using(parse_operands::proofs::Packs::packs), unfolding(grammar_spec::specs::Reader::Expressions::import_by))]
pub fn import<'a, I: Tokens<'a> + Drop, N: Nested<'a, I>>(
    p: &mut Parser<'a, I>,
    nested: &N,
    code: Around,
) -> Result<Operand, Failure>
    requires ready { N.ready nested.now }
    ensures value { ReadsBy I.machine I.state (N.reads nested.now) p.old p.new result
        tree_of (λ m r. reads.import_by m r (code_of code)) }
    ensures shorter { Shorter I.machine I.state p.old p.new result }
{
    let start = p.lo();
    let place = p.place();
    p.eat_word(code, kinds::IMPORT)?;
    if p.eat(kinds::DOT)? {
        p.eat_word(code, kinds::META)?;
        return made::meta_prop_expr(p.alloc, p.since(start), MetaPropKind::ImportMeta);
    }
    let fault = if code.context.module_ {
        SyntaxError::InvalidImport
    } else {
        SyntaxError::ImportExportInScript
    };
    p.expect_or(kinds::LEFT_PAREN, place, fault)?;
    let list = group_items(p, nested, code)?;
    if !fits_import(p, nested, code, &list) {
        return Err(p.unexpected());
    }
    made::import_call(p.alloc, p.since(start), place, list.items)
}
